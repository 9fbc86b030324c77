// `heads`: what stands before and behind the slices of a stream, and the numbers that it says. Each line asks for one
// thing, by its name and its numbers: `sps WIDTH HEIGHT LEVEL REFS NUM DEN RATE CPB REORDER`, `pps T8X8`: the unit of a
// parameter set, whole; `slice KIND FIRST_MB FRAME_NUM IDR_ID POC REFS0 REFS1 MOVED QP`: a slice's header with the ones
// to the byte. KIND is 0, 1 or 2 for I, P and B, and MOVED is abs_diff_pic_num of the picture that is moved to the
// front of list 0, or 0; `sei DELAY REMOVAL OUTPUT`: the unit of messages, with a buffering period where DELAY isn't 0;
// `filler BYTES`: a filler unit; `level WIDTH_MBS HEIGHT_MBS NUM DEN RATE CPB REFS`: the least level, or 0, and all
// levels that fit; `plan PICTURES IDR BFRAMES`: a line for each picture in coded order, with its place in display
// order, kind, frame_num and POC; `ledger RATE CPB DELAY NUM DEN QP` and for each picture its kind and bits: a line for
// each with the bits that are there, the first quantisation parameter, the delay of a buffering period that begins with
// it, and the bytes of filler.
ghost use Rattle.std.specs.Prelude.{◌≡◌, ◌<◌, ◌≤◌, ◌+◌, ℕ, ◌%◌, ◌==◌, IfSome, IfOk, IsTrue, true, false};
ghost use Rattle.enc_tables.specs.declared.SliceKind.TheVariants.{I};
ghost use Rattle.spec_headers.specs.Allowed.{IsSeqHead, IsSliceHead, IsTiming, HasLists};
ghost use Rattle.spec_bits.specs.Units.{EndsWell};
ghost use Rattle.spec_buffer.specs.Buffer.{IsRate};
ghost use Rattle.buffer_control.specs.Kept.{rate_by};
ghost use Rattle.buffer_control.specs.Seen.{spent_of};

use crate::code::print_code;
use bit_strings::BitBuf;
use buffer_control::Ledger;
use enc_tables::{MOST_HEIGHT, MOST_WIDTH, PlanStep, SliceKind};
use gop_plan::{group, wanted};
use level_limits::{LEVELS, Need, fits, least};
use nal_writer::{filler, unit};
use param_sets::{
    SeqHead, SliceHead, Timing, write_buffering, write_pps, write_slice_head, write_sps,
    write_timing,
};
use tool_input::{Fault, number_words};
use tool_records::slice_kind_of;

const QUESTIONS: &str =
    "lines of sps, pps, slice, sei, filler, level, plan or ledger with their numbers";

// The most bytes of a payload, and of a unit that isn't filler.
const ROOM: u32 = 1024;

// nal_unit_type and nal_ref_idc (ITU-T H.264, table 7-1).
const MESSAGES: (u8, u8) = (6, 0);

const SEQUENCE_SET: (u8, u8) = (7, 3);

const PICTURE_SET: (u8, u8) = (8, 3);

fn wrong() -> Fault {
    Fault::Input(QUESTIONS)
}

// Whether a payload can end a unit (clause 7.4.1).
fn ends_well(payload: &[u8]) -> bool
    ensures { IsTrue result → EndsWell payload.now }
{
    payload.is_empty() || payload[payload.len() - 1] != 0
}

// Prints a unit, given nal_unit_type and nal_ref_idc, whose payload trailing bits end.
fn print_unit(
    rt: &HostRuntime,
    header: (u8, u8),
    long_start: bool,
    payload: BitBuf,
) -> Result<(), Fault>
    requires kind { (1 ≤ header.0) × (header.0 ≤ 31) }
    requires ref_idc { header.1 ≤ 3 }
{
    let mut payload = payload;
    payload.trail()?;
    if payload.len() % 8 != 0 {
        return Err(wrong());
    }
    let bytes = payload.bytes();
    if !ends_well(bytes) {
        return Err(wrong());
    }
    let mut out = BitBuf::with_room(rt.alloc(), 2 * ROOM)?;
    unit(&mut out, header.1, header.0, bytes, long_start)?;
    // The buffer that comes back isn't needed again.
    let _ = print_code(rt, out)?;
    Ok(())
}

fn timing_of(numbers: &[u32]) -> Option<Timing>
    ensures { IfSome result IsTiming }
{
    let [num, den, rate, cpb, reorder] = *numbers else {
        return None;
    };
    if num == 0 || num >= 2147483648 || den == 0 {
        return None;
    }
    if rate < 64 || rate % 64 != 0 || cpb < 16 || cpb % 16 != 0 {
        return None;
    }
    Some(Timing {
        num,
        den,
        rate,
        cpb,
        reorder: reorder != 0,
    })
}

fn sequence_head(numbers: &[u32]) -> Option<SeqHead>
    ensures { IfSome result IsSeqHead }
{
    let [width, height, level, refs, timing @ ..] = numbers else {
        return None;
    };
    let (width, height, level, refs) = (*width, *height, *level, *refs);
    let timing = timing_of(timing)?;
    if width < 16 || width > MOST_WIDTH || width % 2 != 0 {
        return None;
    }
    if height < 16 || height > MOST_HEIGHT || height % 2 != 0 {
        return None;
    }
    if level > 255 || refs == 0 || refs > 4 {
        return None;
    }
    Some(SeqHead {
        width,
        height,
        level: level as u8,
        refs,
        timing: Some(timing),
    })
}

fn print_sequence_set(rt: &HostRuntime, numbers: &[u32]) -> Result<(), Fault> {
    let Some(head) = sequence_head(numbers) else {
        return Err(wrong());
    };
    let mut payload = BitBuf::with_room(rt.alloc(), ROOM)?;
    write_sps(&mut payload, &head)?;
    print_unit(rt, SEQUENCE_SET, true, payload)
}

fn print_picture_set(rt: &HostRuntime, t8x8: u32) -> Result<(), Fault> {
    let mut payload = BitBuf::with_room(rt.alloc(), ROOM)?;
    write_pps(&mut payload, true, t8x8 != 0)?;
    print_unit(rt, PICTURE_SET, true, payload)
}

fn kind_name(kind: SliceKind) -> &'static str {
    match kind {
        SliceKind::I => "I",
        SliceKind::P => "P",
        SliceKind::B => "B",
    }
}

fn is_intra(kind: SliceKind) -> bool
    ensures { result ≡ true → kind ≡ I }
{
    match kind {
        SliceKind::I => true,
        _ => false,
    }
}

fn has_lists(kind: SliceKind, refs0: u8, refs1: u8) -> bool
    ensures { IsTrue result → HasLists kind refs0 refs1 }
{
    match kind {
        SliceKind::I => true,
        SliceKind::P => refs0 >= 1,
        SliceKind::B => refs0 >= 1 && refs1 >= 1,
    }
}

fn moved_by(difference: u32) -> Option<u16> {
    if difference == 0 || difference > 65536 {
        return None;
    }
    Some((difference - 1) as u16)
}

fn slice_head(numbers: &[u32]) -> Option<SliceHead>
    ensures { IfSome result IsSliceHead }
{
    let [
        kind,
        first_mb,
        frame_num,
        idr_id,
        poc,
        refs0,
        refs1,
        moved,
        qp,
    ] = *numbers
    else {
        return None;
    };
    let kind = slice_kind_of(kind as i64)?;
    if first_mb == 4294967295 || frame_num > 65535 || idr_id > 1 || poc > 65535 {
        return None;
    }
    if refs0 > 32 || refs1 > 32 || qp > 51 {
        return None;
    }
    if !has_lists(kind, refs0 as u8, refs1 as u8) {
        return None;
    }
    Some(SliceHead {
        first_mb,
        kind,
        idr: is_intra(kind),
        frame_num: frame_num as u16,
        idr_id: idr_id as u8,
        poc: poc as u16,
        refs0: refs0 as u8,
        refs1: refs1 as u8,
        moved: moved_by(moved),
        qp: qp as u8,
        cabac: true,
    })
}

fn print_slice_head(rt: &HostRuntime, numbers: &[u32]) -> Result<(), Fault> {
    let Some(head) = slice_head(numbers) else {
        return Err(wrong());
    };
    let mut out = BitBuf::with_room(rt.alloc(), ROOM)?;
    write_slice_head(&mut out, &head)?;
    // The buffer that comes back isn't needed again.
    let _ = print_code(rt, out)?;
    Ok(())
}

fn print_messages(rt: &HostRuntime, delay: u32, removal: u32, output: u32) -> Result<(), Fault> {
    if removal >= 16777216 || output >= 16777216 {
        return Err(wrong());
    }
    let mut payload = BitBuf::with_room(rt.alloc(), ROOM)?;
    if delay != 0 {
        write_buffering(&mut payload, delay)?;
    }
    write_timing(&mut payload, removal, output)?;
    print_unit(rt, MESSAGES, delay == 0, payload)
}

fn print_filler(rt: &HostRuntime, bytes: u32) -> Result<(), Fault> {
    if bytes < 5 {
        return Err(wrong());
    }
    let mut out = BitBuf::with_room(rt.alloc(), bytes)?;
    filler(&mut out, bytes)?;
    // The buffer that comes back isn't needed again.
    let _ = print_code(rt, out)?;
    Ok(())
}

fn print_levels(rt: &HostRuntime, numbers: &[u32]) -> Result<(), Fault> {
    let [width_mbs, height_mbs, num, den, rate, cpb, refs] = *numbers else {
        return Err(wrong());
    };
    let need = Need {
        width_mbs,
        height_mbs,
        num,
        den,
        rate: rate as u64,
        cpb: cpb as u64,
        refs,
    };
    let mut text = String::new(rt.alloc());
    write!(text, "{}", least(&need).unwrap_or(0))?;
    for (level, _) in &LEVELS {
        if fits(*level, &need) {
            write!(text, " {level}")?;
        }
    }
    rt.println(text.as_str())?;
    Ok(())
}

fn print_step(rt: &HostRuntime, step: &PlanStep) -> Result<(), Fault> {
    let mut text = String::new(rt.alloc());
    write!(text, "{} {}", step.display, kind_name(step.kind))?;
    write!(text, " {} {}", step.frame_num, step.poc)?;
    rt.println(text.as_str())?;
    Ok(())
}

// Whether so many pictures from a place on can be one group.
fn is_group(display: u32, got: u32, idr: u32) -> bool
    requires period { (1 ≤ idr) × (idr ≤ 600) }
    requires few { got ≤ 5 }
    ensures alone { IsTrue result → (display % idr == 0) ≡ true → got ≡ 1 }
    ensures between { IsTrue result → (display % idr == 0) ≡ false → display % idr + got ≤ idr }
{
    if display % idr == 0 {
        got == 1
    } else {
        display % idr + got <= idr
    }
}

// Prints the steps of the group at this place of a film of so many pictures, and tells how many it has.
fn print_group(
    rt: &HostRuntime,
    display: u32,
    count: u32,
    idr: u32,
    bframes: u32,
    frame_num: u16,
) -> Result<u32, Fault>
    requires place { (display < count) × (display < 1000000) }
    requires period { (1 ≤ idr) × (idr ≤ 600) }
    requires between { bframes ≤ 4 }
    ensures { IfOk result (λ got. got ≤ 5) }
{
    let got = wanted(display, idr, bframes).min(count - display);
    if frame_num > 600 || !is_group(display, got, idr) {
        return Err(wrong());
    }
    for step in group(display, got, idr, frame_num).as_slice() {
        print_step(rt, step)?;
    }
    Ok(got)
}

fn print_plan(rt: &HostRuntime, count: u32, idr: u32, bframes: u32) -> Result<(), Fault> {
    if count > 1000000 || idr == 0 || idr > 600 || bframes > 4 {
        return Err(wrong());
    }
    let mut display = 0u32;
    let mut frame_num = 0u16;
    for _ in 0..count {
        if display >= count {
            break;
        }
        let got = print_group(rt, display, count, idr, bframes, frame_num)?;
        frame_num = if display % idr == 0 {
            1
        } else {
            frame_num.saturating_add(1)
        };
        display = display.saturating_add(got);
    }
    Ok(())
}

fn ledger_of(rate: u32, cpb: u32, delay: u32, num: u32, den: u32, qp: u32) -> Option<Ledger>
    ensures { IfSome result (λ ledger. (spent_of ledger).units ≡ 0) }
{
    let share = rate as u128 * den as u128 + 48 * num as u128;
    let first = rate as u128 * delay as u128;
    if rate == 0 || num == 0 || qp > 51 {
        return None;
    }
    if share > cpb as u128 * num as u128 || first > 90000 * cpb as u128 {
        return None;
    }
    Some(Ledger::new(rate, cpb, delay, num, den, qp as u8))
}

// Spends a picture's bits where they are there, and gives the bytes of filler behind it.
#[tactic(auto, unfolding(spec_buffer::specs::Ledger::spent))]
fn spend(ledger: &mut Ledger, bits: u64) -> Option<u32>
    requires { (spent_of ledger.old).units < 2000000 }
    ensures { (spent_of ledger.new).units ≤ (spent_of ledger.old).units + 1 }
{
    if bits > ledger.available() {
        return None;
    }
    let filler = ledger.filler_bytes(bits);
    ledger.spend(bits, filler);
    Some(filler)
}

// Prints a picture's line, and spends its bits.
fn print_spent(
    rt: &HostRuntime,
    ledger: &mut Ledger,
    kind: SliceKind,
    bits: u64,
) -> Result<(), Fault>
    requires { (spent_of ledger.old).units < 2000000 }
    ensures { (spent_of ledger.new).units ≤ (spent_of ledger.old).units + 1 }
{
    let (have, qp, delay) = (ledger.available(), ledger.start_qp(kind), ledger.bp_delay());
    let filler = spend(ledger, bits);
    let mut text = String::new(rt.alloc());
    write!(text, "{have} {qp} {delay}")?;
    if let Some(filler) = filler {
        write!(text, " {filler}")?;
    }
    rt.println(text.as_str())?;
    Ok(())
}

fn spend_all(rt: &HostRuntime, ledger: Ledger, units: &[u32]) -> Result<(), Fault>
    requires { (spent_of ledger).units ≡ 0 }
{
    let mut ledger = ledger;
    let count = (units.len() / 2).min(1000000);
    for k in 0..count {
        let Some(kind) = slice_kind_of(units[2 * k] as i64) else {
            return Err(wrong());
        };
        print_spent(rt, &mut ledger, kind, units[2 * k + 1] as u64)?;
    }
    Ok(())
}

fn print_ledger(rt: &HostRuntime, numbers: &[u32]) -> Result<(), Fault> {
    let [rate, cpb, delay, num, den, qp, units @ ..] = numbers else {
        return Err(wrong());
    };
    let Some(ledger) = ledger_of(*rate, *cpb, *delay, *num, *den, *qp) else {
        return Err(wrong());
    };
    spend_all(rt, ledger, units)
}

fn answer(rt: &HostRuntime, name: &str, numbers: &[u32]) -> Result<(), Fault> {
    match (name, numbers) {
        ("sps", numbers) => print_sequence_set(rt, numbers),
        ("pps", [t8x8]) => print_picture_set(rt, *t8x8),
        ("slice", numbers) => print_slice_head(rt, numbers),
        ("sei", [delay, removal, output]) => print_messages(rt, *delay, *removal, *output),
        ("filler", [bytes]) => print_filler(rt, *bytes),
        ("level", numbers) => print_levels(rt, numbers),
        ("plan", [count, idr, bframes]) => print_plan(rt, *count, *idr, *bframes),
        ("ledger", numbers) => print_ledger(rt, numbers),
        _ => Err(wrong()),
    }
}

/// Answers the questions of the lines.
pub fn answer_lines(rt: &HostRuntime, lines: &[String]) -> Result<(), Fault> {
    let alloc = rt.alloc();
    for line in lines {
        let words: Vec<&str> = line.as_str().split(' ').collect(alloc)?;
        let [name, numbers @ ..] = words.as_slice() else {
            return Err(wrong());
        };
        let numbers = number_words(alloc, numbers, QUESTIONS)?;
        answer(rt, *name, numbers.as_slice())?;
    }
    Ok(())
}
