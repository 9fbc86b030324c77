// The slices of a picture, coded one after another, and their units.
ghost use Rattle.std.specs.Prelude.{◌≡◌, ◌≤◌, ◌<◌, ◌+◌, ◌*◌, ◌%◌, ◌==◌, true, [], length, OnOk, cond};
ghost use Rattle.std.specs.List.{All};
ghost use Rattle.picture_planes.specs.Pictures.{planes_of, SameShapes};
ghost use Rattle.bit_strings.specs.BitText.{Appends};
ghost use Rattle.nal_writer.specs.Runs.{Grows};
ghost use Rattle.spec_bits.specs.Bits.{bits_of_bytes, bytes_of_bits};
ghost use Rattle.spec_bits.specs.Units.{unit_bytes, EndsWell};
ghost use Rattle.spec_lists.specs.Heads.{ref_idc_of};
ghost use Rattle.spec_slice_payload.specs.Writing.{layer_bits};
ghost use Rattle.spec_decoder.specs.Frames.{blank_planes};
ghost use Rattle.slice_coder.specs.Left.{Leaves};
ghost use Rattle.picture_coder.specs.Pictures.{format_for, kind_number, IsCoding, HasPlansFor, IsQuantised, slice_at, unit_of, SliceCoded, SlicesCoded, units_to};

use crate::coding::Coding;
use crate::heads::head_at;
use crate::job::Job;
use crate::rows::{macroblocks_of, rows_of};
use bit_strings::{BitBuf, Full};
use enc_tables::{HIGHEST_REF_IDC, MbRecord, PlanStep, RowPlan, SliceKind, UNIT_IDR_SLICE};
use nal_writer::unit;
use picture_planes::Picture;
use slice_coder::{code_slice, slices_are_searched};

// nal_unit_type of a slice that isn't one of an IDR picture (ITU-T H.264, table 7-1).
const UNIT_SLICE: u8 = 1;

// nal_ref_idc: 0 where later pictures don't refer to the picture.
fn ref_idc_for(step: &PlanStep) -> u8
    ensures value { result ≡ ref_idc_of step.now.idr step.now.kind }
    ensures small { result ≤ 3 }
{
    match step.kind {
        SliceKind::B => 0,
        _ => { if step.idr { HIGHEST_REF_IDC } else { 2 } }
    }
}

// nal_unit_type of its slices.
fn unit_kind_for(step: &PlanStep) -> u8
    ensures value { result ≡ kind_number step.now.idr }
    ensures from { 1 ≤ result }
    ensures to { result ≤ 31 }
{
    if step.idr { UNIT_IDR_SLICE } else { UNIT_SLICE }
}

// Appends the unit of a slice with this payload, and empties the payload.
fn append_unit(
    out: &mut BitBuf,
    step: &PlanStep,
    payload: BitBuf,
    long: bool,
) -> (Result<(), Full>, BitBuf)
    requires whole { length out.old.text % 8 ≡ 0 }
    requires payload { length payload.text % 8 ≡ 0 }
    requires ends { EndsWell (bytes_of_bits payload.text) }
    ensures appended { Appends out.old out.new (bits_of_bytes (unit_bytes long (ref_idc_of step.now.idr step.now.kind) (kind_number step.now.idr) (bytes_of_bits payload.text))) result.0 }
    ensures payload { result.1 ≡ record payload { text = [] } }
{
    let mut payload = payload;
    let done = unit(
        out,
        ref_idc_for(step),
        unit_kind_for(step),
        payload.bytes(),
        long,
    );
    payload.clear();
    (done, payload)
}

/// Codes slice `slice` behind those before it, and leaves its payload in the buffer.
pub fn code_rows(
    coding: &Coding,
    job: &Job<'_>,
    slice: u32,
    plans: &[RowPlan],
    picture: &mut Picture,
    records: &mut [MbRecord],
    payload: BitBuf,
) -> (Result<(), Full>, BitBuf)
    requires coding { IsCoding coding.now job.now picture.old }
    requires slice { slice < coding.now.slices }
    requires plans { HasPlansFor coding.now job.now plans.now }
    requires plan_count { length plans.now ≡ coding.now.down }
    requires records { length records.old ≡ coding.now.down * coding.now.across }
    requires empty { payload.text ≡ [] }
    ensures shapes { SameShapes picture.old picture.new }
    ensures count { length records.new ≡ length records.old }
    ensures payload { Leaves result.0 payload.room payload.made (layer_bits (format_for coding.now job.now) (slice_at coding.now job.now slice (planes_of picture.old))) result.1 }
    ensures coded { OnOk result.0 (SliceCoded coding.now job.now (slice_at coding.now job.now slice (planes_of picture.old)) slice (planes_of picture.old) (planes_of picture.new) records.old records.new) }
    ensures quantised { All IsQuantised (slice_at coding.now job.now slice (planes_of picture.old)).records }
{
    slices_are_searched();
    let rows = rows_of(slice, coding.slices, coding.down);
    let (from, to) = macroblocks_of(rows, coding.across);
    let head = head_at(
        coding.across,
        coding.down,
        rows.0 * coding.across,
        job,
        coding.qp,
    );
    code_slice(
        &mut picture.stripe(),
        job.source,
        job.lists,
        &plans[rows.0 as usize..rows.1 as usize],
        &head,
        rows,
        job.t8x8,
        coding.coarsest,
        &mut records[from..to],
        payload,
    )
}

// Codes slice `slice` behind those before it, and appends its unit. On `Full` nothing is appended.
fn code_unit(
    coding: &Coding,
    job: &Job<'_>,
    slice: u32,
    plans: &[RowPlan],
    picture: &mut Picture,
    records: &mut [MbRecord],
    payload: BitBuf,
    long: bool,
    out: &mut BitBuf,
) -> (Result<(), Full>, BitBuf)
    requires coding { IsCoding coding.now job.now picture.old }
    requires slice { slice < coding.now.slices }
    requires plans { HasPlansFor coding.now job.now plans.now }
    requires plan_count { length plans.now ≡ coding.now.down }
    requires records { length records.old ≡ coding.now.down * coding.now.across }
    requires empty { payload.text ≡ [] }
    requires room { out.old.room ≤ length out.old.text + payload.room }
    requires whole { length out.old.text % 8 ≡ 0 }
    ensures shapes { SameShapes picture.old picture.new }
    ensures count { length records.new ≡ length records.old }
    ensures coded { OnOk result.0 (SliceCoded coding.now job.now (slice_at coding.now job.now slice (planes_of picture.old)) slice (planes_of picture.old) (planes_of picture.new) records.old records.new) }
    ensures quantised { All IsQuantised (slice_at coding.now job.now slice (planes_of picture.old)).records }
    ensures payload { result.1 ≡ payload }
    ensures unit { Appends out.old out.new (unit_of coding.now job.now long (slice_at coding.now job.now slice (planes_of picture.old))) result.0 }
{
    let (done, payload) = code_rows(coding, job, slice, plans, picture, records, payload);
    if done.is_err() {
        return (Err(Full), payload);
    }
    append_unit(out, &job.step, payload, long)
}

/// Codes all slices, one after another, and appends their units; the first one has a start code of four bytes where
/// `out` was empty. On `Full` some of the units may be there.
pub fn code_slices(
    coding: &Coding,
    job: &Job<'_>,
    plans: &[RowPlan],
    picture: &mut Picture,
    records: &mut [MbRecord],
    payload: BitBuf,
    out: &mut BitBuf,
) -> (Result<(), Full>, BitBuf)
    requires coding { IsCoding coding.now job.now picture.old }
    requires blank { planes_of picture.old ≡ blank_planes coding.now.across coding.now.down }
    requires plans { HasPlansFor coding.now job.now plans.now }
    requires plan_count { length plans.now ≡ coding.now.down }
    requires records { length records.old ≡ coding.now.down * coding.now.across }
    requires empty { payload.text ≡ [] }
    requires room { out.old.room ≤ length out.old.text + payload.room }
    requires whole { length out.old.text % 8 ≡ 0 }
    ensures shapes { SameShapes picture.old picture.new }
    ensures count { length records.new ≡ length records.old }
    ensures coded { OnOk result.0 (SlicesCoded coding.now job.now coding.now.slices (planes_of picture.new) records.new) }
    ensures payload { result.1 ≡ payload }
    ensures units { Grows out.old out.new (units_to coding.now job.now (length out.old.text == 0) coding.now.slices) result.0 }
{
    let mut payload = payload;
    let mut long = out.len() == 0;
    for slice in 0..coding.slices {
        let (done, emptied) = code_unit(
            coding, job, slice, plans, picture, records, payload, long, out,
        );
        if done.is_err() {
            return (Err(Full), emptied);
        }
        payload = emptied;
        long = false;
    }
    (Ok(()), payload)
}
