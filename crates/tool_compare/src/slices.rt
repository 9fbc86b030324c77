// `slices`: writes the data of slices by the macroblock layer. A line of eight numbers begins each slice, as `head_of`
// reads them, and behind it stands a line of 461 numbers for each of its macroblocks, as `record_of` reads them. What
// is printed is a line for each slice: its data's bytes in hexadecimal, the last one filled up with zeros.
ghost use Rattle.std.specs.Prelude.{IfOk};
ghost use Rattle.bin_writer.specs.Coding.{seen, IsReady};

use crate::code::print_code;
use bit_strings::BitBuf;
use cabac_coder::Coder;
use cabac_contexts::Contexts;
use enc_tables::{MbRecord, SliceKind};
use mb_syntax::{Around, write_mb};
use std::alloc::Global;
use tool_input::{Fault, as_byte, numbers_of};
use tool_records::{is_record, record_of, slice_kind_of};

// The most bytes of a slice's data.
const ROOM: u32 = 1_000_000;

const RECORD: &str = "slices whose macroblocks can be where they are";

const WHOLE: &str = "whole: the last slice lacks macroblocks";

// What a slice begins with: the picture's width in macroblocks, the number of its first macroblock, how many it has,
// its QP, whether 8x8 transforms may be used, 0 or 1, its type, 0 for I, 1 for P and 2 for B, and the lengths of list 0
// and list 1.
#[derive(Clone, Copy)]
struct Head {
    width: u16,
    first: u16,
    count: usize,
    qp: u8,
    t8x8: bool,
    kind: SliceKind,
    refs0: u8,
    refs1: u8,
}

fn place(number: i32) -> Option<u16> {
    if number < 0 || number > 65535 {
        return None;
    }
    Some(number as u16)
}

// The slice that eight numbers begin.
fn head_of(numbers: &[i32]) -> Option<Head> {
    let [width, first, count, qp, t8x8, kind, refs0, refs1] = numbers else {
        return None;
    };
    if *width == 0 || *count == 0 {
        return None;
    }
    Some(Head {
        width: place(*width)?,
        first: place(*first)?,
        count: place(*count)? as usize,
        qp: as_byte(*qp)?,
        t8x8: *t8x8 == 1,
        kind: slice_kind_of(*kind as i64)?,
        refs0: as_byte(*refs0)?,
        refs1: as_byte(*refs1)?,
    })
}

// The column of a macroblock of a slice.
fn column(head: &Head, place: usize) -> usize {
    let width = head.width as usize;
    if width == 0 {
        return 0;
    }
    let place = place % width;
    (head.first as usize + place) % width
}

// What is around the macroblock behind these.
fn around_of<'a>(before: &'a [MbRecord], head: &Head) -> Around<'a> {
    let width = head.width as usize;
    let left = if column(head, before.len()) == 0 {
        None
    } else {
        before.last()
    };
    let above = if before.len() < width {
        None
    } else {
        before.get(before.len() - width)
    };
    Around {
        left,
        above,
        last_delta: false,
        kind: head.kind,
        refs0: head.refs0,
        refs1: head.refs1,
        t8x8: head.t8x8,
    }
}

fn write_checked(
    coder: &mut Coder,
    contexts: &mut Contexts,
    mb: &MbRecord,
    around: &Around,
) -> Result<(), Fault>
    requires { IsReady (seen coder.old contexts.old) }
    ensures { IfOk result (λ _. IsReady (seen coder.new contexts.new)) }
{
    if !is_record(mb, around) {
        return Err(Fault::Input(RECORD));
    }
    write_mb(coder, contexts, mb, around)?;
    Ok(())
}

// The data of a slice with these macroblocks.
fn write_slice(alloc: Global, head: &Head, records: &[MbRecord]) -> Result<BitBuf, Fault> {
    if head.qp > 51 {
        return Err(Fault::Input(RECORD));
    }
    let Some((last, others)) = records.split_last() else {
        return Err(Fault::Input(WHOLE));
    };
    let mut coder = Coder::start(BitBuf::with_room(alloc, ROOM)?);
    let mut contexts = Contexts::init(head.kind, head.qp);
    for k in 0..others.len() {
        write_checked(
            &mut coder,
            &mut contexts,
            &others[k],
            &around_of(&others[..k], head),
        )?;
        coder.terminate(false)?;
    }
    write_checked(&mut coder, &mut contexts, last, &around_of(others, head))?;
    coder.terminate(true)?;
    Ok(coder.finish())
}

/// Writes the slices of the lines.
pub fn code_slices(rt: &HostRuntime, lines: &[String]) -> Result<(), Fault> {
    let alloc = rt.alloc();
    let mut head = Head {
        width: 1,
        first: 0,
        count: 0,
        qp: 0,
        t8x8: false,
        kind: SliceKind::I,
        refs0: 0,
        refs1: 0,
    };
    let mut records: Vec<MbRecord> = Vec::new(alloc);
    for (place, line) in lines.iter().enumerate() {
        let Some(numbers) = numbers_of(alloc, line.as_str())? else {
            return Err(Fault::Line(
                place + 1,
                "decimal numbers with a blank between two of them",
            ));
        };
        if records.len() == head.count {
            records.clear();
            let Some(next) = head_of(numbers.as_slice()) else {
                return Err(Fault::Line(place + 1, "the eight numbers of a slice"));
            };
            head = next;
        } else {
            let Some(mb) = record_of(numbers.as_slice(), head.qp) else {
                return Err(Fault::Line(place + 1, "the 461 numbers of a macroblock"));
            };
            if records.push(mb).is_err() {
                return Err(Fault::OutOfMemory);
            }
            if records.len() == head.count {
                print_code(rt, write_slice(alloc, &head, records.as_slice())?)?;
            }
        }
    }
    if records.len() == head.count {
        Ok(())
    } else {
        Err(Fault::Input(WHOLE))
    }
}
