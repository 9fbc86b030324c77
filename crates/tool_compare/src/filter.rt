// `filter`: filters one picture by the deblocking filter (ITU-T H.264, clause 8.7). The numbers of all lines are: the
// luma width and height; four picture numbers of list 0 and four of list 1; the picture; and for each macroblock 43
// numbers: its kind (the place in `MbKind`), whether it has 8x8 transforms, its quantisation parameter, for each 8x8
// block two reference indices and two vectors, and for each 4x4 block whether it has a level. What is printed are the
// filtered rows.
ghost use Rattle.std.specs.Prelude.{◌≡◌, ◌≤◌, IsTrue, OnOk, length, IfOk, IfSome};
ghost use Rattle.std.specs.List.{All};
ghost use Rattle.picture_planes.specs.Pictures.{planes_of};
ghost use Rattle.spec_filter.specs.Pictures.{picture_filtered};

use crate::pictures::read_picture;
use deblock::deblock_picture;
use enc_tables::{MOST_HEIGHT, MbRecord, Motion, Vector};
use picture_planes::{Picture, Plane};
use std::alloc::Global;
use tool_input::{Fault, Numbers, all_numbers, as_short};
use tool_records::kind_of;

// How many numbers a record has.
const NUMBERS: usize = 43;

const WANTED: &str = "a picture of whole macroblocks with its lists and records";

// A reference index into a list of four; -1 for none.
fn reference(number: i32) -> Option<i8> {
    if number < -1 || number > 3 {
        return None;
    }
    Some(number as i8)
}

fn motion(numbers: &[i32]) -> Option<Motion>
    requires { length numbers.now ≡ 6 }
{
    let first = Vector {
        x: as_short(numbers[2])?,
        y: as_short(numbers[3])?,
    };
    let second = Vector {
        x: as_short(numbers[4])?,
        y: as_short(numbers[5])?,
    };
    Some(Motion {
        refs: [reference(numbers[0])?, reference(numbers[1])?],
        vectors: [first, second],
    })
}

// A level 1 in each 4x4 block that has one.
fn levels(flags: &[i32]) -> [i16; 256]
    requires { length flags.now ≡ 16 }
{
    let mut luma = [0; 256];
    for block in 0..16 {
        if flags[block] != 0 {
            luma[16 * block] = 1;
        }
    }
    luma
}

// The record that these numbers are.
fn read_record(numbers: &[i32]) -> Option<MbRecord>
    requires { length numbers.now ≡ NUMBERS }
    ensures { IfSome result (λ r. r.qp ≤ 51) }
{
    let qp = numbers[2];
    if qp < 0 || qp > 51 {
        return None;
    }
    let motion = [
        motion(&numbers[3..9])?,
        motion(&numbers[9..15])?,
        motion(&numbers[15..21])?,
        motion(&numbers[21..27])?,
    ];
    Some(MbRecord {
        kind: kind_of(numbers[0])?,
        transform8: numbers[1] != 0,
        modes: [0; 16],
        chroma_mode: 0,
        motion,
        mvd: [Vector::ZERO; 8],
        luma_cbp: 0,
        chroma_cbp: 0,
        qp: qp as u8,
        luma_dc: [0; 16],
        luma: levels(&numbers[27..43]),
        chroma_dc: [0; 8],
        chroma_ac: [0; 120],
    })
}

fn read_records(
    alloc: Global,
    numbers: &mut Numbers,
    count: usize,
) -> Result<Vec<MbRecord>, Fault> {
    let mut records = Vec::new(alloc);
    for _ in 0..count {
        let Some(record) = read_record(numbers.take(NUMBERS, WANTED)?) else {
            return Err(Fault::Input(WANTED));
        };
        if records.push(record).is_err() {
            return Err(Fault::OutOfMemory);
        }
    }
    Ok(records)
}

fn are_allowed(records: &[MbRecord]) -> bool
    ensures { IsTrue result → All (λ r. r.qp ≤ 51) records.now }
{
    records.iter().all(|record| record.qp <= 51)
}

fn filter(
    picture: &mut Picture,
    records: &[MbRecord],
    pictures0: &[i32],
    pictures1: &[i32],
) -> Result<(), Fault>
    ensures { OnOk result (planes_of picture.new ≡ picture_filtered pictures0.now pictures1.now records.now picture.old.y.width (planes_of picture.old)) }
{
    let count = picture.y.width as usize / 16 * (picture.y.height as usize / 16);
    if records.len() != count || !are_allowed(records) {
        return Err(Fault::Input(WANTED));
    }
    deblock_picture(picture, records, pictures0, pictures1);
    Ok(())
}

fn print_plane(rt: &HostRuntime, plane: &Plane) -> Result<(), Fault> {
    for y in 0..plane.height {
        let mut text = String::new(rt.alloc());
        for sample in plane.row(y) {
            write!(text, "{sample} ")?;
        }
        rt.println(text.as_str())?;
    }
    Ok(())
}

fn side(number: i32) -> Result<u32, Fault>
    ensures { IfOk result (λ n. (16 ≤ n) × (n ≤ 2304)) }
{
    if number < 16 || number > MOST_HEIGHT as i32 || number % 16 != 0 {
        return Err(Fault::Input(WANTED));
    }
    Ok(number as u32)
}

/// Filters the picture of the lines.
pub fn filter_picture(rt: &HostRuntime, lines: &[String]) -> Result<(), Fault> {
    let alloc = rt.alloc();
    let numbers = all_numbers(alloc, lines)?;
    let mut numbers = Numbers {
        left: numbers.as_slice(),
    };
    let sides = numbers.take(2, WANTED)?;
    let width = side(sides[0])?;
    let height = side(sides[1])?;
    let pictures0 = numbers.take(4, WANTED)?;
    let pictures1 = numbers.take(4, WANTED)?;
    let mut picture = read_picture(alloc, &mut numbers, width, height)?;
    let count = width as usize / 16 * (height as usize / 16);
    let records = read_records(alloc, &mut numbers, count)?;
    filter(&mut picture, records.as_slice(), pictures0, pictures1)?;
    print_plane(rt, &picture.y)?;
    print_plane(rt, &picture.cb)?;
    print_plane(rt, &picture.cr)
}
