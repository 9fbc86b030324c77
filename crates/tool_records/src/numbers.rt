// Macroblocks as lines of numbers.
ghost use Rattle.std.specs.Prelude.{◌≡◌, ◌<◌, ◌≤ℤ◌, Bool, pos, negsuc, length, IfSome, IsNone};
ghost use Rattle.enc_tables.specs.declared.records.SliceKind.{SliceKind as AnySlice};
ghost use Rattle.enc_tables.specs.declared.records.MbKind.{MbKind as AnyKind};
ghost use Rattle.tool_records.specs.Numbers.{flag_number, motion_in};
ghost use Rattle.tool_records.specs.Places.{kind_place, slice_place};

use enc_tables::{MbKind, MbRecord, Motion, SliceKind, Vector};
use tool_input::{as_byte, as_short};

/// The slice type with this number: 0 for I, 1 for P and 2 for B.
pub fn slice_kind_of(number: i64) -> Option<SliceKind>
    ensures read { IfSome result (λ kind. pos (slice_place kind) ≡ number) }
    ensures none { IsNone result → (kind : AnySlice) → pos (slice_place kind) ≡ number → ⊥ }
{
    match number {
        0 => Some(SliceKind::I),
        1 => Some(SliceKind::P),
        2 => Some(SliceKind::B),
        _ => None,
    }
}

/// The macroblock type at this place of `MbKind`, 0 for I_PCM.
pub fn kind_of(number: i32) -> Option<MbKind>
    ensures read { IfSome result (λ kind. pos (kind_place kind) ≡ number) }
    ensures none { IsNone result → (kind : AnyKind) → pos (kind_place kind) ≡ number → ⊥ }
{
    match number {
        0 => Some(MbKind::Pcm),
        1 => Some(MbKind::Intra4),
        2 => Some(MbKind::Intra8),
        3 => Some(MbKind::Intra16),
        4 => Some(MbKind::P16),
        5 => Some(MbKind::P16x8),
        6 => Some(MbKind::P8x16),
        7 => Some(MbKind::P8x8),
        8 => Some(MbKind::PSkip),
        9 => Some(MbKind::B16),
        10 => Some(MbKind::B16x8),
        11 => Some(MbKind::B8x16),
        12 => Some(MbKind::B8x8),
        13 => Some(MbKind::BDirect),
        14 => Some(MbKind::BSkip),
        _ => None,
    }
}

fn flag_of(number: i32) -> Option<bool>
    ensures read { IfSome result (λ flag. pos (flag_number flag) ≡ number) }
    ensures none { IsNone result → (flag : Bool) → pos (flag_number flag) ≡ number → ⊥ }
{
    match number {
        0 => Some(false),
        1 => Some(true),
        _ => None,
    }
}

fn modes_of(numbers: &[i32]) -> Option<[u8; 16]>
    requires { length numbers.now ≡ 16 }
{
    let mut modes = [0; 16];
    for k in 0..16 {
        modes[k] = as_byte(numbers[k])?;
    }
    Some(modes)
}

fn levels_of<const N: usize>(numbers: &[i32]) -> Option<[i16; N]>
    requires { length numbers.now ≡ N }
{
    let mut levels = [0; N];
    for k in 0..N {
        levels[k] = as_short(numbers[k])?;
    }
    Some(levels)
}

/// A reference index, at most 31; -1 for none.
pub fn reference_of(number: i32) -> Option<i8>
    ensures read { IfSome result (λ reference. reference ≡ number) }
    ensures none { IsNone result → (negsuc 0 ≤ℤ number) → (number ≤ℤ pos 31) → ⊥ }
{
    if number < -1 || number > 31 {
        return None;
    }
    Some(number as i8)
}

/// The motion of a block: a reference and a vector of list 0, and those of list 1.
pub fn motion_of(numbers: &[i32]) -> Option<Motion>
    requires { length numbers.now ≡ 6 }
    ensures { IfSome result (λ motion. motion ≡ motion_in numbers.now) }
{
    Some(Motion {
        refs: [reference_of(numbers[0])?, reference_of(numbers[3])?],
        vectors: [
            Vector {
                x: as_short(numbers[1])?,
                y: as_short(numbers[2])?,
            },
            Vector {
                x: as_short(numbers[4])?,
                y: as_short(numbers[5])?,
            },
        ],
    })
}

fn motions_of(numbers: &[i32]) -> Option<[Motion; 4]>
    requires { length numbers.now ≡ 24 }
{
    let mut motion = [Motion::NONE; 4];
    for k in 0..4 {
        motion[k] = motion_of(&numbers[6 * k..6 * k + 6])?;
    }
    Some(motion)
}

fn differences_of(numbers: &[i32]) -> Option<[Vector; 8]>
    requires { length numbers.now ≡ 16 }
{
    let mut differences = [Vector::ZERO; 8];
    for k in 0..8 {
        differences[k] = Vector {
            x: as_short(numbers[2 * k])?,
            y: as_short(numbers[2 * k + 1])?,
        };
    }
    Some(differences)
}

/// The macroblock of 461 numbers: its type, the place in `MbKind`; whether it has 8x8 transforms, 0 or 1; the chroma
/// mode; the luma and chroma patterns; 16 modes; the levels, the motion and the written differences as the fields of
/// `MbRecord` have them.
pub fn record_of(numbers: &[i32], qp: u8) -> Option<MbRecord>
    ensures { IfSome result (λ mb. mb.qp ≡ qp) }
{
    if numbers.len() != 461 {
        return None;
    }
    Some(MbRecord {
        kind: kind_of(numbers[0])?,
        transform8: flag_of(numbers[1])?,
        modes: modes_of(&numbers[5..21])?,
        chroma_mode: as_byte(numbers[2])?,
        motion: motions_of(&numbers[421..445])?,
        mvd: differences_of(&numbers[445..461])?,
        luma_cbp: as_byte(numbers[3])?,
        chroma_cbp: as_byte(numbers[4])?,
        qp,
        luma_dc: levels_of::<16>(&numbers[21..37])?,
        luma: levels_of::<256>(&numbers[37..293])?,
        chroma_dc: levels_of::<8>(&numbers[293..301])?,
        chroma_ac: levels_of::<120>(&numbers[301..421])?,
    })
}
