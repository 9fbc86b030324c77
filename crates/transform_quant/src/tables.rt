// Reading the tables.
ghost use Rattle.std.specs.Prelude.{◌≡◌, ◌≤◌, ◌<◌, ◌+◌, ◌*◌, ◌/◌, ◌%◌, slice_index};
ghost use Rattle.enc_tables.specs.declared.transform.TheConstants.{CLASS4, CLASS8, MULTIPLIER4, MULTIPLIER8, SCALING4, SCALING8, ZIGZAG4, ZIGZAG8};
ghost use Rattle.spec_residual.specs.Blocks.{in_table};

use enc_tables::{CLASS4, CLASS8, MULTIPLIER4, MULTIPLIER8, SCALING4, SCALING8, ZIGZAG4, ZIGZAG8};

#[inline(always)]
pub fn class4(place: u8) -> usize
    requires { place < 16 }
    ensures value { result ≡ slice_index CLASS4 place }
    ensures small { result < 3 }
{
    CLASS4[place as usize] as usize
}

#[inline(always)]
pub fn class8(place: u8) -> usize
    requires { place < 64 }
    ensures value { result ≡ slice_index CLASS8 place }
    ensures small { result < 6 }
{
    CLASS8[place as usize] as usize
}

#[inline(always)]
pub fn multiplier4(qp: u8, class: usize) -> u32
    requires { class < 3 }
    ensures { result ≡ in_table MULTIPLIER4 (qp % 6) class }
{
    MULTIPLIER4[(qp % 6) as usize][class] as u32
}

#[inline(always)]
pub fn multiplier8(qp: u8, class: usize) -> u32
    requires { class < 6 }
    ensures { result ≡ in_table MULTIPLIER8 (qp % 6) class }
{
    MULTIPLIER8[(qp % 6) as usize][class] as u32
}

#[inline(always)]
pub fn scaling4(qp: u8, class: usize) -> u32
    requires { class < 3 }
    ensures { result ≡ in_table SCALING4 (qp % 6) class }
{
    SCALING4[(qp % 6) as usize][class] as u32
}

#[inline(always)]
pub fn scaling8(qp: u8, class: usize) -> u32
    requires { class < 6 }
    ensures { result ≡ in_table SCALING8 (qp % 6) class }
{
    SCALING8[(qp % 6) as usize][class] as u32
}

#[inline(always)]
pub fn zigzag4(scan: usize) -> u8
    requires { scan < 16 }
    ensures value { result ≡ slice_index ZIGZAG4 scan }
    ensures inside { result < 16 }
{
    ZIGZAG4[scan]
}

#[inline(always)]
pub fn zigzag8(scan: usize) -> u8
    requires { scan < 64 }
    ensures value { result ≡ slice_index ZIGZAG8 scan }
    ensures inside { result < 64 }
{
    ZIGZAG8[scan]
}
