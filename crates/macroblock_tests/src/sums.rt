// Sums of rows and of blocks.
ghost use Rattle.std.specs.Prelude.{◌<◌, ◌≤◌};

use block_sums::SumTable;
use lane_kernels::{sad_block8, sad_block16, sad_rows, six_tap, sum_rows};
use picture_planes::Plane;
use std::process::Abort;
use std::test::Fail;

// Samples that follow no simple order.
fn samples(factor: usize, from: usize, modulus: usize) -> [u8; 261]
    requires { (factor < 256) × (from < 256) × (0 < modulus) × (modulus ≤ 256) }
{
    let mut out = [0; 261];
    for (place, sample) in out.iter_mut().enumerate() {
        *sample = ((place * factor + from) % modulus) as u8;
    }
    out
}

fn agree_at(rt: &impl Abort, count: usize, sad: u32, sum: u32, taps: i32)
    requires { count ≤ 256 }
{
    let a = samples(37, 11, 256);
    let b = samples(91, 5, 253);
    let mut out = [0i16; 256];
    six_tap(&a[..count + 5], &mut out[..count]);
    let mut mixed = 0i32;
    for k in 0..count {
        mixed = mixed.wrapping_mul(31).wrapping_add(out[k] as i32);
    }
    assert_eq!(rt; sad_rows(&a[..count], &b[..count]), sad);
    assert_eq!(rt; sum_rows(&a[..count]), sum);
    assert_eq!(rt; mixed, taps);
}

// The expected values come from a plain program in Python.
#[test]
fn rows_of_every_kind_of_length(rt: HostRuntime) {
    agree_at(&rt, 0, 0, 0, 0);
    agree_at(&rt, 1, 6, 11, 3312);
    agree_at(&rt, 31, 2451, 3722, 278510416);
    agree_at(&rt, 32, 2542, 3856, 43896576);
    agree_at(&rt, 33, 2579, 4027, 1360798192);
    agree_at(&rt, 256, 21438, 32640, 1151303680);
}

#[test]
fn blocks_with_strides(rt: HostRuntime) {
    let a = samples(37, 11, 256);
    let b = samples(91, 5, 253);
    assert_eq!(rt; sad_block16(&a, 16, &b, 15, 16), 21598);
    assert_eq!(rt; sad_block16(&a, 20, &b, 16, 8), 10132);
    assert_eq!(rt; sad_block8(&a, 16, &b, 9, 8), 5018);
    assert_eq!(rt; sad_block8(&a, 8, &b, 16, 16), 10682);
    assert_eq!(rt; sad_block16(&a, 0, &b, 0, 1), 1160);
}

// Column x of row y has 7x + 13y + 3, modulo 256.
fn slanted() -> [u8; 256] {
    let mut out = [0; 256];
    for (place, sample) in out.iter_mut().enumerate() {
        *sample = ((place % 16 * 7 + place / 16 * 13 + 3) % 256) as u8;
    }
    out
}

// The expected values come from a plain program in Python, with clamped coordinates.
#[test]
fn sums_within_the_margin(rt: HostRuntime) -> Result<(), Fail> {
    let alloc = rt.alloc();
    let mut plane = Plane::new(alloc, 16, 16, 40)?;
    plane.set_rows(0, 16, &slanted());
    plane.pad_edges();
    let mut table = SumTable::new(alloc, 16, 16, 40)?;
    table.fill(&plane);
    assert_eq!(rt; table.sum8(0, 0), 4672);
    assert_eq!(rt; table.sum8(8, 8), 10304);
    assert_eq!(rt; table.sum8(-40, -40), 192);
    assert_eq!(rt; table.sum8(48, 48), 3008);
    assert_eq!(rt; table.sum8(-3, 5), 7824);
    assert_eq!(rt; table.sum8(12, -20), 6576);
    assert_eq!(rt; table.sum8(3, -40), 3104);
    assert_eq!(rt; table.sum8(48, 7), 9504);
    Ok(())
}
