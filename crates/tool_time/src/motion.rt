// `motion`: predicts blocks of 16x16 luma samples at a position: `copy`, or `b`, `h` or `j` as the standard names half
// samples (ITU-T H.264, clause 8.4.2.2.1). What is printed is a sum of some of the samples.
ghost use Rattle.std.specs.Prelude.{◌≡◌, IfOk};
ghost use Rattle.picture_planes.specs.Margins.{IsFilled};
ghost use Rattle.subpel_filter.specs.Predicted.{IsShort};

use crate::random::Random;
use enc_tables::Vector;
use picture_planes::Plane;
use std::alloc::{AllocError, Global};
use subpel_filter::luma_block;
use tool_input::Fault;

fn row(random: &mut Random) -> [u8; 512] {
    let mut row = [0u8; 512];
    for x in 0..512 {
        row[x] = random.sample();
    }
    row
}

// A plane of random samples, whose margin is filled.
fn plane(alloc: Global) -> Result<Plane, AllocError>
    ensures { IfOk result (λ p. (p.width ≡ 512) × (p.height ≡ 272) × (p.pad ≡ 40) × IsFilled p) }
{
    let mut random = Random::first();
    let mut plane = Plane::new(alloc, 512, 272, 40)?;
    for y in 0..272 {
        plane.set_rows(y, 1, &row(&mut random));
    }
    plane.pad_edges();
    Ok(plane)
}

// One sample of a block.
fn picked(block: &[u8; 256], k: u32) -> u32 {
    block[(k % 256) as usize] as u32
}

// Predicts 1024 blocks, and adds a sample of each to the sum.
fn predict_all(plane: &Plane, v: Vector, sum: u32) -> u32
    requires plane { (plane.now.width ≡ 512) × (plane.now.height ≡ 272) × (plane.now.pad ≡ 40) × IsFilled plane.now }
    requires short { IsShort v }
{
    let mut sum = sum;
    let mut out = [0u8; 256];
    for k in 0..1024u32 {
        luma_block(plane, k % 32 * 16, k / 32 * 8, v, 16, 16, &mut out);
        sum = sum.wrapping_mul(31).wrapping_add(picked(&out, k));
    }
    sum
}

fn sum_of(alloc: Global, v: Vector, times: u32) -> Result<u32, AllocError>
    requires { IsShort v }
{
    let plane = plane(alloc)?;
    let mut sum = 0;
    for _ in 0..times {
        sum = predict_all(&plane, v, sum);
    }
    Ok(sum)
}

/// Predicts blocks at a position this often.
pub fn predict(rt: &HostRuntime, position: &str, times: u32) -> Result<(), Fault> {
    let sum = match position {
        "copy" => sum_of(rt.alloc(), Vector { x: 4, y: -8 }, times)?,
        "b" => sum_of(rt.alloc(), Vector { x: 6, y: -8 }, times)?,
        "h" => sum_of(rt.alloc(), Vector { x: 4, y: -6 }, times)?,
        "j" => sum_of(rt.alloc(), Vector { x: 6, y: -6 }, times)?,
        _ => return Err(Fault::Words("motion copy|b|h|j TIMES")),
    };
    println!(rt; "sum {sum}")?;
    Ok(())
}
