// The search for motion, whole samples and quarters.
ghost use Rattle.std.specs.Prelude.{◌<◌, ◌≤◌};
ghost use Rattle.spec_inter_plans.specs.InterPlans.{at};
ghost use Rattle.motion_search.specs.Planes.{IsBlockIn};
ghost use Rattle.spec_search.specs.Scan.{InRange};

use block_sums::SumTable;
use motion_search::{Best, Block, refine, search_alone};
use nine_search::{Nine, search_nine_alone};
use picture_planes::Plane;
use std::test::Fail;

// 64 rows of 64 samples that follow no simple order.
fn samples(right: usize, down: usize) -> [u8; 4096]
    requires { (right < 256) × (down < 256) }
{
    let mut out = [0; 4096];
    for (place, sample) in out.iter_mut().enumerate() {
        let x = place % 64 + right;
        let y = place / 64 + down;
        *sample = ((x * x * 31 + y * y * 17 + x * y * 7 + x * 3 + y * 5) % 251) as u8;
    }
    out
}

fn best_of(
    rt: &HostRuntime,
    source: &[u8; 4096],
    reference: &[u8; 4096],
    block: Block,
    range: u32,
) -> Result<(i16, i16, u32, u32), Fail>
    requires block { IsBlockIn 64 64 block }
    requires range { (1 ≤ range) × (range ≤ 32) }
{
    let alloc = rt.alloc();
    let mut from = Plane::new(alloc, 64, 64, 40)?;
    from.set_rows(0, 64, source);
    from.pad_edges();
    let mut to = Plane::new(alloc, 64, 64, 40)?;
    to.set_rows(0, 64, reference);
    to.pad_edges();
    let mut from_sums = SumTable::new(alloc, 64, 64, 40)?;
    from_sums.fill(&from);
    let mut to_sums = SumTable::new(alloc, 64, 64, 40)?;
    to_sums.fill(&to);
    let best = search_alone(&from, &to, &from_sums, &to_sums, block, range);
    Ok((best.dx, best.dy, best.sad, best.compared))
}

#[test]
fn flat_pictures_need_one_difference(rt: HostRuntime) -> Result<(), Fail> {
    let grey = [128; 4096];
    let best = best_of(
        &rt,
        &grey,
        &grey,
        Block {
            x: 16,
            y: 16,
            w: 16,
            h: 16,
        },
        16,
    )?;
    assert_eq!(rt; best, (0, 0, 0, 1));
    Ok(())
}

// The expected values come from a plain program in Python, which looks at every vector, with clamped coordinates.
#[test]
fn moved_pictures(rt: HostRuntime) -> Result<(), Fail> {
    let source = samples(16, 0);
    let moved = samples(0, 16);
    let best = best_of(
        &rt,
        &source,
        &moved,
        Block {
            x: 24,
            y: 24,
            w: 16,
            h: 16,
        },
        16,
    )?;
    assert_eq!(rt; best, (16, -16, 0, 994));
    let other = samples(14, 3);
    let best = best_of(
        &rt,
        &source,
        &other,
        Block {
            x: 0,
            y: 0,
            w: 8,
            h: 8,
        },
        5,
    )?;
    assert_eq!(rt; best, (2, -3, 2205, 121));
    let best = best_of(
        &rt,
        &source,
        &other,
        Block {
            x: 48,
            y: 48,
            w: 16,
            h: 16,
        },
        4,
    )?;
    assert_eq!(rt; best, (2, -3, 3030, 71));
    let best = best_of(
        &rt,
        &source,
        &other,
        Block {
            x: 8,
            y: 40,
            w: 8,
            h: 16,
        },
        6,
    )?;
    assert_eq!(rt; best, (2, -3, 0, 31));
    let best = best_of(
        &rt,
        &source,
        &other,
        Block {
            x: 40,
            y: 0,
            w: 16,
            h: 8,
        },
        3,
    )?;
    assert_eq!(rt; best, (2, -3, 3464, 49));
    Ok(())
}

// The same where the right and the lower samples come from further on.
fn bent_samples() -> [u8; 4096] {
    let mut out = [0; 4096];
    for (place, sample) in out.iter_mut().enumerate() {
        let x = place % 64 + 16 + (place % 64 / 24).min(1);
        let y = place / 64 + (place / 64 / 24).min(1) * 2;
        *sample = ((x * x * 31 + y * y * 17 + x * y * 7 + x * 3 + y * 5) % 251) as u8;
    }
    out
}

fn nine_of(
    rt: &HostRuntime,
    source: &[u8; 4096],
    reference: &[u8; 4096],
    x: u32,
    y: u32,
    range: u32,
) -> Result<Nine, Fail>
    requires macroblock { IsBlockIn 64 64 (at x y 16 16) }
    requires range { (1 ≤ range) × (range ≤ 32) }
{
    let alloc = rt.alloc();
    let mut from = Plane::new(alloc, 64, 64, 40)?;
    from.set_rows(0, 64, source);
    from.pad_edges();
    let mut to = Plane::new(alloc, 64, 64, 40)?;
    to.set_rows(0, 64, reference);
    to.pad_edges();
    let mut from_sums = SumTable::new(alloc, 64, 64, 40)?;
    from_sums.fill(&from);
    let mut to_sums = SumTable::new(alloc, 64, 64, 40)?;
    to_sums.fill(&to);
    Ok(search_nine_alone(&from, &to, &from_sums, &to_sums, x, y, range))
}

// The expected values come from a plain program in Python, which looks at every vector for each partition by itself.
#[test]
fn nine_partitions(rt: HostRuntime) -> Result<(), Fail> {
    let grey = [128; 4096];
    let found = nine_of(&rt, &grey, &grey, 16, 16, 16)?;
    assert_eq!(rt;
        found,
        Nine {
            dx: [0; 9],
            dy: [0; 9],
            sads: [0; 9],
            compared: 9,
        }
    );
    let bent = bent_samples();
    let found = nine_of(&rt, &bent, &samples(14, 3), 16, 16, 4)?;
    assert_eq!(rt;
        found,
        Nine {
            dx: [3, 2, 3, 2, 3, 2, 3, 2, 3],
            dy: [-1, -3, -1, -1, -1, -3, -3, -1, -1],
            sads: [14335, 4550, 4986, 4710, 4572, 0, 0, 0, 0],
            compared: 520,
        }
    );
    let found = nine_of(&rt, &samples(16, 0), &bent, 16, 16, 3)?;
    assert_eq!(rt;
        found,
        Nine {
            dx: [0, 0, -1, 0, -1, 0, -1, 0, -1],
            dy: [0, 0, -2, 0, 0, 0, 0, -2, -2],
            sads: [14676, 4550, 6266, 4852, 5808, 0, 774, 1395, 1505],
            compared: 389,
        }
    );
    let found = nine_of(&rt, &samples(16, 0), &samples(14, 3), 48, 0, 3)?;
    assert_eq!(rt;
        found,
        Nine {
            dx: [2; 9],
            dy: [-3; 9],
            sads: [6824, 5058, 1766, 2128, 4696, 2128, 2930, 0, 1766],
            compared: 421,
        }
    );
    Ok(())
}

// 64 rows of 64 samples that rise slowly, sampled from a place on that is given in quarter samples.
fn slopes(right: usize, down: usize) -> [u8; 4096]
    requires { (right < 256) × (down < 256) }
{
    let mut out = [0; 4096];
    for (place, sample) in out.iter_mut().enumerate() {
        let x = place % 64 * 4 + right;
        let y = place / 64 * 4 + down;
        *sample = ((x * x / 400 + y * 3 + x * y / 90) % 251) as u8;
    }
    out
}

fn refined_of(
    rt: &HostRuntime,
    source: &[u8; 4096],
    reference: &[u8; 4096],
    block: Block,
    dx: i16,
    dy: i16,
) -> Result<(i16, i16, u32), Fail>
    requires block { IsBlockIn 64 64 block }
    requires best { InRange 32 dx dy }
{
    let mut from = Plane::new(rt.alloc(), 64, 64, 0)?;
    from.set_rows(0, 64, source);
    let mut to = Plane::new(rt.alloc(), 64, 64, 40)?;
    to.set_rows(0, 64, reference);
    to.pad_edges();
    let best = Best {
        dx,
        dy,
        sad: 0,
        compared: 1,
    };
    let (vector, cost) = refine(&from, &to, block, &best);
    Ok((vector.x, vector.y, cost))
}

#[test]
fn flat_pictures_keep_the_vector(rt: HostRuntime) -> Result<(), Fail> {
    let grey = [128; 4096];
    let block = Block {
        x: 16,
        y: 16,
        w: 16,
        h: 16,
    };
    let refined = refined_of(&rt, &grey, &grey, block, -3, 2)?;
    assert_eq!(rt; refined, (-12, 8, 0));
    Ok(())
}

// The expected values come from a plain program in Python with the standard's formulas for single samples.
#[test]
fn moved_slopes(rt: HostRuntime) -> Result<(), Fail> {
    let source = slopes(20, 20);
    let block = Block {
        x: 24,
        y: 24,
        w: 16,
        h: 16,
    };
    let refined = refined_of(&rt, &source, &slopes(22, 23), block, 2, -1)?;
    assert_eq!(rt; refined, (6, -7, 2099));
    let block = Block {
        x: 0,
        y: 0,
        w: 8,
        h: 8,
    };
    let refined = refined_of(&rt, &source, &slopes(25, 13), block, 1, 1)?;
    assert_eq!(rt; refined, (1, 6, 59));
    let block = Block {
        x: 48,
        y: 48,
        w: 16,
        h: 16,
    };
    let refined = refined_of(&rt, &source, &slopes(13, 26), block, 0, -1)?;
    assert_eq!(rt; refined, (2, -3, 3302));
    let block = Block {
        x: 8,
        y: 40,
        w: 8,
        h: 16,
    };
    let refined = refined_of(&rt, &source, &slopes(25, 13), block, -2, 3)?;
    assert_eq!(rt; refined, (-9, 10, 1199));
    let block = Block {
        x: 40,
        y: 0,
        w: 16,
        h: 8,
    };
    let refined = refined_of(&rt, &source, &slopes(17, 15), block, 1, 0)?;
    assert_eq!(rt; refined, (7, 3, 1905));
    Ok(())
}
