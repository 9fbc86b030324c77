// Needs and the levels that hold them.
use super::{Need, fits, least};
use std::test::Fail;

// Of each level its number, the largest picture in macroblocks that is tried, the longest side, and MaxMBPS, MaxDpbMbs,
// MaxBR, MaxCPB.
const ROWS: [(u8, [u32; 2], u32, [u32; 4]); 15] = [
    (10, [11, 9], 28, [1485, 396, 64, 175]),
    (11, [22, 18], 56, [3000, 900, 192, 500]),
    (12, [22, 18], 56, [6000, 2376, 384, 1000]),
    (13, [22, 18], 56, [11880, 2376, 768, 2000]),
    (20, [22, 18], 56, [11880, 2376, 2000, 2000]),
    (21, [22, 36], 79, [19800, 4752, 4000, 4000]),
    (22, [45, 36], 113, [20250, 8100, 4000, 4000]),
    (30, [45, 36], 113, [40500, 8100, 10000, 10000]),
    (31, [80, 45], 169, [108000, 18000, 14000, 14000]),
    (32, [80, 64], 202, [216000, 20480, 20000, 20000]),
    (40, [128, 64], 256, [245760, 32768, 20000, 25000]),
    (41, [128, 64], 256, [245760, 32768, 50000, 62500]),
    (42, [136, 64], 263, [522240, 34816, 50000, 62500]),
    (50, [184, 120], 420, [589824, 110400, 135000, 135000]),
    (51, [256, 144], 543, [983040, 184320, 240000, 240000]),
];

// One picture a second, without bits.
fn pictures(width_mbs: u32, height_mbs: u32) -> Need {
    Need {
        width_mbs,
        height_mbs,
        num: 1,
        den: 1,
        rate: 0,
        cpb: 0,
        refs: 1,
    }
}

#[test]
fn each_limit_of_each_level(rt: HostRuntime) -> Result<(), Fail> {
    let small = pictures(1, 1);
    for (level, [wide, high], side, [speed, held, rate, cpb]) in ROWS {
        assert!(rt; fits(level, &pictures(wide, high)));
        assert!(rt; !fits(level, &pictures(wide, high.saturating_add(1))));
        assert!(rt; fits(level, &pictures(side, 1)));
        assert!(rt; !fits(level, &pictures(side.saturating_add(1), 1)));
        assert!(rt; fits(level, &pictures(1, side)));
        assert!(rt; !fits(level, &pictures(1, side.saturating_add(1))));
        for more in 0..2u32 {
            let within = more == 0;
            let num = speed.saturating_add(more);
            assert_eq!(rt; fits(level, &Need { num, ..small }), within);
            let refs = held.saturating_add(more);
            assert_eq!(rt; fits(level, &Need { refs, ..small }), within);
            let bits = 1500 * rate as u64 + more as u64;
            assert_eq!(rt;
                fits(
                    level,
                    &Need {
                        rate: bits,
                        ..small
                    }
                ),
                within
            );
            let bits = 1500 * cpb as u64 + more as u64;
            assert_eq!(rt; fits(level, &Need { cpb: bits, ..small }), within);
        }
    }
    Ok(())
}

#[test]
fn the_least_level(rt: HostRuntime) -> Result<(), Fail> {
    let tiny = Need {
        num: 25,
        rate: 64,
        cpb: 64,
        refs: 2,
        ..pictures(1, 1)
    };
    assert_eq!(rt; least(&tiny), Some(10));
    let rate = 1_000_000;
    let cpb = 1_000_000;
    assert_eq!(rt; least(&Need { rate, cpb, ..tiny }), Some(13));
    let wide = Need {
        num: 30_000,
        den: 1001,
        rate,
        cpb,
        refs: 2,
        ..pictures(22, 18)
    };
    assert_eq!(rt; least(&wide), Some(13));
    assert_eq!(rt; least(&pictures(256, 145)), None);
    assert!(rt; !fits(9, &pictures(1, 1)));
    Ok(())
}
