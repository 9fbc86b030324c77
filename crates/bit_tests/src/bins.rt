// Contexts, and strings that were written down from the standard's tables.
use cabac_contexts::Contexts;
use enc_tables::SliceKind;
use mb_binarise::{Bin, bins_level, bins_qp_delta};

fn at(ctx: u16, bit: bool) -> Bin {
    Bin { ctx, bit }
}

// The pair 20, -15 at 24: (480 >> 4) - 15 is 15, so the state is 48 of 0.
#[test]
fn first_context(rt: HostRuntime) {
    let contexts = Contexts::init(SliceKind::I, 24);
    assert_eq!(rt; contexts.states[0].state, 48);
    assert_eq!(rt; contexts.states[0].mps, false);
}

// A level of 1632 as the first of a luma block: 14 ones, then by bypass ten ones, a zero and 1001010010. A difference
// of −1 is mapped to 2, and 2 is written as 110.
#[test]
fn strings(rt: HostRuntime) {
    let level = bins_level(2, 0, 0, 1631);
    let wanted = [
        (248, true),
        (252, true),
        (252, true),
        (252, true),
        (252, true),
        (252, true),
        (252, true),
        (252, true),
        (252, true),
        (252, true),
        (252, true),
        (252, true),
        (252, true),
        (252, true),
        (1000, true),
        (1000, true),
        (1000, true),
        (1000, true),
        (1000, true),
        (1000, true),
        (1000, true),
        (1000, true),
        (1000, true),
        (1000, true),
        (1000, false),
        (1000, true),
        (1000, false),
        (1000, false),
        (1000, true),
        (1000, false),
        (1000, true),
        (1000, false),
        (1000, false),
        (1000, true),
        (1000, false),
    ];
    assert_eq!(rt; level.len(), wanted.len());
    for (bin, (ctx, bit)) in level.as_slice().iter().zip(wanted) {
        assert_eq!(rt; *bin, at(ctx, bit));
    }
    let delta = bins_qp_delta(1, -1);
    assert_eq!(rt;
        delta.as_slice(),
        &[at(61, true), at(62, true), at(63, false)][..]
    );
}
