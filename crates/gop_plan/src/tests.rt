// Groups, their steps and delays, worked out by hand.
use super::{group, wanted};
use enc_tables::{PlanStep, SliceKind};
use std::test::Fail;

fn step(display: u32, kind: SliceKind, frame_num: u16, poc: u16) -> PlanStep {
    PlanStep {
        display,
        kind,
        idr: kind == SliceKind::I,
        frame_num,
        poc,
    }
}

// Seven pictures with two B pictures before each P picture and an IDR picture at every fourth place.
#[test]
fn seven_pictures(rt: HostRuntime) -> Result<(), Fail> {
    let (i, p, b) = (SliceKind::I, SliceKind::P, SliceKind::B);
    for (display, size) in [(0, 1), (1, 3), (2, 2), (3, 1), (4, 1), (5, 3)] {
        assert_eq!(rt; wanted(display, 4, 2), size);
    }
    let first = group(0, 1, 4, 0);
    assert_eq!(rt; first.as_slice(), [step(0, i, 0, 0)].as_slice());
    let second = group(1, 3, 4, 1);
    let steps = [step(3, p, 1, 6), step(1, b, 2, 2), step(2, b, 2, 4)];
    assert_eq!(rt; second.as_slice(), steps.as_slice());
    let third = group(4, 1, 4, 2);
    assert_eq!(rt; third.as_slice(), [step(4, i, 0, 0)].as_slice());
    let last = group(5, 2, 4, 1);
    let steps = [step(6, p, 1, 4), step(5, b, 2, 2)];
    assert_eq!(rt; last.as_slice(), steps.as_slice());
    Ok(())
}
