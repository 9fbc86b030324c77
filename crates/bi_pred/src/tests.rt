// Means that were worked out by hand.
use crate::average;
use std::test::Fail;

#[test]
fn means_are_rounded_up(rt: HostRuntime) -> Result<(), Fail> {
    let mut out = [9; 5];
    average(&[1, 0, 255, 255, 7], &[2, 0, 255, 254, 8], &mut out);
    assert_eq!(rt; out, [2, 0, 255, 255, 8]);
    Ok(())
}
