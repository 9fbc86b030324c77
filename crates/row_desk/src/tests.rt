// Two seats of one desk.
use crate::{Closed, Desk};
use std::test::Fail;

#[test]
fn two_seats_share_three_rows(rt: HostRuntime) -> Result<(), Fail> {
    let (desk, first) = Desk::open(rt.alloc(), 3)?;
    let (one, two) = desk.split(first);
    let (Some(zero), one) = desk.draw(one) else {
        return Ok(assert!(rt; false, "a row"))
    };
    let (Some(next), two) = desk.draw(two) else {
        return Ok(assert!(rt; false, "a row"))
    };
    let (Some(last), one) = desk.draw(one) else {
        return Ok(assert!(rt; false, "a row"))
    };
    assert_eq!(rt; (zero, next, last), (0, 1, 2));
    let (none, one) = desk.draw(one);
    let (also_none, two) = desk.draw(two);
    assert_eq!(rt; (none, also_none), (None, None));
    let one = desk.tally(one, 5);
    let two = desk.tally(two, 7);
    let whole = desk.merge(one, two);
    assert_eq!(rt;
        desk.close(whole),
        Closed {
            drawn: 3,
            total: 12
        }
    );
    Ok(())
}
