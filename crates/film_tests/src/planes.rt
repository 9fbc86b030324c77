// Samples of planes and of pictures.
use picture_planes::{Picture, Plane};
use std::test::Fail;

#[test]
fn samples_are_written_and_read(rt: HostRuntime) -> Result<(), Fail> {
    let alloc = rt.alloc();
    let mut picture = Picture::new(alloc, 17, 1)?;
    assert_eq!(rt;
        (picture.y.width, picture.y.height, picture.y.pad),
        (32, 16, 40)
    );
    assert_eq!(rt;
        (picture.cr.width, picture.cr.height, picture.cr.pad),
        (16, 8, 20)
    );
    picture.row_mut(1, 7).copy_from_slice(&[9; 16]);
    assert_eq!(rt; picture.plane(1).get(100, 100), 9);
    assert_eq!(rt; picture.plane(1).get(-5, 6), 0);
    let mut plane = Plane::new(alloc, 2, 3, 1)?;
    plane.set_rows(1, 2, &[1, 2, 3, 4]);
    assert_eq!(rt;
        (
            plane.get(1, 0),
            plane.get(-1, 1),
            plane.get(1, 1),
            plane.get(0, 9),
            plane.get(9, 9)
        ),
        (0, 1, 2, 3, 4)
    );
    Ok(())
}

#[test]
fn margins_hold_the_nearest_samples(rt: HostRuntime) -> Result<(), Fail> {
    let mut plane = Plane::new(rt.alloc(), 2, 2, 1)?;
    plane.set_rows(0, 2, &[1, 2, 3, 4]);
    plane.pad_edges();
    assert_eq!(rt; (plane.get(-5, -5), plane.get(5, 2)), (1, 4));
    assert_eq!(rt; plane.padded_row(-1), [1, 1, 2, 2].as_slice());
    assert_eq!(rt; plane.padded_row(1), [3, 3, 4, 4].as_slice());
    assert_eq!(rt; plane.padded_row(2), [3, 3, 4, 4].as_slice());
    assert_eq!(rt; plane.window(1, 0, 2), [1, 2].as_slice());
    Ok(())
}

#[test]
fn parts_are_placed(rt: HostRuntime) -> Result<(), Fail> {
    let mut picture = Picture::new(rt.alloc(), 16, 32)?;
    let mut part = Picture::new(rt.alloc(), 16, 16)?;
    let mut stripe = part.stripe_at(1);
    stripe.row(1, 9).copy_from_slice(&[7; 8]);
    assert_eq!(rt; stripe.get(1, 3, 9), 7);
    picture.place(1, &part);
    assert_eq!(rt; (picture.cb.get(0, 8), picture.cb.get(0, 9)), (0, 7));
    let mut other = Picture::new(rt.alloc(), 16, 32)?;
    other.copy_from(&picture);
    assert_eq!(rt; other.stripe().get(1, 0, 9), 7);
    Ok(())
}
