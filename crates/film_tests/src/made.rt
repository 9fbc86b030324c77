// Films that are made from numbers.
use film_maker::make;
use std::test::Fail;

// Head, picture's line and samples: 4:2:0, half of an odd size is rounded down.
#[test]
fn films_have_their_sizes(rt: HostRuntime) -> Result<(), Fail> {
    let sizes: [(u32, u32, u32, usize); 4] = [
        (16, 16, 1, 32 + 6 + 384),
        (17, 16, 1, 32 + 6 + 272 + 128),
        (18, 18, 3, 32 + 3 * (6 + 324 + 162)),
        (1920, 1088, 0, 36),
    ];
    for (width, height, count, bytes) in sizes {
        let film = make(
            rt.alloc(),
            1,
            width.min(1920),
            height.min(1088),
            count.min(300),
        )?;
        assert_eq!(rt; film.len(), bytes);
    }
    Ok(())
}

#[test]
fn a_film_has_its_samples(rt: HostRuntime) -> Result<(), Fail> {
    let film = make(rt.alloc(), 1, 16, 16, 1)?;
    assert!(rt; film.starts_with(b"YUV4MPEG2 W16 H16 F25:1 Ip C420\nFRAME\n"));
    assert_eq!(rt; film.get(38).copied(), Some(108));
    Ok(())
}
