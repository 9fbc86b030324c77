// Films that are read and written.
ghost use Rattle.std.specs.Prelude.{◌≤◌};

use enc_edge::{MemStudio, Out, Studio};
use picture_planes::Picture;
use std::alloc::{AllocError, Global};
use std::test::Fail;
use y4m_film::{
    FilmHead, FrameFault, HeadFault, MOST_PICTURES, next_picture, put_head, put_picture, read_head,
};

const SMALL: FilmHead = FilmHead {
    width: 16,
    height: 16,
    num: 25,
    den: 1,
};

fn studio_of(
    alloc: Global,
    film: &[u8],
    piece: usize,
    failing: &[u64],
) -> Result<MemStudio, AllocError>
    requires { 1 ≤ piece }
{
    MemStudio::new(alloc, film.to_vec(alloc)?, 0, piece, failing.to_vec(alloc)?)
}

// A film of 16x16 with one picture whose samples are numbered from 0, modulo 251.
fn numbered_film(alloc: Global) -> Result<Vec<u8>, AllocError> {
    let mut film = b"YUV4MPEG2 W16 H16\nFRAME\n".to_vec(alloc)?;
    for i in 0..384u32 {
        film.push((i % 251) as u8)?;
    }
    Ok(film)
}

// These bytes, so many letters and these bytes.
fn joined(alloc: Global, front: &[u8], letters: usize, end: &[u8]) -> Result<Vec<u8>, AllocError> {
    let mut bytes = front.to_vec(alloc)?;
    for _ in 0..letters {
        bytes.push(b'a')?;
    }
    bytes.extend_from_slice(end)?;
    Ok(bytes)
}

// How many bytes a read gives at most.
const CUTTINGS: [usize; 3] = [1, 7, 2000];

// A line has at most 1024 bytes; `YUV4MPEG2 W16 H16 X` is 19 of them.
#[test]
fn heads(rt: HostRuntime) -> Result<(), Fail> {
    let alloc = rt.alloc();
    let usual = Ok(SMALL);
    let rows: [(&[u8], Result<FilmHead, HeadFault>); 43] = [
        (
            b"YUV4MPEG2 W352 H288 F30000:1001 Ip A128:117 C420mpeg2 XYSCSS=420MPEG2\n",
            Ok(FilmHead {
                width: 352,
                height: 288,
                num: 30_000,
                den: 1_001,
            }),
        ),
        (b"YUV4MPEG2 W16 H16\nFRAME\n", usual),
        (
            b"YUV4MPEG2  H2304   W4096 \n",
            Ok(FilmHead {
                width: 4096,
                height: 2304,
                num: 25,
                den: 1,
            }),
        ),
        (
            b"YUV4MPEG2 W18 H22 C420jpeg I? F0:0\n",
            Ok(FilmHead {
                width: 18,
                height: 22,
                num: 25,
                den: 1,
            }),
        ),
        (b"YUV4MPEG2 W8 H16 W16\n", usual),
        (
            b"YUV4MPEG2 W16 H16 F50:2 C420paldv\n",
            Ok(FilmHead {
                width: 16,
                height: 16,
                num: 50,
                den: 2,
            }),
        ),
        (
            b"YUV4MPEG2 W16 H16 F10000000:58140\n",
            Ok(FilmHead {
                width: 16,
                height: 16,
                num: 10_000_000,
                den: 58_140,
            }),
        ),
        (b"YUV4MPEG2 W0016 H000000016 F000000025:000000001\n", usual),
        (b"YUV4MPEG2 W16 H16 F30:1 F0:0 C420 Ip\n", usual),
        (b"YUV4MPEG2 w17 h17 W16 H16 A X 1\n", usual),
        (b"", Err(HeadFault::NotY4m)),
        (b"YUV4MPEG1 W16 H16\n", Err(HeadFault::NotY4m)),
        (b"YUV4MPEG2 W16 H16", Err(HeadFault::NotY4m)),
        (b"YUV4MPEG2W16 H16\n", Err(HeadFault::NotY4m)),
        (b"YUV4MPEG2", Err(HeadFault::NotY4m)),
        (b"YUV4MPEG\n", Err(HeadFault::NotY4m)),
        (b"YUV4MPEG2 W1x H16\n", Err(HeadFault::BadNumber)),
        (b"YUV4MPEG2 W16 H16 F25\n", Err(HeadFault::BadNumber)),
        (b"YUV4MPEG2 W16 H16 F173:1\n", Err(HeadFault::BadNumber)),
        (b"YUV4MPEG2 W1x H16 W32\n", Err(HeadFault::BadNumber)),
        (b"YUV4MPEG2 W H16\n", Err(HeadFault::BadNumber)),
        (b"YUV4MPEG2 W16 H0000000016\n", Err(HeadFault::BadNumber)),
        (b"YUV4MPEG2 W+16 H16\n", Err(HeadFault::BadNumber)),
        (b"YUV4MPEG2 W16 H16 F00:0\n", Err(HeadFault::BadNumber)),
        (b"YUV4MPEG2 W16 H16 F0:1\n", Err(HeadFault::BadNumber)),
        (b"YUV4MPEG2 W16 H16 F1:0\n", Err(HeadFault::BadNumber)),
        (b"YUV4MPEG2 W16 H16 F25:1:1\n", Err(HeadFault::BadNumber)),
        (
            b"YUV4MPEG2 W16 H16 F10000000:58139\n",
            Err(HeadFault::BadNumber),
        ),
        (
            b"YUV4MPEG2 W16 H16 F10000001:10000000\n",
            Err(HeadFault::BadNumber),
        ),
        (b"YUV4MPEG2 W16 H16\r\n", Err(HeadFault::BadNumber)),
        (b"YUV4MPEG2 C422 W1x\n", Err(HeadFault::Chroma)),
        (b"YUV4MPEG2 C422 C420 W16 H16\n", Err(HeadFault::Chroma)),
        (b"YUV4MPEG2 W16 H16 C420p10\n", Err(HeadFault::Chroma)),
        (b"YUV4MPEG2 W16 H16 It\n", Err(HeadFault::Interlace)),
        (b"YUV4MPEG2 W16 H16 I\n", Err(HeadFault::Interlace)),
        (b"YUV4MPEG2 W16 F25:1\n", Err(HeadFault::Missing)),
        (b"YUV4MPEG2\n", Err(HeadFault::Missing)),
        (b"YUV4MPEG2 W17 H8\n", Err(HeadFault::Size)),
        (b"YUV4MPEG2 W4098 H16\n", Err(HeadFault::Size)),
        (b"YUV4MPEG2 W16 H2306\n", Err(HeadFault::Size)),
        (b"YUV4MPEG2 W16 H14\n", Err(HeadFault::Size)),
        (b"YUV4MPEG2 W16 H17\n", Err(HeadFault::OddSize)),
        (b"YUV4MPEG2 W17 H16\n", Err(HeadFault::OddSize)),
    ];
    for (bytes, want) in rows {
        for piece in CUTTINGS {
            let mut studio = studio_of(alloc, bytes, piece, &[])?;
            assert_eq!(rt; read_head(&mut studio), want);
        }
    }
    let long: [(&[u8], usize, &[u8], Result<FilmHead, HeadFault>); 5] = [
        (b"YUV4MPEG2 W16 H16 X", 1004, b"\n", usual),
        (
            b"YUV4MPEG2 W16 H16 X",
            1005,
            b"\n",
            Err(HeadFault::LongLine),
        ),
        (b"YUV4MPEG2 W16 H16 X", 1004, b"", Err(HeadFault::NotY4m)),
        (b"YUV4MPEG2 W16 H16 X", 1005, b"", Err(HeadFault::LongLine)),
        (b"YUV4MPEG1 ", 1100, b"\n", Err(HeadFault::NotY4m)),
    ];
    for (front, letters, end, want) in long {
        let bytes = joined(alloc, front, letters, end)?;
        for piece in CUTTINGS {
            let mut studio = studio_of(alloc, &bytes, piece, &[])?;
            assert_eq!(rt; read_head(&mut studio), want);
        }
    }
    let mut spaces = b"YUV4MPEG2".to_vec(alloc)?;
    for _ in 0..1100 {
        spaces.push(b' ')?;
    }
    let mut studio = studio_of(alloc, &spaces, 7, &[])?;
    assert_eq!(rt; read_head(&mut studio), Err(HeadFault::LongLine));
    Ok(())
}

#[test]
fn a_picture_is_read_in_pieces(rt: HostRuntime) -> Result<(), Fail> {
    let alloc = rt.alloc();
    let film = numbered_film(alloc)?;
    for piece in [1, 7, 1000] {
        let mut studio = studio_of(alloc, &film, piece, &[])?;
        assert_eq!(rt; read_head(&mut studio), Ok(SMALL));
        let mut picture = Picture::new(alloc, 16, 16)?;
        assert_eq!(rt;
            next_picture(&mut studio, &SMALL, 0, &mut picture),
            Ok(true)
        );
        assert_eq!(rt; picture.y.get(5, 3), 53);
        assert_eq!(rt; picture.y.get(15, 15), 4);
        assert_eq!(rt; picture.cb.get(0, 0), 5);
        assert_eq!(rt; picture.cb.get(1, 2), 22);
        assert_eq!(rt; picture.cr.get(0, 0), 69);
        assert_eq!(rt; picture.cr.get(7, 7), 132);
        assert_eq!(rt;
            next_picture(&mut studio, &SMALL, 1, &mut picture),
            Ok(false)
        );
    }
    Ok(())
}

#[test]
fn a_film_is_written(rt: HostRuntime) -> Result<(), Fail> {
    let alloc = rt.alloc();
    let mut studio = MemStudio::new(alloc, Vec::new(alloc), 1000, 7, Vec::new(alloc))?;
    let mut picture = Picture::new(alloc, 16, 16)?;
    picture.row_mut(2, 7).copy_from_slice(&[9; 8]);
    assert!(rt; studio.open_out(Out::Recon, "film").is_ok());
    assert!(rt; put_head(&mut studio, Out::Recon, &SMALL).is_ok());
    assert!(rt; put_picture(&mut studio, Out::Recon, &SMALL, &picture).is_ok());
    let film = studio.written(Out::Recon);
    assert!(rt; film.starts_with(b"YUV4MPEG2 W16 H16 F25:1 Ip C420\nFRAME\n\0"));
    assert!(rt; film.ends_with(&[0, 9, 9, 9, 9, 9, 9, 9, 9]));
    assert_eq!(rt; film.len(), 422);
    assert!(rt; put_picture(&mut studio, Out::Recon, &SMALL, &picture).is_ok());
    assert!(rt; put_picture(&mut studio, Out::Recon, &SMALL, &picture).is_err());
    assert_eq!(rt; studio.written(Out::Recon).len(), 1000);
    Ok(())
}

// Pieces of whole rows have at least 65,536 bytes: the first one the line and 187 rows of luma, the second one 101 rows of luma, all of
// Cb and 27 rows of Cr, and the last one what is left.
#[test]
fn pictures_are_written_in_pieces(rt: HostRuntime) -> Result<(), Fail> {
    let alloc = rt.alloc();
    let head = FilmHead {
        width: 352,
        height: 288,
        num: 25,
        den: 1,
    };
    let picture = Picture::new(alloc, 352, 288)?;
    let rows = [
        (0, false, 0),
        (1, false, 65_830),
        (2, false, 131_478),
        (3, true, 152_070),
    ];
    for (failing, is_whole, count) in rows {
        let failing = [failing].to_vec(alloc)?;
        let mut studio = MemStudio::new(alloc, Vec::new(alloc), 200_000, 200_000, failing)?;
        let done = put_picture(&mut studio, Out::Stream, &head, &picture);
        assert_eq!(rt; done.is_ok(), is_whole);
        assert_eq!(rt; studio.written(Out::Stream).len(), count);
    }
    Ok(())
}

#[test]
fn odd_crops_are_padded_and_cropped(rt: HostRuntime) -> Result<(), Fail> {
    let alloc = rt.alloc();
    // Luma is 10 * x + y, Cb is x + 10 * y and Cr is 200 less that.
    let mut bytes = Vec::new(alloc);
    for i in 0..324u32 {
        bytes.push((10 * (i % 18) + i / 18) as u8)?;
    }
    for i in 0..81u32 {
        bytes.push((i % 9 + 10 * (i / 9)) as u8)?;
    }
    for i in 0..81u32 {
        bytes.push((200 - i % 9 - 10 * (i / 9)) as u8)?;
    }
    let mut film = b"FRAME Ip\n".to_vec(alloc)?;
    film.extend_from_slice(&bytes)?;
    let head = FilmHead {
        width: 18,
        height: 18,
        num: 25,
        den: 1,
    };
    let mut studio = MemStudio::new(alloc, film, 1000, 11, Vec::new(alloc))?;
    let mut picture = Picture::new(alloc, 18, 18)?;
    assert_eq!(rt; next_picture(&mut studio, &head, 0, &mut picture), Ok(true));
    let samples = [
        (picture.y.get(17, 5), 175),
        (picture.y.get(31, 5), 175),
        (picture.y.get(3, 31), 47),
        (picture.y.get(31, 31), 187),
        (picture.cb.get(15, 2), 28),
        (picture.cb.get(4, 15), 84),
        (picture.cr.get(15, 15), 112),
    ];
    for (got, want) in samples {
        assert_eq!(rt; got, want);
    }
    assert!(rt; put_picture(&mut studio, Out::Recon, &head, &picture).is_ok());
    let written = studio.written(Out::Recon);
    assert!(rt; written.starts_with(b"FRAME\n"));
    assert!(rt; written.ends_with(&bytes));
    assert_eq!(rt; written.len(), 6 + 324 + 81 + 81);
    Ok(())
}

// What is read of these bytes behind so many pictures of 16x16.
fn step_behind(
    alloc: Global,
    number: u32,
    bytes: &[u8],
    piece: usize,
) -> Result<Result<bool, FrameFault>, AllocError>
    requires number { number ≤ 1000000 }
    requires piece { 1 ≤ piece }
{
    let mut picture = Picture::new(alloc, 16, 16)?;
    let mut studio = studio_of(alloc, bytes, piece, &[])?;
    Ok(next_picture(&mut studio, &SMALL, number, &mut picture))
}

fn cut(got: u32) -> Result<bool, FrameFault> {
    Err(FrameFault::CutFrame { picture: 2, got })
}

// What follows two pictures. The line of a picture has at most 1024 bytes, of which `FRAME ` are 6.
#[test]
fn frames(rt: HostRuntime) -> Result<(), Fail> {
    let alloc = rt.alloc();
    let not = Err(FrameFault::NotFrame { picture: 2 });
    let rows: [(&[u8], usize, &[u8], Result<bool, FrameFault>); 20] = [
        (b"", 0, b"", Ok(false)),
        (b"F", 0, b"", cut(1)),
        (b"FRAM", 0, b"", cut(4)),
        (b"FRAME", 0, b"", cut(5)),
        (b"FRAME ", 2, b"", cut(8)),
        (b"FRAME ", 1017, b"", cut(1023)),
        (b"FRAME", 0, b"\n", cut(6)),
        (b"FRAME ", 1017, b"\n", cut(1024)),
        (b"FRAME\n", 383, b"", cut(389)),
        (b"FRAME Ip\n", 383, b"", cut(392)),
        (b"FRAME Ip\n", 384, b"", Ok(true)),
        (b"FRAME\n", 384, b"FRAMX", Ok(true)),
        (b"FRAMX", 0, b"", not),
        (b"FRAMES", 384, b"\n", not),
        (b"FRAME", 1100, b"", not),
        (b"FRAME ", 1100, b"", not),
        (b"FRAME ", 1018, b"\n", not),
        (b"FRAME\r\n", 384, b"", not),
        (b"FRA\n", 384, b"", not),
        (b" FRAME\n", 384, b"", not),
    ];
    for (front, letters, end, want) in rows {
        let bytes = joined(alloc, front, letters, end)?;
        for piece in CUTTINGS {
            assert_eq!(rt; step_behind(alloc, 2, &bytes, piece)?, want);
        }
    }
    let behind = step_behind(alloc, MOST_PICTURES, b"F", 7)?;
    assert_eq!(rt; behind, Err(FrameFault::TooLong));
    assert_eq!(rt; step_behind(alloc, MOST_PICTURES, b"", 7)?, Ok(false));
    Ok(())
}

// A head takes a read for each of its bytes; a picture one for each byte of its line and one for each plane.
#[test]
fn each_read_fails(rt: HostRuntime) -> Result<(), Fail> {
    let alloc = rt.alloc();
    let film = numbered_film(alloc)?;
    for k in 0..18 {
        let mut studio = studio_of(alloc, &film, 1000, &[k])?;
        assert_eq!(rt; read_head(&mut studio), Err(HeadFault::ReadFault));
    }
    for k in 18..27 {
        let mut picture = Picture::new(alloc, 16, 16)?;
        let mut studio = studio_of(alloc, &film, 1000, &[k])?;
        assert_eq!(rt; read_head(&mut studio), Ok(SMALL));
        let failed = next_picture(&mut studio, &SMALL, 0, &mut picture);
        assert_eq!(rt; failed, Err(FrameFault::ReadFault));
    }
    Ok(())
}
