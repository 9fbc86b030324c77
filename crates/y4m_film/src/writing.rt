// Films are written: the head, and then picture by picture.
ghost use Rattle.std.specs.Prelude.{◌≡◌, ◌≤◌, ◌<◌, ◌/◌, ◌++◌, IfOk, IfErr};
ghost use Rattle.enc_edge.specs.Calls.{wrote};
ghost use Rattle.enc_edge.specs.declared.studio.Place.{Place};
ghost use Rattle.spec_film.specs.Films.{AllowedHead};
ghost use Rattle.spec_film.specs.Cropping.{cropped_plane, shown};
ghost use Rattle.spec_film.specs.Written.{head_text, picture_text};
ghost use Rattle.picture_planes.specs.Samples.{samples_of};
ghost use Rattle.picture_planes.specs.Pictures.{planes_of};
ghost use Rattle.y4m_film.specs.Sizes.{FitsHead};
ghost use Rattle.y4m_film.specs.Waits.{waits, Gathered};
ghost use Rattle.y4m_film.specs.Writes.{FrontWritten};

use crate::pieces::Waiting;
use arrayvec::ArrayString;
use enc_edge::{Failed, Out, Studio, write_full};
use itoa::Buffer;
use picture_planes::{Picture, Plane};
use spec_film::FilmHead;

// The head line: at most 80 bytes.
#[tactic(auto, unfolding(spec_film::specs::Written::head_text))]
fn head_line(head: &FilmHead) -> ArrayString<80>
    ensures { result.bytes ≡ head_text head.now }
{
    let mut line = ArrayString::new();
    let mut number = Buffer::new();
    line.push_str("YUV4MPEG2 W");
    line.push_str(number.format(head.width));
    line.push_str(" H");
    line.push_str(number.format(head.height));
    line.push_str(" F");
    line.push_str(number.format(head.num));
    line.push_str(":");
    line.push_str(number.format(head.den));
    line.push_str(" Ip C420\n");
    line
}

/// Appends the head of a film to an output: the line `YUV4MPEG2 W<width> H<height> F<num>:<den> Ip C420`. `Failed`: a
/// write failed, so the count of later faults of that output rose, and a front of the line was appended.
pub fn put_head<S: Studio>(studio: &mut S, out: Out, head: &FilmHead) -> Result<(), Failed>
    ensures ok { IfOk result (λ _. S.seen studio.new ≡ wrote (Place.Output out) (head_text head.now) (S.seen studio.old)) }
    ensures err { IfErr result (λ _. FrontWritten out (head_text head.now) (S.seen studio.old) (S.seen studio.new)) }
{
    let line = head_line(head);
    match write_full(studio, out, line.as_bytes()) {
        Ok(()) => Ok(()),
        Err((_, failed)) => Err(failed),
    }
}

// Hands on the first `width` samples of the first `height` rows of a plane.
fn put_plane<S: Studio>(
    studio: &mut S,
    out: Out,
    waiting: &mut Waiting,
    plane: &Plane,
    width: u32,
    height: u32,
) -> Result<(), Failed>
    requires width { width ≤ plane.now.width }
    requires height { height ≤ plane.now.height }
    requires room { waiting.old.count < 65536 }
    ensures ok { IfOk result (λ _. Gathered out (waits waiting.old) (cropped_plane plane.now.width width height (samples_of plane.now)) (waits waiting.new) (S.seen studio.old) (S.seen studio.new)) }
    ensures room { IfOk result (λ _. waiting.new.count < 65536) }
    ensures err { IfErr result (λ _. FrontWritten out (waits waiting.old ++ cropped_plane plane.now.width width height (samples_of plane.now)) (S.seen studio.old) (S.seen studio.new)) }
{
    for y in 0..height {
        waiting.gather(studio, out, &plane.row(y)[..width as usize])?;
    }
    Ok(())
}

// Hands on the samples of a picture's planes.
fn put_planes<S: Studio>(
    studio: &mut S,
    out: Out,
    waiting: &mut Waiting,
    head: &FilmHead,
    picture: &Picture,
) -> Result<(), Failed>
    requires head { AllowedHead head.now }
    requires sizes { FitsHead head.now picture.now }
    requires room { waiting.old.count < 65536 }
    ensures ok { IfOk result (λ _. Gathered out (waits waiting.old) (cropped_plane picture.now.y.width head.now.width head.now.height (samples_of picture.now.y) ++ (cropped_plane picture.now.cb.width (head.now.width / 2) (head.now.height / 2) (samples_of picture.now.cb) ++ cropped_plane picture.now.cr.width (head.now.width / 2) (head.now.height / 2) (samples_of picture.now.cr))) (waits waiting.new) (S.seen studio.old) (S.seen studio.new)) }
    ensures err { IfErr result (λ _. FrontWritten out (waits waiting.old ++ (cropped_plane picture.now.y.width head.now.width head.now.height (samples_of picture.now.y) ++ (cropped_plane picture.now.cb.width (head.now.width / 2) (head.now.height / 2) (samples_of picture.now.cb) ++ cropped_plane picture.now.cr.width (head.now.width / 2) (head.now.height / 2) (samples_of picture.now.cr)))) (S.seen studio.old) (S.seen studio.new)) }
{
    let (wide, high) = (head.width / 2, head.height / 2);
    put_plane(studio, out, waiting, &picture.y, head.width, head.height)?;
    put_plane(studio, out, waiting, &picture.cb, wide, high)?;
    put_plane(studio, out, waiting, &picture.cr, wide, high)
}

/// Appends a picture of a film to an output, cropped to the head's sizes: the line `FRAME` and the samples of the three
/// planes, in pieces of 65,536 bytes or more but for the last one. The picture has the sizes of the head rounded up to
/// 16. It takes no memory. `Failed`: a write failed, so the count of later faults of that output rose, and a front of these
/// bytes was appended.
#[tactic(auto, unfolding(spec_film::specs::Written::picture_text))]
pub fn put_picture<S: Studio>(
    studio: &mut S,
    out: Out,
    head: &FilmHead,
    picture: &Picture,
) -> Result<(), Failed>
    requires head { AllowedHead head.now }
    requires sizes { FitsHead head.now picture.now }
    ensures ok { IfOk result (λ _. S.seen studio.new ≡ wrote (Place.Output out) (picture_text (shown head.now (planes_of picture.now))) (S.seen studio.old)) }
    ensures err { IfErr result (λ _. FrontWritten out (picture_text (shown head.now (planes_of picture.now))) (S.seen studio.old) (S.seen studio.new)) }
{
    let mut waiting = Waiting::new();
    waiting.add(b"FRAME\n");
    put_planes(studio, out, &mut waiting, head, picture)?;
    waiting.put(studio, out)
}
