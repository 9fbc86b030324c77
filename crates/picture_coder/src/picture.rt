// Whole pictures: blank, coded slice by slice, filtered, and kept.
ghost use Rattle.std.specs.Prelude.{◌≡◌, ◌≤◌, ◌+◌, ◌*◌, ◌%◌, ◌==◌, ℕ, [], length, replicate, OnOk};
ghost use Rattle.picture_planes.specs.Samples.{SameShape, samples_of};
ghost use Rattle.picture_planes.specs.Pictures.{planes_of, SameShapes};
ghost use Rattle.bit_strings.specs.BitText.{Appends};
ghost use Rattle.spec_decoder.specs.Frames.{blank_planes};
ghost use Rattle.ref_lists.specs.Held.{IsMade};
ghost use Rattle.picture_coder.specs.Kept.{IsKept};
ghost use Rattle.picture_coder.specs.Pictures.{IsCoding, HasPlansFor, picture_at, units_to};

use crate::coding::Coding;
use crate::filter::filter;
use crate::job::Job;
use crate::keeping::keep;
use crate::slices::code_slices;
use bit_strings::{BitBuf, Full};
use enc_tables::{MbRecord, RowPlan};
use picture_planes::{Picture, Plane};
use ref_lists::Reference;

// Makes all samples 0, in the margin too.
fn clear_plane(plane: &mut Plane)
    ensures shape { SameShape plane.old plane.new }
    ensures samples { samples_of plane.new ≡ replicate (plane.old.height * plane.old.width) 0 }
{
    plane.buffer_mut().fill(0);
}

/// What a decoder starts from: no sample of an earlier picture is left.
pub fn clear(picture: &mut Picture)
    ensures shapes { SameShapes picture.old picture.new }
    ensures blank { (across down : ℕ) → picture.old.y.width ≡ 16 * across → picture.old.y.height ≡ 16 * down → planes_of picture.new ≡ blank_planes across down }
{
    clear_plane(&mut picture.y);
    clear_plane(&mut picture.cb);
    clear_plane(&mut picture.cr);
}

/// Codes the picture, and appends the units of its slices: the first one has a start code of four bytes where `out`
/// was empty. The reference is then the one that a decoder keeps, filtered across slices.
///
/// `Full` comes exactly where the units don't fit the room of `out`, which is then as before.
pub fn code_picture(
    coding: &Coding,
    job: &Job<'_>,
    plans: &[RowPlan],
    reference: &mut Reference,
    records: &mut [MbRecord],
    payload: BitBuf,
    out: &mut BitBuf,
) -> (Result<(), Full>, BitBuf)
    requires coding { IsCoding coding.now job.now reference.old.picture }
    requires sizes { IsMade (16 * coding.now.across) (16 * coding.now.down) reference.old }
    requires plans { HasPlansFor coding.now job.now plans.now }
    requires plan_count { length plans.now ≡ coding.now.down }
    requires records { length records.old ≡ coding.now.down * coding.now.across }
    requires empty { payload.text ≡ [] }
    requires room { out.old.room ≤ length out.old.text + payload.room }
    requires whole { length out.old.text % 8 ≡ 0 }
    ensures sizes { IsMade (16 * coding.now.across) (16 * coding.now.down) reference.new }
    ensures count { length records.new ≡ length records.old }
    ensures payload { result.1 ≡ payload }
    ensures units { Appends out.old out.new (units_to coding.now job.now (length out.old.text == 0) coding.now.slices) result.0 }
    ensures kept { OnOk result.0 (IsKept reference.new (picture_at coding.now job.now)) }
{
    let start = out.len();
    clear(&mut reference.picture);
    let (done, payload) = code_slices(
        coding,
        job,
        plans,
        &mut reference.picture,
        records,
        payload,
        out,
    );
    if done.is_err() {
        out.cut(start);
        return (Err(Full), payload);
    }
    filter(&mut reference.picture, job.lists, records);
    keep(reference, records, job.step);
    (Ok(()), payload)
}
