// Pictures that a decoder shows are written to the reconstruction.
ghost use Rattle.std.specs.Prelude.{◌≡◌, ◌≤◌, ◌-◌, ◌++◌, length, take, map};
ghost use Rattle.std.specs.List.{AllByRecursion};
ghost use Rattle.picture_coder.specs.Sizes.{HasSizes};
ghost use Rattle.picture_planes.specs.Clamped.{rounded};
ghost use Rattle.picture_planes.specs.Pictures.{planes_of};
ghost use Rattle.ref_lists.specs.Stored.{held_of, width_of, height_of};
ghost use Rattle.spec_film.specs.Films.{AllowedHead};
ghost use Rattle.enc_session.specs.Showing.{ShownLeft, coded_planes, newest_planes, shown_text};

use enc_edge::{Failed, Out, Studio};
use enc_tables::SliceKind;
use picture_planes::Picture;
use ref_lists::RefStore;
use spec_film::FilmHead;
use y4m_film::put_picture;

// Writes the pictures of the first slots, cropped, one after another.
fn show_slots<S: Studio>(
    studio: &mut S,
    head: &FilmHead,
    slots: &[Picture],
    count: usize,
) -> Result<(), Failed>
    requires head { AllowedHead head.now }
    requires count { count ≤ length slots.now }
    requires sizes { AllByRecursion (HasSizes head.now.width head.now.height) slots.now }
    ensures { ShownLeft (shown_text head.now (take count (map planes_of slots.now))) (S.seen studio.old) (S.seen studio.new) result }
{
    for k in 0..count {
        match put_picture(studio, Out::Recon, head, &slots[k]) {
            Ok(()) => {}
            Err(failed) => return Err(failed),
        }
    }
    Ok(())
}

// Writes the newest of the references.
fn show_newest<S: Studio>(studio: &mut S, head: &FilmHead, store: &RefStore) -> Result<(), Failed>
    requires head { AllowedHead head.now }
    requires some { 1 ≤ length (held_of store.now) }
    requires width { width_of store.now ≡ rounded head.now.width }
    requires height { height_of store.now ≡ rounded head.now.height }
    ensures { ShownLeft (shown_text head.now (newest_planes store.now)) (S.seen studio.old) (S.seen studio.new) result }
{
    let lists = store.lists(SliceKind::I, 0);
    put_picture(studio, Out::Recon, head, &lists.held[0].picture)
}

/// Writes the pictures of a group of which so many were coded: the B pictures, which stand in the slots, and then the
/// one that was coded first.
pub(crate) fn show_group<S: Studio>(
    studio: &mut S,
    head: &FilmHead,
    store: &RefStore,
    slots: &[Picture],
    count: usize,
) -> Result<(), Failed>
    requires head { AllowedHead head.now }
    requires count { count ≤ length slots.now }
    requires some { 1 ≤ count → 1 ≤ length (held_of store.now) }
    requires width { width_of store.now ≡ rounded head.now.width }
    requires height { height_of store.now ≡ rounded head.now.height }
    requires sizes { AllByRecursion (HasSizes head.now.width head.now.height) slots.now }
    ensures { ShownLeft (shown_text head.now (coded_planes count (map planes_of slots.now) (newest_planes store.now))) (S.seen studio.old) (S.seen studio.new) result }
{
    if count == 0 {
        return Ok(());
    }
    match show_slots(studio, head, slots, count - 1) {
        Ok(()) => show_newest(studio, head, store),
        Err(failed) => Err(failed),
    }
}
