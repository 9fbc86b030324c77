// The lists of a picture, with the command that it has.
ghost use Rattle.std.specs.Prelude.{◌≡◌, ◌<◌};
ghost use Rattle.enc_tables.specs.declared.SliceKind.TheVariants.{P};
ghost use Rattle.picture_planes.specs.Pictures.{planes_of};
ghost use Rattle.ref_lists.specs.Held.{all_seen, AreHeld};
ghost use Rattle.ref_lists.specs.Entries.{next_number};
ghost use Rattle.ref_lists.specs.Named.{AreOfP};
ghost use Rattle.enc_session.specs.Listing.{IsReordered, MovedLeft};

use arrayvec::ArrayVec;
use enc_tables::SliceKind;
use picture_planes::Picture;
use ref_lists::Lists;

// Moves the reference of a P picture that is least different from its source to the front, and answers with the
// command that does so. A P picture has no list 1.
fn move_nearest(lists: &mut Lists<'_>, source: &Picture) -> Option<u16>
    requires lists { AreOfP lists.old }
    requires number { next_number (all_seen lists.old.held.now) < 65536 }
    requires size { AreHeld source.now.y.width source.now.y.height lists.old.held.now }
    ensures { IsReordered (planes_of source.now) lists.old lists.new result }
{
    let Some(command) = lists.moved(source) else {
        return None;
    };
    lists.apply(command);
    lists.list1 = ArrayVec::new();
    Some(command)
}

/// Makes the lists of a picture of this kind those of its slices: of a P picture the reference that is least different
/// from its source comes first. Answers with the command that moves it there.
pub(crate) fn move_in_lists(lists: &mut Lists<'_>, kind: SliceKind, source: &Picture) -> Option<u16>
    requires lists { kind ≡ P → AreOfP lists.old }
    requires number { kind ≡ P → next_number (all_seen lists.old.held.now) < 65536 }
    requires size { AreHeld source.now.y.width source.now.y.height lists.old.held.now }
    ensures { MovedLeft kind (planes_of source.now) lists.old lists.new result }
{
    match kind {
        SliceKind::P => move_nearest(lists, source),
        SliceKind::I | SliceKind::B => None,
    }
}
