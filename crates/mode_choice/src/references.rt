// The references that entries of lists name.
ghost use Rattle.std.specs.Prelude.{◌≡◌, ◌≤◌, ◌<◌, ℕ, length, get_or};
ghost use Rattle.picture_planes.specs.Pictures.{planes_of};
ghost use Rattle.ref_lists.specs.Entries.{ArePlaces};
ghost use Rattle.ref_lists.specs.Held.{AreHeld, IsMade, IsReady};
ghost use Rattle.spec_inter_plans.specs.InterPlans.{no_planes};
ghost use Rattle.mode_choice.specs.Given.{pictures_at};

use ref_lists::{Lists, Reference};

/// The reference of an entry of the list whose entries are at these places among the held references.
#[inline(always)]
pub fn reference_at<'a>(held: &'a [Reference], places: &[u8], number: usize) -> &'a Reference
    requires inside { ArePlaces (length held.now) places.now }
    requires number { number < length places.now }
    ensures planes { get_or (pictures_at held.now places.now) number no_planes ≡ planes_of result.now.picture }
    ensures made { (width height : ℕ) → AreHeld width height held.now → IsMade width height result.now }
    ensures ready { (width height : ℕ) → AreHeld width height held.now → IsReady result.now }
{
    let place = places[number] as usize;
    &held[place]
}

// Lists have at most four entries.
pub fn lemma_lists_are_short(lists: &Lists<'_>)
    ensures { (length lists.now.list0.items ≤ 4) × (length lists.now.list1.items ≤ 4) }
{
    let _first = lists.list0.as_slice();
    let _second = lists.list1.as_slice();
}
