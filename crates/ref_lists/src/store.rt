// The places in which references are held.
ghost use Rattle.std.specs.Prelude.{◌≡◌, ◌≤◌, ◌+◌, ◌-◌, ◌*◌, ◌/◌, ◌-ℤ◌, ℤ, [], ◌∷◌, length, take, pos, IfOk, get_or};
ghost use Rattle.std.specs.List.{AllByRecursion};
ghost use Rattle.picture_planes.specs.Clamped.{rounded};
ghost use Rattle.enc_tables.specs.declared.SliceKind.TheVariants.{P};
ghost use Rattle.ref_lists.specs.Held.{seen, all_seen_from, natural, IsOrigin, IsMade, IsReady, AreHeld};
ghost use Rattle.ref_lists.specs.Entries.{AreInOrder, AreInOrder-prop, ArePlaces};
ghost use Rattle.std.proofs.Props.{props};

use crate::naming::{all_places, earlier, next_shown, rank_of};
use crate::{Lists, Reference};
use arrayvec::ArrayVec;
use enc_tables::SliceKind;
use std::alloc::{AllocError as OutOfMemory, Global};
use std::mem::swap;

/// Reference pictures since the last IDR picture, as many as there are places for: the sliding window (clause 8.2.5.3).
#[derive(Drop)]
pub struct RefStore {
    // the newest first; behind those that are held stand free ones
    places: Vec<Reference>,
    count: usize,
    // luma samples in a row and rows, multiples of 16
    width: u32,
    height: u32,
    ghost room: { (1 ≤ length places.items) × (length places.items ≤ 4) × (count ≤ length places.items) },
    ghost made: { AllByRecursion (IsMade width height) places.items } by { Prim.hlevel props },
    ghost ready: { AllByRecursion IsReady (take count places.items) } by { Prim.hlevel props },
    ghost order: { AreInOrder (take count places.items) } by { AreInOrder-prop (take count places.items) },
}

// Takes a new reference into the first place; the others move on by one, and the last is given back for it.
fn turn(places: &mut Vec<Reference>, new: &mut Reference)
    requires { 1 ≤ length places.old.items }
    ensures places { places.new.items ≡ new.old ∷ take (length places.old.items - 1) places.old.items }
    ensures back { (d : Reference) → new.new ≡ get_or places.old.items (length places.old.items - 1) d }
{
    let last = places.len() - 1;
    swap(&mut places[last], new);
    places.as_mut_slice().rotate_right(1);
}

impl RefStore {
    ghost use Rattle.ref_lists.specs.Named.{named, named_from, lists_at, AreOfP};
    ghost use Rattle.ref_lists.specs.Stored.{references_of, held_of, places_of, width_of, height_of, SameStore, order_counts, IsNumberedNext, IsShownLast};
    ghost use Rattle.spec_lists.specs.References.{slid};

    /// A store that holds nothing, with places for `refs` pictures of this size, rounded up to multiples of 16. Width is from 1 to 4096,
    /// height from 1 to 2304, and there are from 1 to 4 places.
    pub fn new(alloc: Global, width: u32, height: u32, refs: u32) -> Result<RefStore, OutOfMemory>
        requires width { (1 ≤ width) × (width ≤ 4096) }
        requires height { (1 ≤ height) × (height ≤ 2304) }
        requires refs { (1 ≤ refs) × (refs ≤ 4) }
        ensures nothing { IfOk result (λ s. held_of s ≡ []) }
        ensures size { IfOk result (λ s. (width_of s ≡ rounded width) × (height_of s ≡ rounded height) × (places_of s ≡ refs)) }
    {
        let mut places = Vec::new(alloc);
        for _ in 0..refs {
            let blank = Reference::new(alloc, width, height)?;
            places.push(blank)?;
        }
        Ok(RefStore {
            places,
            count: 0,
            width: (width + 15) / 16 * 16,
            height: (height + 15) / 16 * 16,
        })
    }

    /// Gives up all that is held, as an IDR picture does.
    pub fn reset(&mut self)
        ensures nothing { held_of self.new ≡ [] }
        ensures size { SameStore self.old self.new }
    {
        self.count = 0;
    }

    /// Takes in a new reference, fills its margins, its table of sums and its half planes, and lets the oldest one go where there is no
    /// free place. Where others are held its frame_num is one more than that of the newest, and its order count is above that one's. What `new` has
    /// afterwards is of the store's size too.
    pub fn slide(&mut self, new: &mut Reference)
        requires made { IsMade (width_of self.old) (height_of self.old) new.old }
        requires frame_num { IsNumberedNext new.old.frame_num (held_of self.old) }
        requires poc { IsShownLast new.old.poc (order_counts (references_of self.old)) }
        ensures held { held_of self.new ≡ slid (places_of self.old) (seen new.old) (held_of self.old) }
        ensures counts { order_counts (references_of self.new) ≡ take (places_of self.old) (new.old.poc ∷ order_counts (references_of self.old)) }
        ensures size { SameStore self.old self.new }
        ensures back { IsMade (width_of self.old) (height_of self.old) new.new }
    {
        new.make_ready();
        let places = self.places.len();
        self.count = (self.count + 1).min(places);
        turn(&mut self.places, new);
    }

    /// The lists of a picture of this kind and order count, before any command. Of a P picture list 0 has all that are held, by falling
    /// frame_num; of a B picture it has those that are shown before it, by falling order count, and list 1 the one that is shown next
    /// behind it. Where no order count is below 0 these are the lists of the decoder's definition; order counts below it are told from an
    /// origin that is above none of them.
    pub fn lists(&self, kind: SliceKind, poc: i32) -> Lists<'_>
        ensures held { result.held.now ≡ references_of self.now }
        ensures named { IsOrigin (pos 0) poc (references_of self.now) → named result ≡ lists_at kind (natural poc) (held_of self.now) }
        ensures anywhere { (origin : ℤ) → IsOrigin origin poc (references_of self.now) → named_from origin result ≡ lists_at kind (natural (poc -ℤ origin)) (all_seen_from origin (references_of self.now)) }
        ensures p { kind ≡ P → AreOfP result }
        ensures inside { ArePlaces (length result.held.now) result.list0.items × ArePlaces (length result.held.now) result.list1.items }
        ensures ready { AreHeld (width_of self.now) (height_of self.now) result.held.now }
        ensures order { AreInOrder result.held.now }
    {
        let held = &self.places[..self.count];
        let rank = rank_of(poc);
        match kind {
            SliceKind::I => Lists {
                held,
                list0: ArrayVec::new(),
                list1: ArrayVec::new(),
            },
            SliceKind::P => Lists {
                held,
                list0: all_places(held),
                list1: ArrayVec::new(),
            },
            SliceKind::B => Lists {
                held,
                list0: earlier(held, rank),
                list1: next_shown(held, rank),
            },
        }
    }
}
