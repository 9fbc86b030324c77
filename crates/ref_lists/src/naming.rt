// The lists by which slices name reference pictures.
ghost use Rattle.std.specs.Prelude.{◌≡◌, ◌↔◌, ◌≤◌, ◌<◌, ◌+◌, ◌-◌, ◌-ℤ◌, ◌≤ℤ◌, ◌++◌, ◌∷◌, [], cond, ℤ, nat_lt, length, map, take, Some, None, IsSome, IfSome};
ghost use Rattle.std.specs.List.{filter, find};
ghost use Rattle.arrayvec.specs.ArrayVec.{array_vec_len};
ghost use Rattle.picture_planes.specs.Samples.{samples_of};
ghost use Rattle.spec_lists.specs.Lists.{shown_behind, is_so_far, in_front};
ghost use Rattle.spec_lists.specs.Reordering.{difference, first_least_place as first_of_least, moved_for};
ghost use Rattle.spec_lists.specs.References.{Reference as Shown};
ghost use Rattle.ref_lists.specs.declared.held.Reference.{Reference as Held};
ghost use Rattle.ref_lists.specs.Held.{all_seen, all_seen_from, natural, ranked, IsOrigin, AreHeld};
ghost use Rattle.ref_lists.specs.Entries.{entries, next_number, AreInOrder, ArePlaces};

use crate::Reference;
use arrayvec::ArrayVec;
use lane_kernels::sad_rows;
use picture_planes::{Picture, Plane};

/// Held references, and by their places among them the entries of both lists.
#[derive(Drop)]
pub struct Lists<'a> {
    /// The newest first.
    pub held: &'a [Reference],
    /// The entries of list 0.
    pub list0: ArrayVec<u8, 4>,
    /// The entries of list 1.
    pub list1: ArrayVec<u8, 4>,
}

// The rank of an order count among all that 32 bits have: a number without a sign, in the same order.
pub(crate) fn rank_of(poc: i32) -> u32
    ensures { ranked result ≡ poc }
{
    poc.abs_diff(i32::MIN)
}

// Whether a reference is shown before a picture.
fn is_before(r: &Reference, rank: u32) -> bool
    ensures { (origin : ℤ) → origin ≤ℤ r.now.poc → origin ≤ℤ ranked rank → result ≡ nat_lt (natural (r.now.poc -ℤ origin)) (natural (ranked rank -ℤ origin)) }
{
    let shown = r.poc;
    rank_of(shown) < rank
}

// Whether a reference is shown behind a picture.
fn is_behind(r: &Reference, rank: u32) -> bool
    ensures { (origin : ℤ) → origin ≤ℤ r.now.poc → origin ≤ℤ ranked rank → result ≡ nat_lt (natural (ranked rank -ℤ origin)) (natural (r.now.poc -ℤ origin)) }
{
    let shown = r.poc;
    rank < rank_of(shown)
}

// Puts a place behind others, where it is to be there.
fn enter(places: &mut ArrayVec<u8, 4>, k: usize, there: bool)
    requires room { array_vec_len places.old < 4 }
    requires small { k < 4 }
    ensures items { places.new.items ≡ places.old.items ++ cond there (k ∷ []) [] }
    ensures len { array_vec_len places.new ≤ array_vec_len places.old + 1 }
{
    if there {
        places.push(k as u8);
    }
}

// The places of all references.
pub(crate) fn all_places(held: &[Reference]) -> ArrayVec<u8, 4>
    requires few { length held.now ≤ 4 }
    ensures named { (seen : Held → Shown) → entries (map seen held.now) result.items ≡ map seen held.now }
    ensures inside { ArePlaces (length held.now) result.items }
{
    let mut places = ArrayVec::new();
    for place in 0..held.len() {
        places.push(place as u8);
    }
    places
}

// The places of those that are shown before a picture.
pub(crate) fn earlier(held: &[Reference], rank: u32) -> ArrayVec<u8, 4>
    requires few { length held.now ≤ 4 }
    ensures named { (origin : ℤ) → IsOrigin origin (ranked rank) held.now → entries (all_seen_from origin held.now) result.items ≡ filter (λ r. nat_lt r.poc (natural (ranked rank -ℤ origin))) (all_seen_from origin held.now) }
    ensures inside { ArePlaces (length held.now) result.items }
{
    let mut places = ArrayVec::new();
    for k in 0..held.len() {
        let there = is_before(&held[k], rank);
        enter(&mut places, k, there);
    }
    places
}

// The place of the one that is shown next behind a picture, where there is one.
pub(crate) fn next_shown(held: &[Reference], rank: u32) -> ArrayVec<u8, 4>
    requires few { length held.now ≤ 4 }
    requires order { AreInOrder held.now }
    ensures named { (origin : ℤ) → IsOrigin origin (ranked rank) held.now → entries (all_seen_from origin held.now) result.items ≡ take 1 (shown_behind (natural (ranked rank -ℤ origin)) (all_seen_from origin held.now)) }
    ensures inside { ArePlaces (length held.now) result.items }
{
    let mut places = ArrayVec::new();
    let mut k = held.len();
    while k > 0 {
        k -= 1;
        if is_behind(&held[k], rank) {
            places.push(k as u8);
            return places;
        }
    }
    places
}

// The sum of absolute differences of the samples of two planes of one size.
fn difference_of(a: &Plane, b: &Plane) -> u64
    requires width { a.now.width ≡ b.now.width }
    requires height { a.now.height ≡ b.now.height }
    ensures { result ≡ difference (samples_of a.now) (samples_of b.now) }
{
    let mut total = 0;
    for y in 0..a.height {
        total += sad_rows(a.row(y), b.row(y)) as u64;
    }
    total
}

// The place of the first of the least numbers; 0 where there is none.
fn first_least(numbers: &[u64]) -> usize
    ensures value { result ≡ first_of_least numbers.now }
    ensures within { result ≤ length numbers.now - 1 }
{
    let mut best = 0;
    for k in 1..numbers.len() {
        if numbers[k] < numbers[best] {
            best = k;
        }
    }
    best
}

// How far a source is from each of some references.
fn differences(source: &Plane, held: &[Reference], places: &[u8]) -> ArrayVec<u64, 4>
    requires few { length places.now ≤ 4 }
    requires inside { ArePlaces (length held.now) places.now }
    requires size { AreHeld source.now.width source.now.height held.now }
    ensures { result.items ≡ map (λ r. difference (samples_of source.now) r.planes.luma) (entries (all_seen held.now) places.now) }
{
    let mut numbers = ArrayVec::new();
    for k in 0..places.len() {
        let place = places[k] as usize;
        numbers.push(difference_of(source, &held[place].picture.y));
    }
    numbers
}

impl<'a> Lists<'a> {
    ghost use Rattle.ref_lists.specs.Named.{named, AreOfP, FirstIsLeast};

    /// The command that moves the reference that is least different from a source to the front of a P picture's list 0, as
    /// abs_diff_pic_num_minus1; None exactly where no reference is less different than the first one. How different they are is the sum
    /// of absolute differences of their luma samples. The picture's frame_num is one more than that of the first entry of list 0. The
    /// lists are those that `RefStore::lists` gives for P, and the source has the references' size.
    pub fn moved(&self, source: &Picture) -> Option<u16>
        requires lists { AreOfP self.now }
        requires size { AreHeld source.now.y.width source.now.y.height self.now.held.now }
        ensures value { result ≡ moved_for (next_number (named self.now).list0) (samples_of source.now.y) (named self.now).list0 }
        ensures none { (result ≡ None) ↔ FirstIsLeast (samples_of source.now.y) (named self.now).list0 }
    {
        let numbers = differences(&source.y, self.held, self.list0.as_slice());
        let best = first_least(numbers.as_slice());
        if best == 0 { None } else { Some(best as u16) }
    }

    /// Moves the reference that a command names to the front of list 0; the others follow as they stood. The lists are those that
    /// `RefStore::lists` gives for P, and the reference is in list 0 (clause 8.2.4.3.1).
    pub fn apply(&mut self, moved: u16)
        requires lists { AreOfP self.old }
        requires there { IsSome (find (is_so_far (next_number (named self.old).list0) (moved + 1)) (named self.old).list0) }
        ensures list0 { IfSome (find (is_so_far (next_number (named self.old).list0) (moved + 1)) (named self.old).list0) (λ r. (named self.new).list0 ≡ in_front (length (named self.old).list0) (is_so_far (next_number (named self.old).list0) (moved + 1)) (named self.old).list0 r) }
        ensures list1 { (named self.new).list1 ≡ (named self.old).list1 }
        ensures held { self.new.held ≡ self.old.held }
        ensures inside { ArePlaces (length self.new.held.now) self.new.list0.items }
    {
        let named = self.list0.remove(moved as usize);
        self.list0.insert(0, named);
    }
}
