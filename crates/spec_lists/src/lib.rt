//! Reference pictures as a decoder holds them, and the lists that slices name them by, as definitions (ITU-T H.264,
//! clauses 8.2.1, 8.2.4 and 8.2.5), with the laws that give these lists of references that are held with the newest
//! first.
#![tactic(auto)]

ghost use Rattle.std.specs.Prelude.{◌≡◌, ◌+◌, ◌<◌, ◌≤◌, ℕ, List, [], ◌∷◌, length, Some, None};
ghost use Rattle.std.specs.List.{AllByRecursion, find};
ghost use Rattle.enc_tables.specs.declared.SliceKind.TheVariants.{P, B};
ghost use Rattle.spec_headers.specs.declared.SliceHead.{SliceHead};
ghost use Rattle.spec_lists.specs.References.{Reference};
ghost use Rattle.spec_lists.specs.Orders.{Rising, Falling};
ghost use Rattle.spec_lists.specs.Lists.{nearest_first, is_so_far, in_front, lists_of};
ghost use Rattle.spec_lists.specs.Reordering.{moved_for};

/// References that stand by rising distance are listed as they stand (clause 8.2.4.2).
#[tactic(auto, using(crate::proofs::Sorted::stays))]
pub fn references_in_order_stay()
    ensures { (far : Reference → ℕ) (held : List Reference) → Rising far held → nearest_first far held ≡ held }
{}

/// The lists of a P slice with as many entries as references are held, these by falling frame_num: list 0 has all of
/// them, the newest first, and list 1 none (clause 8.2.4.2.1). With a command that names a held picture this one comes
/// first and the others follow as they stood (clause 8.2.4.3.1).
pub fn p_slices_list_all_references()
    ensures plain { (h : SliceHead) (held : List Reference) → h.kind ≡ P → h.refs0 ≡ length held → h.refs1 ≡ 0 → h.moved ≡ None → h.frame_num < 65536 → AllByRecursion (λ r. r.frame_num < h.frame_num) held → Falling (λ r. r.frame_num) held → lists_of h held ≡ Some (record { list0 = held; list1 = [] }) }
    ensures moved { (h : SliceHead) (held : List Reference) (difference : ℕ) (named : Reference) → h.kind ≡ P → h.refs0 ≡ length held → h.refs1 ≡ 0 → h.moved ≡ Some difference → h.frame_num < 65536 → AllByRecursion (λ r. r.frame_num < h.frame_num) held → Falling (λ r. r.frame_num) held → find (is_so_far h.frame_num (difference + 1)) held ≡ Some named → lists_of h held ≡ Some (record { list0 = in_front h.refs0 (is_so_far h.frame_num (difference + 1)) held named; list1 = [] }) }
{}

/// The lists of a B slice that is shown behind all held references but the newest, and before that one: list 0 has the
/// others, by falling picture order count, and list 1 the newest (clause 8.2.4.2.3).
#[tactic(auto, using(crate::proofs::Sorted::b_lists))]
pub fn b_slices_list_the_newest_behind()
    ensures { (h : SliceHead) (newest : Reference) (held : List Reference) → h.kind ≡ B → h.refs0 ≡ length held → h.refs1 ≡ 1 → h.moved ≡ None → 1 ≤ length held → h.poc < newest.poc → AllByRecursion (λ r. r.poc < h.poc) held → Falling (λ r. r.poc) held → lists_of h (newest ∷ held) ≡ Some (record { list0 = held; list1 = newest ∷ [] }) }
{}

/// The one command that moves the least different reference to the front names a picture that is held.
pub fn commands_name_held_references()
    ensures { (frame_num : ℕ) (difference : ℕ) (source : List ℕ) (held : List Reference) → frame_num < 65536 → AllByRecursion (λ r. r.frame_num < frame_num) held → moved_for frame_num source held ≡ Some difference → (named : Reference) × (find (is_so_far frame_num (difference + 1)) held ≡ Some named) }
{}
