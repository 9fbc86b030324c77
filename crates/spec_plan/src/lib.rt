//! The order in which pictures are coded, as a definition, and its laws: the steps follow one another as a decoder
//! asks, each place in display order stands in a plan once, and each step finds the references that its lists name.
#![tactic(auto)]

ghost use Rattle.std.specs.Prelude.{ℕ, List, ◌<◌, ◌≤◌, ◌≡◌, ◌∷◌, [], Some, None, false, length, map, nat_eq};
ghost use Rattle.std.specs.List.{IsDistinct};
ghost use Rattle.enc_tables.specs.declared.SliceKind.TheVariants.{P, B};
ghost use Rattle.spec_headers.specs.declared.heads.SeqHead.{SeqHead};
ghost use Rattle.spec_headers.specs.declared.heads.SliceHead.{SliceHead};
ghost use Rattle.spec_lists.specs.References.{Reference};
ghost use Rattle.spec_lists.specs.Lists.{lists_of};
ghost use Rattle.spec_decoder.specs.Pictures.{Reading};
ghost use Rattle.spec_pictures.specs.Accesses.{Access, Follows, held_after};
ghost use Rattle.spec_plan.specs.Plan.{plan_of, displays, times};
ghost use Rattle.spec_plan.specs.Marks.{mark, marks_after, KindFits, Falls, HasLists, HasRoom};

/// The steps of a plan follow one another: each IDR picture is shown behind all before it, each other picture by its
/// distance from the last IDR picture, and frame_num counts the references (ITU-T H.264, clauses 7.4.3 and 8.2.1).
/// There is a step for each picture.
pub fn plans_follow()
    ensures order { (wanted : ℕ → ℕ) (idr : ℕ) (pictures : ℕ) → 0 < idr → idr ≤ 16384 → Follows false 0 0 0 (plan_of wanted idr pictures) }
    ensures each { (wanted : ℕ → ℕ) (idr : ℕ) (pictures : ℕ) → length (plan_of wanted idr pictures) ≡ pictures }
{}

/// Every place in display order below the number of pictures stands in a plan once, and no other place does; so no two
/// steps have the same place.
pub fn plans_have_each_place_once()
    ensures once { (wanted : ℕ → ℕ) (idr : ℕ) (pictures : ℕ) (place : ℕ) → place < pictures → times place (displays (plan_of wanted idr pictures)) ≡ 1 }
    ensures no_other { (wanted : ℕ → ℕ) (idr : ℕ) (pictures : ℕ) (place : ℕ) → pictures ≤ place → times place (displays (plan_of wanted idr pictures)) ≡ 0 }
    ensures distinct { (wanted : ℕ → ℕ) (idr : ℕ) (pictures : ℕ) → IsDistinct nat_eq (displays (plan_of wanted idr pictures)) }
{}

/// Each P picture of a plan has a reference, and all that are held are shown before it; each B picture has the newest
/// reference behind it and another one before it. Two places for references are enough, and one where there are no B
/// pictures.
pub fn plans_have_lists()
    ensures { (wanted : ℕ → ℕ) (idr : ℕ) (places : ℕ) (pictures : ℕ) → 0 < idr → 1 ≤ places → HasRoom wanted places → HasLists places [] (plan_of wanted idr pictures) }
{}

/// What a decoder holds goes on by picture order counts and frame numbers as the plan says.
pub fn references_have_marks<S>()
    ensures { (r : Reading S) (s : SeqHead) (held : List Reference) (a : Access S) → map mark (held_after r s held a) ≡ marks_after s.refs a.step (map mark held) }
{}

/// So a slice of a P picture finds all references that are held in its list 0, and one of a B picture the newest in its
/// list 1 and the others in its list 0 (clause 8.2.4.2).
pub fn slices_have_lists()
    ensures p { (h : SliceHead) (held : List Reference) → KindFits P h.poc h.frame_num (map mark held) → Falls (map mark held) → h.kind ≡ P → h.refs0 ≡ length held → h.refs1 ≡ 0 → h.moved ≡ None → h.frame_num < 65536 → lists_of h held ≡ Some (record { list0 = held; list1 = [] }) }
    ensures b { (h : SliceHead) (newest : Reference) (held : List Reference) → KindFits B h.poc h.frame_num (map mark (newest ∷ held)) → Falls (map mark (newest ∷ held)) → h.kind ≡ B → h.refs0 ≡ length held → h.refs1 ≡ 1 → h.moved ≡ None → lists_of h (newest ∷ held) ≡ Some (record { list0 = held; list1 = newest ∷ [] }) }
{}
