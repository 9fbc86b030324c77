//! Encodings, step by step, whatever the coding of one picture is: references, trials, the ledger of the buffer and a
//! refusal, as definitions, and their laws.
#![tactic(auto)]

ghost use Rattle.std.specs.Prelude.{ℕ, ◌≡◌, ◌≤◌, ◌<◌, ◌++◌, ◌∷◌, nat_eq, Bool, true, false, List, [], None, Some, length};
ghost use Rattle.std.specs.List.{AllByRecursion, IsDistinct};
ghost use Rattle.enc_tables.specs.declared.PlanStep.{PlanStep};
ghost use Rattle.spec_film.specs.Films.{Planes};
ghost use Rattle.spec_headers.specs.declared.heads.SeqHead.{SeqHead};
ghost use Rattle.spec_headers.specs.Allowed.{IsSeqHead};
ghost use Rattle.spec_buffer.specs.Buffer.{BufferHolds, IsRate};
ghost use Rattle.spec_buffer.specs.Ledger.{fresh, Keeps, available, sizes_of};
ghost use Rattle.spec_headers.specs.MessageReaders.{Delays, AreDelays};
ghost use Rattle.spec_decoder.specs.Pictures.{Reading, decode_by, read_by};
ghost use Rattle.spec_pictures.specs.Accesses.{AllCoded, AreOthers, Follows, IsPassedOver, slices_of_accesses};
ghost use Rattle.spec_coding.specs.Encoding.{State, Picked, Coded, Fits, Refused, Choice, accesses_of, encoded, spelled, in_order};
ghost use Rattle.spec_coding.specs.Trials.{Coder, Film, coarsest_trial, bits_by, choice_of, supplement_unit, filler_units};
ghost use Rattle.spec_report.specs.declared.ReportHead.{ReportHead};
ghost use Rattle.spec_report.specs.Lines.{picture_line};
ghost use Rattle.spec_coding.specs.Laws.{steps_of, places, go_on, IsTrial, spendings, CoderLaws, AreSmall, FirstFits};
ghost use Rattle.spec_coding.specs.Report.{reported, report_to, totals_of, totals_in};

/// A decoder shows of what an encoding writes the pictures that it keeps, in display order, and reads its slices, also
/// where it ended in a refusal: where each access unit is one that a decoder is owed, the steps follow one another, no
/// two have the same place in display order, and the numbers of IDR pictures alternate.
pub fn encodings_decode<S>()
    ensures pictures { (r : Reading S) (q : SeqHead) (flags : Bool × Bool) (c : Choice S) (xs : List (PlanStep × Planes)) (s : State) → IsSeqHead q → q.level < 256 → s.held ≡ [] → AllCoded r q flags s.held (accesses_of (encoded r q c s xs).done) → AreOthers r None (slices_of_accesses (accesses_of (encoded r q c s xs).done)) → Follows false 0 0 0 (steps_of xs) → IsDistinct nat_eq (places xs) → decode_by r (spelled q flags (encoded r q c s xs).done) ≡ Some (in_order q (encoded r q c s xs).done) }
    ensures slices { (r : Reading S) (q : SeqHead) (flags : Bool × Bool) (c : Choice S) (xs : List (PlanStep × Planes)) (s : State) → IsSeqHead q → q.level < 256 → s.held ≡ [] → AllCoded r q flags s.held (accesses_of (encoded r q c s xs).done) → AreOthers r None (slices_of_accesses (accesses_of (encoded r q c s xs).done)) → Follows false 0 0 0 (steps_of xs) → IsDistinct nat_eq (places xs) → read_by r (spelled q flags (encoded r q c s xs).done) ≡ Some (slices_of_accesses (accesses_of (encoded r q c s xs).done)) }
{}

/// So it is for a coder whose every trial covers the picture and is read back, as long as its state is sound.
pub fn coders_encode<S>()
    ensures { (r : Reading S) (q : SeqHead) (f : Film) (c : Coder S) (sound : State → List (PlanStep × Planes) → Bool) → CoderLaws r q f c (λ s xs. sound s xs ≡ true) → (xs : List (PlanStep × Planes)) (s : State) → sound s xs ≡ true → AllCoded r q f.flags s.held (accesses_of (encoded r q (choice_of f c) s xs).done) × AreOthers r None (slices_of_accesses (accesses_of (encoded r q (choice_of f c) s xs).done)) }
{}

/// The encoding of steps and further steps goes on where that of the first ended, and ends where a picture was refused.
pub fn encodings_go_on<S>()
    ensures { (r : Reading S) (q : SeqHead) (c : Choice S) (xs : List (PlanStep × Planes)) (ys : List (PlanStep × Planes)) (s : State) → encoded r q c s (xs ++ ys) ≡ go_on (λ t. encoded r q c t ys) (encoded r q c s xs) (encoded r q c s xs).refused }
{}

/// Where no picture was refused there is one for each step.
pub fn encodings_have_each_picture<S>()
    ensures { (r : Reading S) (q : SeqHead) (c : Choice S) (xs : List (PlanStep × Planes)) (s : State) → (encoded r q c s xs).refused ≡ None → length (in_order q (encoded r q c s xs).done) ≡ length xs }
{}

/// What is picked is a trial with a quantisation parameter of at most 51 whose unit has at most the bits that are
/// there. A picture is refused with the bits of its coarsest unit and those that are there, which are fewer.
pub fn picked_trials_fit<S>()
    ensures fits { (f : Film) (c : Coder S) (s : State) (st : PlanStep) (source : Planes) (p : Picked S) → (choice_of f c).chosen s st source ≡ Fits p → IsTrial f c s st source p }
    ensures refused { (f : Film) (c : Coder S) (s : State) (st : PlanStep) (source : Planes) (need : ℕ) (have : ℕ) → (choice_of f c).chosen s st source ≡ Refused need have → (need ≡ bits_by f c s st source coarsest_trial) × (have ≡ available f.rate s.ledger) × (have < need) }
{}

/// The buffer of a receiver neither underflows nor overflows by the units of an encoding, whether it ended in a refusal
/// or not.
pub fn the_buffer_holds<S>()
    ensures { (r : Reading S) (q : SeqHead) (f : Film) (c : Coder S) (qp : ℕ) (s : State) (xs : List (PlanStep × Planes)) → IsRate f.rate → s.ledger ≡ fresh qp → BufferHolds f.rate (sizes_of (spendings (encoded r q (choice_of f c) s xs).done)) }
{}

/// No picture is refused where each coarsest unit has at most a picture's share in bits, and the first at most the bits
/// that are there.
pub fn small_units_are_never_refused<S>()
    ensures { (r : Reading S) (q : SeqHead) (f : Film) (c : Coder S) (xs : List (PlanStep × Planes)) (s : State) → IsRate f.rate → Keeps f.rate s.ledger → AreSmall r q f c s xs → FirstFits f c s xs → (encoded r q (choice_of f c) s xs).refused ≡ None }
{}

/// A decoder passes over the messages before the slices of a picture and the filler behind them.
pub fn messages_and_filler_are_passed_over()
    ensures messages { (d : Delays) → AreDelays d → IsPassedOver (supplement_unit d) }
    ensures filler { (n : ℕ) → AllByRecursion IsPassedOver (filler_units n) }
{}

/// Each picture adds its line to the report.
pub fn reports_grow<S>()
    ensures { (h : ReportHead) (ds : List (Coded S)) (d : Coded S) → report_to h (ds ++ d ∷ []) ≡ report_to h ds ++ picture_line (reported (length ds) d) }
{}

/// The totals of an encoding from the first picture on are what is kept behind it, whether it ended in a refusal or
/// not.
pub fn totals_add_up<S>()
    ensures { (r : Reading S) (q : SeqHead) (f : Film) (c : Coder S) (qp : ℕ) (s : State) (xs : List (PlanStep × Planes)) → s.ledger ≡ fresh qp → s.compared ≡ 0 → totals_of (encoded r q (choice_of f c) s xs).done ≡ totals_in (encoded r q (choice_of f c) s xs).end }
{}
