//! How the pictures of a film are coded, of all kinds, by the written choice or as the coarsest ones, as a definition;
//! with the law that each is what encodings owe a decoder.
#![tactic(auto)]

ghost use Rattle.std.specs.Prelude.{◌≡◌, ◌<◌, ℕ, Bool, false, nat_eq, List, [], length, Some, None};
ghost use Rattle.std.specs.List.{IsDistinct};
ghost use Rattle.enc_tables.specs.declared.records.PlanStep.{PlanStep};
ghost use Rattle.spec_film.specs.Films.{Planes};
ghost use Rattle.spec_buffer.specs.Buffer.{Rate, BufferHolds, IsRate};
ghost use Rattle.spec_buffer.specs.Ledger.{sizes_of};
ghost use Rattle.spec_decoder.specs.Frames.{frames, decode, slices_read};
ghost use Rattle.spec_pictures.specs.Accesses.{Follows, slices_of_accesses};
ghost use Rattle.spec_coding.specs.Encoding.{State, accesses_of};
ghost use Rattle.spec_coding.specs.Laws.{CoderLaws, steps_of, places, spendings};
ghost use Rattle.spec_film_coder.specs.Pictures.{CoderSettings, film_coder, film_of, film_encoded, film_bytes, film_shown};
ghost use Rattle.spec_film_coder.specs.Sound.{AreSettings, IsSound, planned_steps, first_state, IsFilm};

/// Each trial of a picture of any kind, by the written choice or as the coarsest one, has slices that cover the picture
/// and are read back with the references that are held; the numbers of its headers and its delays have room; and what
/// is held behind it goes on to be sound.
pub fn films_are_coded()
    ensures { (c : CoderSettings) (rate : Rate) (reorders : Bool) → AreSettings c → CoderLaws frames c.sequence (film_of c rate reorders) (film_coder c) (IsSound c rate) }
{}

/// A decoder shows of the bytes of a film's encoding, with pictures of all kinds, exactly the pictures that are kept,
/// in display order, and reads exactly its slices, also where the encoding ended in a refusal: where nothing is held
/// before it, the steps follow one another, and no two have the same place in display order.
pub fn films_decode()
    ensures pictures { (c : CoderSettings) (rate : Rate) (reorders : Bool) (s : State) (xs : List (PlanStep × Planes)) → AreSettings c → c.sequence.level < 256 → s.held ≡ [] → IsSound c rate s xs → Follows false 0 0 0 (steps_of xs) → IsDistinct nat_eq (places xs)
        → decode (film_bytes c rate reorders s xs) ≡ Some (film_shown c rate reorders s xs) }
    ensures slices { (c : CoderSettings) (rate : Rate) (reorders : Bool) (s : State) (xs : List (PlanStep × Planes)) → AreSettings c → c.sequence.level < 256 → s.held ≡ [] → IsSound c rate s xs → Follows false 0 0 0 (steps_of xs) → IsDistinct nat_eq (places xs)
        → slices_read (film_bytes c rate reorders s xs) ≡ Some (slices_of_accesses (accesses_of (film_encoded c rate reorders s xs).done)) }
{}

/// So it is of a whole film: of the pictures of eight bits that are coded by a plan, with any trials, filler and number
/// of B pictures. Where none is refused each picture is shown, and the buffer of a receiver neither underflows nor
/// overflows.
pub fn planned_films_decode()
    ensures pictures { (c : CoderSettings) (rate : Rate) (wanted : ℕ → ℕ) (idr : ℕ) (pictures : ℕ) (source : ℕ → Planes) → IsFilm c rate wanted idr pictures source → (reorders : Bool) (qp : ℕ)
        → decode (film_bytes c rate reorders (first_state qp) (planned_steps wanted idr pictures source)) ≡ Some (film_shown c rate reorders (first_state qp) (planned_steps wanted idr pictures source)) }
    ensures slices { (c : CoderSettings) (rate : Rate) (wanted : ℕ → ℕ) (idr : ℕ) (pictures : ℕ) (source : ℕ → Planes) → IsFilm c rate wanted idr pictures source → (reorders : Bool) (qp : ℕ)
        → slices_read (film_bytes c rate reorders (first_state qp) (planned_steps wanted idr pictures source)) ≡ Some (slices_of_accesses (accesses_of (film_encoded c rate reorders (first_state qp) (planned_steps wanted idr pictures source)).done)) }
    ensures each { (c : CoderSettings) (rate : Rate) (wanted : ℕ → ℕ) (idr : ℕ) (pictures : ℕ) (source : ℕ → Planes) → IsFilm c rate wanted idr pictures source → (reorders : Bool) (qp : ℕ)
        → (film_encoded c rate reorders (first_state qp) (planned_steps wanted idr pictures source)).refused ≡ None → length (film_shown c rate reorders (first_state qp) (planned_steps wanted idr pictures source)) ≡ pictures }
    ensures buffer { (c : CoderSettings) (rate : Rate) (wanted : ℕ → ℕ) (idr : ℕ) (pictures : ℕ) (source : ℕ → Planes) → IsFilm c rate wanted idr pictures source → (reorders : Bool) (qp : ℕ)
        → IsRate rate → BufferHolds rate (sizes_of (spendings (film_encoded c rate reorders (first_state qp) (planned_steps wanted idr pictures source)).done)) }
{}
