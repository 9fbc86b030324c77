//! What a session of encoding is, as definitions: settings completed by the film's head, and which of them are refused; the encoding of a
//! film, whole and by groups; its outputs, also behind each refusal; with the laws that join them to a decoder and to a receiver's buffer.
#![tactic(auto)]

ghost use Rattle.std.specs.Prelude.{◌≡◌, ◌≤◌, ◌<◌, ◌+◌, ◌++◌, ℕ, List, length, take, Some, None, Ok};
ghost use Rattle.std.specs.List.{All};
ghost use Rattle.spec_bits.specs.Bits.{IsByte};
ghost use Rattle.spec_film.specs.declared.FilmHead.{FilmHead};
ghost use Rattle.spec_film.specs.Films.{AllowedHead, Ended, Film, Planes, film_of};
ghost use Rattle.spec_stream.specs.Pictures.{IsPicture};
ghost use Rattle.spec_buffer.specs.Buffer.{BufferHolds};
ghost use Rattle.spec_buffer.specs.Ledger.{sizes_of};
ghost use Rattle.spec_coding.specs.Encoding.{Refusal, behind};
ghost use Rattle.spec_coding.specs.Laws.{go_on, spendings};
ghost use Rattle.clap.specs.Words.{Row};
ghost use Rattle.spec_words.specs.declared.command.Settings.{Settings};
ghost use Rattle.spec_words.specs.Choices.{settings_of};
ghost use Rattle.spec_session.specs.Settings.{SessionSettings, AreInRange, setting_of, completed, with_workers, Completes};
ghost use Rattle.spec_session.specs.Encodings.{encoding, encoding_from, rate_of, AreSmallUnits, IsEncoding};
ghost use Rattle.spec_session.specs.Groups.{Place, coded_pictures, full_at, group_steps, place_after, place_from, place_behind, steps_from, IsCut};
ghost use Rattle.spec_session.specs.Outputs.{AreFronts, group_text, joined, outputs_of, written_to, written_whole};
ghost use Rattle.spec_session.specs.Answers.{Done, ending_of, Encodes};

/// The settings that the words of a command give are in their ranges.
pub fn commands_give_settings_in_range()
    ensures { (rows : List Row) → AreInRange (settings_of rows) }
{}

/// Settings that no fault refuses are complete: the level holds the stream, the buffer has room for a picture's share, and the first delay
/// doesn't over-fill it.
pub fn completed_settings_fit()
    ensures { (s : Settings) (h : FilmHead) (f : SessionSettings) → completed s h ≡ Ok f → Completes s h f }
{}

/// The number of threads that plan a picture settles neither what is refused nor what is written.
pub fn workers_settle_nothing()
    ensures setting { (s : Settings) (workers : ℕ) (h : FilmHead) → setting_of (with_workers workers s) h ≡ setting_of s h }
    ensures ending { (s : Settings) (workers : ℕ) (film : Film) → ending_of (with_workers workers s) film ≡ ending_of s film }
{}

/// What is written for a film of which no picture is refused keeps its promises: a decoder shows of the stream exactly the reconstruction,
/// one picture for each of the film's, and reads exactly the records of the written choice; and the buffer holds.
pub fn encodings_keep_their_promises()
    ensures { (s : Settings) (h : FilmHead) (f : SessionSettings) (pictures : List Planes) → AreInRange s → AllowedHead h → setting_of s h ≡ Ok f → All (IsPicture h) pictures → length pictures ≤ 1000000 → (encoding f pictures).refused ≡ None
        → IsEncoding f pictures (written_whole f (encoding f pictures).done).stream (written_whole f (encoding f pictures).done).recon (written_whole f (encoding f pictures).done).report }
{}

/// So it is of the film that some bytes are, where nothing of it and of its settings is refused.
pub fn films_keep_their_promises()
    ensures { (s : Settings) (bytes : List ℕ) → AreInRange s → All IsByte bytes → ending_of s (film_of bytes) ≡ Done → Encodes s (film_of bytes) }
{}

/// The buffer of a receiver neither underflows nor overflows by the units of an encoding, whether it ended in a refusal or not.
pub fn buffers_hold()
    ensures { (s : Settings) (h : FilmHead) (f : SessionSettings) (pictures : List Planes) → AreInRange s → AllowedHead h → setting_of s h ≡ Ok f → All (IsPicture h) pictures → length pictures ≤ 1000000 → BufferHolds (rate_of f) (sizes_of (spendings (encoding f pictures).done)) }
{}

/// A film without a fault is encoded to its end where neither its settings nor one of its pictures is refused.
pub fn films_are_encoded_to_their_end()
    ensures { (s : Settings) (film : Film) (h : FilmHead) (f : SessionSettings) → film.head ≡ Some h → film.end ≡ Ended → setting_of s h ≡ Ok f → (encoding f film.pictures).refused ≡ None → ending_of s film ≡ Done }
{}

/// A refusal names a picture of the film; its coarsest coding has more bits than are there. No picture is refused where each coarsest unit
/// has at most a picture's share in bits, and the first at most the bits that are there.
pub fn refusals_tell()
    ensures fewer { (f : SessionSettings) (pictures : List Planes) (r : Refusal) → (encoding f pictures).refused ≡ Some r → r.have < r.need }
    ensures picture { (f : SessionSettings) (pictures : List Planes) (r : Refusal) → (encoding f pictures).refused ≡ Some r → r.picture < length pictures }
    ensures small { (s : Settings) (h : FilmHead) (f : SessionSettings) (pictures : List Planes) → AllowedHead h → setting_of s h ≡ Ok f → AreSmallUnits f pictures → (encoding f pictures).refused ≡ None }
{}

/// An encoding goes on group by group: behind whole groups of pictures none of which was refused, further pictures are coded from the state
/// in which those ended, and what is written is added. At most as many pictures as a group has are one group.
pub fn encodings_grow()
    ensures on { (f : SessionSettings) (groups : ℕ) (read : List Planes) (more : List Planes) → length read ≡ (place_after f groups).display
        → encoding f (read ++ more) ≡ go_on (λ t. encoding_from f t (steps_from f (place_after f groups) more)) (encoding f read) (encoding f read).refused }
    ensures behind { (f : SessionSettings) (groups : ℕ) (read : List Planes) (more : List Planes) → length read ≡ (place_after f groups).display → (encoding f read).refused ≡ None
        → encoding f (read ++ more) ≡ behind (encoding f read).done (encoding_from f (encoding f read).end (steps_from f (place_after f groups) more)) }
    ensures written { (f : SessionSettings) (groups : ℕ) (read : List Planes) (more : List Planes) → length read ≡ (place_after f groups).display → (encoding f read).refused ≡ None
        → written_to f (encoding f (read ++ more)).done ≡ joined (written_to f (encoding f read).done) (group_text f (encoding f read).end.ledger.units (encoding_from f (encoding f read).end (steps_from f (place_after f groups) more)).done) }
    ensures group { (f : SessionSettings) (p : Place) (more : List Planes) → 1 ≤ length more → length more ≤ full_at f p → steps_from f p more ≡ group_steps f p more }
    ensures place { (f : SessionSettings) (groups : ℕ) (p : Place) → place_from f (groups + 1) p ≡ place_behind f (place_from f groups p) (full_at f (place_from f groups p)) }
{}

/// The number of a group's reference picture has room: it is at most the IDR period.
pub fn numbers_fit()
    ensures { (f : SessionSettings) (groups : ℕ) → 1 ≤ f.idr → (place_after f groups).number ≤ f.idr }
{}

/// Of a film with a fault as many whole groups are coded as there are.
pub fn faulty_films_are_cut()
    ensures { (f : SessionSettings) (pictures : ℕ) → IsCut f pictures }
{}

/// What was written behind whole groups, none of whose pictures was refused, is the front of all that is written of the film.
pub fn outputs_have_fronts()
    ensures { (f : SessionSettings) (film : Film) (groups : ℕ) → (place_after f groups).display ≤ length (coded_pictures f film) → (encoding f (take (place_after f groups).display (coded_pictures f film))).refused ≡ None
        → AreFronts (written_to f (encoding f (take (place_after f groups).display (coded_pictures f film))).done) (outputs_of f film) }
{}
