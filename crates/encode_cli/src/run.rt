// The top call.
ghost use Rattle.std.specs.Prelude.{◌≡◌, List, ℕ, Some, map};
ghost use Rattle.clap.specs.Words.{Kinds};
ghost use Rattle.enc_edge.specs.Seen.{Seen};
ghost use Rattle.spec_film.specs.Films.{film_of};
ghost use Rattle.spec_words.specs.declared.command.Made.{Made};
ghost use Rattle.spec_words.specs.declared.command.Outputs.{Outputs};
ghost use Rattle.spec_words.specs.declared.command.Settings.{Settings};
ghost use Rattle.spec_words.specs.declared.command.WordFault.{WordFault};
ghost use Rattle.spec_words.specs.Commands.{Faulty, Means, Refuses, meaning_of};
ghost use Rattle.encode_film.specs.Outputs.{named};
ghost use Rattle.encode_film.specs.Runs.{Encoded, NoFault};
ghost use Rattle.store_film.specs.Runs.{Stored};
ghost use Rattle.encode_cli.specs.Doing.{Does, HasFault, RefusedByClap};
ghost use Rattle.encode_cli.specs.Encoding.{EncodeAnswers, EncodeLeaves};
ghost use Rattle.encode_cli.specs.Storing.{StoreAnswers, StoreLeaves};
ghost use Rattle.encode_cli.specs.Trials.{TrialEncoded, TrialLeaves, film_made};

use crate::films::{encode_made, encode_named};
use crate::outcome::{Outcome, stored_outcome};
use enc_edge::{Gate, Studio};
use encode_words::{Command, WordsEnd, settings};
use store_film::store;

// Does what the words ask.
fn answer<R: AllocGlobal, S: Studio, G: Gate + Sync>(
    rt: &R,
    words: &[&str],
    studio: &mut S,
    gate: &G,
) -> Outcome
    ensures { Does (meaning_of (map (λ w. w.now) words.now)) (S.seen studio.old) (S.seen studio.new) result }
{
    match settings(rt.alloc(), words) {
        Ok(Command::Store { input, output }) => {
            stored_outcome(store(rt.alloc(), input.as_str(), output.as_str(), studio))
        }
        Ok(
            Command::Encode {
                input,
                outputs,
                settings,
            },
        ) => encode_named(rt, &input, &outputs, &settings, studio, gate),
        Ok(
            Command::Trial {
                made,
                outputs,
                settings,
            },
        ) => encode_made(rt, &made, &outputs, &settings, studio, gate),
        Err(WordsEnd::Fault(fault)) => Outcome::Words(fault),
        Err(WordsEnd::OutOfMemory) => Outcome::OutOfMemory,
    }
}

/// Does what the words ask, over a studio: `store` writes a film as a stream of samples as they are, `encode` encodes a
/// film, and `trial` encodes a film that is made from a number.
///
/// The words are those of the command line without the program's own name. The gate is asked before each row of
/// macroblocks is planned; `store` plans none. The first failure ends the run.
pub fn run<R: AllocGlobal, S: Studio, G: Gate + Sync>(
    rt: &R,
    words: &[&str],
    studio: &mut S,
    gate: &G,
) -> Outcome
    // Words are refused exactly where they are no command, with a fault that they have, and nothing outside is touched
    // then. Where it is clap that refuses them, memory may be wanting too.
    ensures words { (fault : WordFault) → result ≡ Outcome.Words fault → HasFault (meaning_of (map (λ w. w.now) words.now)) fault × (S.seen studio.new ≡ S.seen studio.old) }
    ensures refused { (fault : WordFault) → meaning_of (map (λ w. w.now) words.now) ≡ Faulty fault → (result ≡ Outcome.Words fault) × (S.seen studio.new ≡ S.seen studio.old) }
    ensures refused_by_clap { (kinds : Kinds) → meaning_of (map (λ w. w.now) words.now) ≡ Refuses kinds → RefusedByClap kinds result × (S.seen studio.new ≡ S.seen studio.old) }

    // A film that was encoded: every decoder shows of the stream exactly the written reconstruction, one picture for
    // each picture of the film; what it reads is what the written choice fixes; the receiver's buffer neither underflows
    // nor overflows; and the run is closed.
    ensures encoded { (input : List ℕ) → (outputs : Outputs) → (settings : Settings) → meaning_of (map (λ w. w.now) words.now) ≡ Means (Command.Encode input outputs settings) → result ≡ Outcome.Done → Encoded (named input outputs) settings (S.seen studio.old) (S.seen studio.new) }

    // So it is of a film that was made from a number.
    ensures tried { (made : Made) → (outputs : Outputs) → (settings : Settings) → meaning_of (map (λ w. w.now) words.now) ≡ Means (Command.Trial made outputs settings) → result ≡ Outcome.Done → TrialEncoded made outputs settings (S.seen studio.old) (S.seen studio.new) }

    // A film that was stored: every decoder shows of the stream exactly the film.
    ensures stored { (input : List ℕ) → (output : List ℕ) → meaning_of (map (λ w. w.now) words.now) ≡ Means (Command.Store input output) → result ≡ Outcome.Done → Stored input output (S.seen studio.old) (S.seen studio.new) }

    // What each answer to a command leaves behind.
    ensures encode_left { (input : List ℕ) → (outputs : Outputs) → (settings : Settings) → meaning_of (map (λ w. w.now) words.now) ≡ Means (Command.Encode input outputs settings) → EncodeLeaves (named input outputs) settings (S.seen studio.old) (S.seen studio.new) result }
    ensures trial_left { (made : Made) → (outputs : Outputs) → (settings : Settings) → meaning_of (map (λ w. w.now) words.now) ≡ Means (Command.Trial made outputs settings) → TrialLeaves made outputs settings (S.seen studio.old) (S.seen studio.new) result }
    ensures store_left { (input : List ℕ) → (output : List ℕ) → meaning_of (map (λ w. w.now) words.now) ≡ Means (Command.Store input output) → StoreLeaves input output (S.seen studio.old) (S.seen studio.new) result }

    // A trial neither opens nor reads the outside's own input.
    ensures trial_input { (made : Made) → (outputs : Outputs) → (settings : Settings) → meaning_of (map (λ w. w.now) words.now) ≡ Means (Command.Trial made outputs settings) → (S.seen studio.new).input ≡ (S.seen studio.old).input }

    // Where nothing outside failed, the film and the settings alone decide the answer, or memory was wanting.
    ensures encode_answers { (input : List ℕ) → (outputs : Outputs) → (settings : Settings) → (left : List ℕ) → meaning_of (map (λ w. w.now) words.now) ≡ Means (Command.Encode input outputs settings) → (S.seen studio.old).input.bytes ≡ Some left
        → NoFault (S.seen studio.old) (S.seen studio.new) → EncodeAnswers settings (film_of left) result }
    ensures trial_answers { (made : Made) → (outputs : Outputs) → (settings : Settings) → meaning_of (map (λ w. w.now) words.now) ≡ Means (Command.Trial made outputs settings)
        → NoFault (S.seen studio.old) (S.seen studio.new) → EncodeAnswers settings (film_of (film_made made)) result }
    ensures store_answers { (input : List ℕ) → (output : List ℕ) → (left : List ℕ) → meaning_of (map (λ w. w.now) words.now) ≡ Means (Command.Store input output) → (S.seen studio.old).input.bytes ≡ Some left
        → NoFault (S.seen studio.old) (S.seen studio.new) → StoreAnswers (film_of left).end result }
{
    answer(rt, words, studio, gate)
}
