// Encodings of films, by their names or made from numbers.
ghost use Rattle.std.specs.Prelude.{◌≡◌, ◌≤◌, List, ℕ, [], None};
ghost use Rattle.enc_edge.specs.Films.{film_seen, lender_of};
ghost use Rattle.enc_edge.specs.Seen.{Seen};
ghost use Rattle.spec_words.specs.Choices.{early_of};
ghost use Rattle.spec_session.specs.Settings.{AreInRange};
ghost use Rattle.encode_film.specs.Outputs.{named};
ghost use Rattle.encode_cli.specs.Doing.{EncodeDecided, TrialDecided};
ghost use Rattle.encode_cli.specs.Encoding.{EncodeLeaves, FilmLeaves};
ghost use Rattle.encode_cli.specs.Trials.{InFilm, TrialLeaves, film_made};

use crate::outcome::{Outcome, outcome_of};
use enc_edge::{Gate, Studio, WithFilm};
use encode_film::encode;
use encode_words::{Made, Name, Outputs, Settings, early};
use film_maker::make;

/// Encodes the film of this name, unless the settings are refused whatever the film is.
pub fn encode_named<R: AllocGlobal, S: Studio, G: Gate + Sync>(
    rt: &R,
    input: &Name,
    outputs: &Outputs,
    settings: &Settings,
    studio: &mut S,
    gate: &G,
) -> Outcome
    requires range { AreInRange settings.now }
    ensures left { EncodeLeaves (named input.now outputs.now) settings.now (S.seen studio.old) (S.seen studio.new) result }
    ensures decided { EncodeDecided settings.now (S.seen studio.old) (S.seen studio.new) result }
{
    match early(settings) {
        Some(fault) => Outcome::Setting(fault),
        None => outcome_of(encode(rt, input.as_str(), outputs, settings, studio, gate)),
    }
}

// Encodes the film of a studio that has one in memory. The studio behind it is the same one then.
fn encode_filmed<R: AllocGlobal, S: Studio, G: Gate + Sync>(
    rt: &R,
    filmed: &mut WithFilm<'_, S>,
    outputs: &Outputs,
    settings: &Settings,
    gate: &G,
) -> Outcome
    requires range { AreInRange settings.now }
    requires early { early_of settings.now ≡ None }
    ensures same_reference { lender_of filmed.new ≡ lender_of filmed.old }
    ensures left { FilmLeaves (named [] outputs.now) settings.now (film_seen S.seen filmed.old) (film_seen S.seen filmed.new) result }
    ensures decided { EncodeDecided settings.now (film_seen S.seen filmed.old) (film_seen S.seen filmed.new) result }
{
    outcome_of(encode(rt, "", outputs, settings, filmed, gate))
}

// Encodes a film in memory, whose outputs are those of the studio.
fn encode_within<R: AllocGlobal, S: Studio, G: Gate + Sync>(
    rt: &R,
    film: Vec<u8>,
    outputs: &Outputs,
    settings: &Settings,
    studio: &mut S,
    gate: &G,
) -> Outcome
    requires range { AreInRange settings.now }
    requires early { early_of settings.now ≡ None }
    ensures left { InFilm (λ before after. FilmLeaves (named [] outputs.now) settings.now before after result) film.items (S.seen studio.old) (S.seen studio.new) }
    ensures decided { TrialDecided film.items settings.now (S.seen studio.old) (S.seen studio.new) result }
{
    let mut filmed = WithFilm::new(film, studio);
    let outcome = encode_filmed(rt, &mut filmed, outputs, settings, gate);
    let _ = filmed.into_inner();
    outcome
}

/// Encodes the film that a number makes, unless the settings are refused whatever the film is. The studio's own input
/// isn't touched.
pub fn encode_made<R: AllocGlobal, S: Studio, G: Gate + Sync>(
    rt: &R,
    made: &Made,
    outputs: &Outputs,
    settings: &Settings,
    studio: &mut S,
    gate: &G,
) -> Outcome
    requires range { AreInRange settings.now }
    requires width { made.now.width ≤ 1920 }
    requires height { made.now.height ≤ 1088 }
    requires count { made.now.count ≤ 300 }
    ensures left { TrialLeaves made.now outputs.now settings.now (S.seen studio.old) (S.seen studio.new) result }
    ensures decided { TrialDecided (film_made made.now) settings.now (S.seen studio.old) (S.seen studio.new) result }
{
    if let Some(fault) = early(settings) {
        return Outcome::Setting(fault);
    }
    match make(rt.alloc(), made.seed, made.width, made.height, made.count) {
        Ok(film) => encode_within(rt, film, outputs, settings, studio, gate),
        Err(_) => Outcome::OutOfMemory,
    }
}
