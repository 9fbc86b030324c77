// What is known of two runs.
ghost use Rattle.std.specs.Prelude.{◌≡◌, ℕ, List, Some};
ghost use Rattle.enc_edge.specs.Seen.{Seen};
ghost use Rattle.spec_words.specs.declared.command.Made.{Made};
ghost use Rattle.spec_words.specs.declared.command.Outputs.{Outputs};
ghost use Rattle.spec_words.specs.declared.command.Settings.{Settings};
ghost use Rattle.spec_session.specs.Settings.{with_workers};
ghost use Rattle.encode_film.specs.Outputs.{Names};
ghost use Rattle.encode_film.specs.Runs.{Encoded};
ghost use Rattle.encode_cli.specs.Alike.{WroteAlike};
ghost use Rattle.encode_cli.specs.Trials.{TrialEncoded};

/// How many threads plan a picture settles nothing of what is written: two runs that came to their end, over equal
/// inputs and by settings that differ in that number alone, wrote equal streams, reconstructions and reports.
pub fn workers_settle_nothing_written()
    ensures encoded { (names : Names) → (others : Names) → (s : Settings) → (workers : ℕ) → (left : List ℕ) → (old : Seen) → (new : Seen) → (old2 : Seen) → (new2 : Seen) → old.input.bytes ≡ Some left → old2.input.bytes ≡ Some left
        → Encoded names s old new → Encoded others (with_workers workers s) old2 new2 → WroteAlike old new old2 new2 }
    ensures tried { (made : Made) → (outputs : Outputs) → (others : Outputs) → (s : Settings) → (workers : ℕ) → (old : Seen) → (new : Seen) → (old2 : Seen) → (new2 : Seen)
        → TrialEncoded made outputs s old new → TrialEncoded made others (with_workers workers s) old2 new2 → WroteAlike old new old2 new2 }
{}
