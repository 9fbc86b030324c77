// The outside: an input, three outputs, and the counts of their faults.
ghost use Rattle.std.specs.Prelude.{◌≡◌, ◌<◌, ◌≤◌, [], length, take, MatchResult, IfSome, IfOk, ℕ, Bool, true, IsTrue};
ghost use Rattle.enc_edge.specs.Seen.{Seen, spot_at};
ghost use Rattle.enc_edge.specs.Calls.{OpeningFailed, LaterFailed, opened, shut, wrote, took};

/// One of the three outputs.
#[derive(Clone, Copy, Debug, PartialEq, Eq)]
pub enum Out {
    /// The coded video.
    Stream,
    /// The pictures as a decoder shows them.
    Recon,
    /// One line of text for each picture.
    Report,
}

/// The input, or one of the outputs.
#[derive(Clone, Copy, Debug, PartialEq, Eq)]
pub enum Place {
    /// Where the film is read from.
    Input,
    /// Where results are written to.
    Output(Out),
}

/// A call of a studio failed: the count of faults that is the call's own rose, and nothing else
/// changed.
#[derive(Clone, Copy, Debug, PartialEq, Eq)]
pub struct Failed;

/// An input and three outputs.
///
/// Of each place a studio keeps two counts of faults: one of its openings that failed, one of all
/// later calls on it that failed. They start anywhere, never fall, and stay at 2^64 − 1 once there.
/// A studio may also tell the bytes left of its input, the bytes written to each output, and under
/// which name each place was opened and closed; what it tells at one time, it tells always.
pub trait Studio {
    /// What it shows.
    ghost seen: { Self → Seen };

    /// Opens the input under this name. No bytes change. `Failed`: it could not be opened, and only
    /// the count of opening faults of the input changed.
    fn open_in(&mut self, name: &str) -> Result<(), Failed>
        ensures { MatchResult result
            (λ _. seen self.new ≡ opened Place.Input name.now (seen self.old))
            (λ _. OpeningFailed Place.Input (seen self.old) (seen self.new)) };

    /// Opens an output under this name. No bytes change. `Failed`: it could not be opened, and only
    /// the count of opening faults of that output changed.
    fn open_out(&mut self, out: Out, name: &str) -> Result<(), Failed>
        ensures { MatchResult result
            (λ _. seen self.new ≡ opened (Place.Output out) name.now (seen self.old))
            (λ _. OpeningFailed (Place.Output out) (seen self.old) (seen self.new)) };

    /// Takes the next bytes of the input into the front of the buffer, which isn't empty, and says
    /// how many; 0 is the end of the input. `Failed`: nothing was taken, and only the count of later
    /// faults of the input changed.
    fn read(&mut self, buf: &mut [u8]) -> Result<usize, Failed>
        requires { 0 < length buf.old }
        ensures count { IfOk result (λ n. n ≤ length buf.new) }
        ensures bytes { IfOk result (λ n. IfSome (spot_at Place.Input (seen self.old)).bytes (λ left.
            (n ≤ length left) × (take n buf.new ≡ take n left) × (n ≡ 0 → left ≡ []))) }
        ensures change { MatchResult result
            (λ n. seen self.new ≡ took Place.Input n (seen self.old))
            (λ _. LaterFailed Place.Input (seen self.old) (seen self.new)) };

    /// Appends the first of these bytes, which are one or more, to an output, and says how many: at
    /// least one. `Failed`: nothing was appended, and only the count of later faults of that output
    /// changed.
    fn write(&mut self, out: Out, bytes: &[u8]) -> Result<usize, Failed>
        requires { 0 < length bytes.now }
        ensures count { IfOk result (λ n. (0 < n) × (n ≤ length bytes.now)) }
        ensures change { MatchResult result
            (λ n. seen self.new ≡ wrote (Place.Output out) (take n bytes.now) (seen self.old))
            (λ _. LaterFailed (Place.Output out) (seen self.old) (seen self.new)) };

    /// Closes an output. No bytes change. `Failed`: only the count of later faults of that output
    /// changed.
    fn close_out(&mut self, out: Out) -> Result<(), Failed>
        ensures { MatchResult result
            (λ _. seen self.new ≡ shut (Place.Output out) (seen self.old))
            (λ _. LaterFailed (Place.Output out) (seen self.old) (seen self.new)) };
}

/// Who is asked once before each row of macroblocks is planned.
///
/// What is generic over gates knows that a row was let in by asking alone, since each gate has its own word for it.
pub trait Gate {
    /// Whether it let this row in.
    ghost let_in: { Self → ℕ → Bool };

    /// Returns when the row may be planned.
    fn enter(&self, row: u32)
        ensures { IsTrue (let_in self.now row) };
}

/// A gate that lets each row pass at once.
#[derive(Clone, Copy, Debug, Default, PartialEq, Eq)]
pub struct OpenGate;

impl Gate for OpenGate {
    ghost let_in = { λ gate row. true };

    fn enter(&self, _row: u32) {}
}
