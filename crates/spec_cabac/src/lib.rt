//! The arithmetic code of ITU-T H.264 (clause 9.3), as definitions, and the laws that its decoder reads it back.
#![tactic(auto)]

ghost use Rattle.std.specs.Prelude.{◌≡◌, ◌+◌, Bool, List, length};
ghost use Rattle.spec_cabac.specs.Bins.{Bin, EndsOnce};
ghost use Rattle.spec_cabac.specs.Code.{arith_code, run, coded_start};
ghost use Rattle.spec_cabac.specs.Law.{RoundTrip, ReadsAll, EndsInOne, Piece, pieces_code, AllEnd, ReadsPieces};

/// The decoder, asked with the kinds and states of a list of bins that ends once, gives the list and has taken exactly
/// the bits of its code, whatever follows them.
pub fn code_is_read_back()
    ensures { (bins : List Bin) (rest : List Bool) → EndsOnce bins → RoundTrip bins rest }
{}

/// The same for a reader that chooses each request by the answers before: the answers come one after another, and what
/// follows the code is left.
pub fn code_is_read_one_by_one()
    ensures { (bins : List Bin) (rest : List Bool) → EndsOnce bins → ReadsAll bins rest }
{}

/// The same for pieces, each with bits of other kinds behind it, where the decoder starts anew at each piece.
pub fn pieces_are_read_back()
    ensures { (pieces : List Piece) → AllEnd pieces → ReadsPieces pieces (pieces_code pieces) }
{}

/// The last bit of a code is 1, so it serves as the stop bit of a slice's data.
pub fn code_ends_in_one()
    ensures ends { (bins : List Bin) → EndsInOne (arith_code bins) }
    ensures size { (bins : List Bin) → length (arith_code bins) ≡ (run bins coded_start).shifts + 9 }
{}
