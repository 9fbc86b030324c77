//! The data of slices in arithmetic code (ITU-T H.264, clauses 7.3.4 and 9.3), whatever their macroblocks are: bins as
//! requests to the arithmetic decoder, whose states follow the bins, macroblocks one after another with
//! end_of_slice_flag behind each, and the laws that a slice's code is read back.
#![tactic(auto)]

ghost use Rattle.std.specs.Prelude.{◌≡◌, ℕ, ◌+◌, ◌≤◌, ◌<◌, Bool, List, [], ◌∷◌, ◌++◌, length, get_or, take, Some};
ghost use Rattle.enc_tables.specs.declared.records.CtxState.{CtxState};
ghost use Rattle.spec_cabac.specs.Law.{EndsInOne};
ghost use Rattle.spec_syntax.specs.declared.Bin.{Bin};
ghost use Rattle.spec_syntax.specs.Syntax.{Syntax, Reads};
ghost use Rattle.spec_slice_data.specs.Coding.{GoesOn, asked, slice_string, slice_code, strings_of, ended_string, AreWritten, IsReadBack};
ghost use Rattle.spec_slice_data.specs.Decoding.{after_all};
ghost use Rattle.spec_slice_data.specs.Slice.{slice_data};

/// Where each macroblock's reader reads its string back, the reader of a slice's data reads the slice's string back,
/// over bins; and so does the arithmetic decoder from the slice's code: it gives exactly the macroblocks, and has taken
/// exactly the code's bits, whatever follows them. The code's last bit is 1. `n` is how many macroblocks the slice has
/// at most.
pub fn slices_are_read_back<R>()
    ensures bins { (mb : List R → Syntax R) (string : List R → R → List Bin) (n : ℕ) (records : List R) → length records ≤ n → AreWritten mb string records → Reads (slice_data mb n []) (slice_string string records) records }
    ensures code { (mb : List R → Syntax R) (string : List R → R → List Bin) (n : ℕ) (states : List CtxState) (records : List R) (rest : List Bool) → length records ≤ n → AreWritten mb string records → IsReadBack mb string n states records rest }
    ensures ends { (string : List R → R → List Bin) (states : List CtxState) (records : List R) → EndsInOne (slice_code string states records) }
{}

/// The bins of a slice grow by those of one macroblock at a time.
pub fn slices_grow<R>()
    ensures none { (string : List R → R → List Bin) (n : ℕ) → strings_of string n [] ≡ [] }
    ensures one_more { (string : List R → R → List Bin) (n : ℕ) (before : List R) (record_ : R) → strings_of string n (before ++ record_ ∷ []) ≡ strings_of string n before ++ ended_string string n before record_ }
    ensures next { (string : List R → R → List Bin) (n : ℕ) (records : List R) (k : ℕ) (unused : R) → k < length records → strings_of string n (take (k + 1) records) ≡ strings_of string n (take k records) ++ ended_string string n (take k records) (get_or records k unused) }
{}

/// Bins after bins: what is asked for, and the states, go on from those after the first ones.
pub fn bins_follow_bins()
    ensures asked { (states : List CtxState) (first : List Bin) (others : List Bin) → asked states (first ++ others) ≡ asked states first ++ asked (after_all states first) others }
    ensures states { (states : List CtxState) (first : List Bin) (others : List Bin) → after_all states (first ++ others) ≡ after_all (after_all states first) others }
{}
