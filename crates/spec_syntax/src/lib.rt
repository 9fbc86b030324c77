//! The syntax elements of ITU-T H.264 in arithmetic code: their bin strings (clause 9.3.2) with the contexts of the
//! bins (clause 9.3.3.1), the readers that ask for the bins, and the laws that these read the strings back.
#![tactic(auto)]

ghost use Rattle.std.specs.Prelude.{◌≡◌, ℕ, ◌<◌, ◌≤◌, ◌+◌, Bool, List, ℤ, length, map, IsFalse};
ghost use Rattle.std.specs.List.{AllByRecursion};
ghost use Rattle.spec_syntax.specs.declared.Bin.{Bin};
ghost use Rattle.spec_syntax.specs.declared.ListUse.{ListUse};
ghost use Rattle.spec_syntax.specs.Syntax.{Syntax, Reads, ReadsAhead, StandsAlone, flag, flag_string};
ghost use Rattle.spec_syntax.specs.Elements.{IntraType, IsIntraType, IsDelta, intra_type, intra_type_string, mode_rem, mode_rem_string, chroma_mode, chroma_mode_string, luma_pattern, luma_pattern_string, chroma_pattern, chroma_pattern_string, qp_delta, qp_delta_string};
ghost use Rattle.spec_syntax.specs.Inter.{PType, IsPType, p_type, p_type_string, BType, IsBType, b_type, b_type_string, sub_type, sub_type_string, ref_index, ref_index_string, IsDifference, mvd, mvd_string};
ghost use Rattle.spec_syntax.specs.Blocks.{IsLevel, none, nonzero, block, block_string, some_levels, some_levels_string};
ghost use Rattle.spec_syntax.specs.Levels.{minus1, minus1_string};

/// A bin of the arithmetic code.
#[derive(Clone, Copy, Debug, Default, PartialEq, Eq)]
pub struct Bin {
    /// The context's number (ctxIdx); 276 where it is a bin before termination, and 1000 where it is coded by bypass.
    pub ctx: u16,
    /// The bin's value.
    pub bit: bool,
}

/// Which reference lists a partition is predicted from (table 7-14).
#[derive(Clone, Copy, Debug, PartialEq, Eq)]
pub enum ListUse {
    /// List 0.
    L0,
    /// List 1.
    L1,
    /// Both lists.
    Bi,
}

/// A reader that reads a string asks for exactly its contexts, gives the value and leaves what follows, whatever that
/// is. So no string that a reader reads begins another one that it reads, and an element's bins need no other end.
pub fn readings_end<V>()
    ensures ahead { (s : Syntax V) (bins : List Bin) (v : V) → Reads s bins v → ReadsAhead s bins v }
    ensures alone { (s : Syntax V) → StandsAlone s }
{}

/// Each element's string, for every value in its range and every increment, is read back as the value.
pub fn strings_are_read_back()
    ensures flag { (context : ℕ) (value : Bool) → Reads (flag context) (flag_string context value) value }
    ensures mb_type { (inc : ℕ) (t : IntraType) → IsIntraType t → Reads (intra_type inc) (intra_type_string inc t) t }
    ensures mode_rem { (rem : ℕ) → rem < 8 → Reads mode_rem (mode_rem_string rem) rem }
    ensures chroma_mode { (inc : ℕ) (mode : ℕ) → mode < 4 → Reads (chroma_mode inc) (chroma_mode_string inc mode) mode }
    ensures luma_pattern { (inc : List Bool → ℕ) (pattern : ℕ) → pattern < 16 → Reads (luma_pattern inc) (luma_pattern_string inc pattern) pattern }
    ensures chroma_pattern { (first : ℕ) (second : ℕ) (pattern : ℕ) → pattern < 3 → Reads (chroma_pattern first second) (chroma_pattern_string first second pattern) pattern }
    ensures qp_delta { (inc : ℕ) (delta : ℤ) → IsDelta delta → Reads (qp_delta inc) (qp_delta_string inc delta) delta }
    ensures level { (first : ℕ) (others : ℕ) (m : ℕ) → m ≤ 8190 → Reads (minus1 first others) (minus1_string first others m) m }
{}

/// The same for the elements that P and B slices add.
pub fn inter_strings_are_read_back()
    ensures p_type { (t : PType) → IsPType t → Reads p_type (p_type_string t) t }
    ensures b_type { (inc : ℕ) (t : BType) → IsBType t → Reads (b_type inc) (b_type_string inc t) t }
    ensures sub_type { (u : ListUse) → Reads sub_type (sub_type_string u) u }
    ensures ref_index { (inc : ℕ) (index : ℕ) → index < 4 → Reads (ref_index inc) (ref_index_string inc index) index }
    ensures mvd { (vertical : Bool) (inc : ℕ) (d : ℤ) → IsDifference d → Reads (mvd vertical inc) (mvd_string vertical inc d) d }
{}

/// The levels of a residual block are read back from their string: of a block with a coded flag, and of one that is
/// known to have a level.
pub fn blocks_are_read_back()
    ensures coded { (category : ℕ) (inc : ℕ) (n : ℕ) (levels : List ℤ) → length levels ≡ n + 1 → AllByRecursion IsLevel levels → Reads (block category inc n) (block_string category inc n levels) levels }
    ensures some { (category : ℕ) (n : ℕ) (levels : List ℤ) → length levels ≡ n + 1 → IsFalse (none (map nonzero levels)) → AllByRecursion IsLevel levels → Reads (some_levels category n) (some_levels_string category n levels) levels }
{}

/// Whatever bins are read, a level is at most 8191 in size, and a vector difference at most 2^15: of a greater one the
/// readers give nothing.
pub fn readings_are_in_range()
    ensures level { (first : ℕ) (others : ℕ) (bins : List Bin) (m : ℕ) → Reads (minus1 first others) bins m → m ≤ 8190 }
    ensures coded { (category : ℕ) (inc : ℕ) (n : ℕ) (bins : List Bin) (levels : List ℤ) → Reads (block category inc n) bins levels → AllByRecursion IsLevel levels }
    ensures some { (category : ℕ) (n : ℕ) (bins : List Bin) (levels : List ℤ) → Reads (some_levels category n) bins levels → AllByRecursion IsLevel levels }
    ensures mvd { (vertical : Bool) (inc : ℕ) (bins : List Bin) (d : ℤ) → Reads (mvd vertical inc) bins d → IsDifference d }
{}
