//! Slices in arithmetic code, as definitions: what a payload is read as, the payload of a slice, and the law that it is
//! read back (ITU-T H.264, clause 7.3.2.8).
#![tactic(auto)]

ghost use Rattle.std.specs.Prelude.{ℕ, ◌<◌, Bool, true, false, ◌≡◌, List, [], ◌∷◌, ◌++◌, length, get_or, Some};
ghost use Rattle.enc_tables.specs.declared.records.MbRecord.{MbRecord};
ghost use Rattle.enc_tables.specs.Kinds.{is_intra, has_motion};
ghost use Rattle.spec_headers.specs.declared.SliceHead.{SliceHead};
ghost use Rattle.spec_slice_data.specs.Coding.{AreWritten};
ghost use Rattle.spec_lists.specs.References.{Reference};
ghost use Rattle.spec_lists.specs.Lists.{Lists, no_lists, lists_of};
ghost use Rattle.spec_lists.specs.Colocated.{colocated_at};
ghost use Rattle.spec_intra.specs.declared.Avail.{Avail};
ghost use Rattle.spec_macroblock.specs.Records.{IsRecord};
ghost use Rattle.spec_partitions.specs.Near.{Near};
ghost use Rattle.enc_tables.specs.Records.{no_record};
ghost use Rattle.spec_partitions.specs.InRange.{AllFit, HasEntries};
ghost use Rattle.spec_partitions.specs.Small.{AllSmall};
ghost use Rattle.spec_slice_payload.specs.Allowed.{modes_allowed};
ghost use Rattle.spec_slice_payload.specs.Layer.{Format, Colocated, Slice, near_of};
ghost use Rattle.spec_slice_payload.specs.Slices.{IsSlice, IsNext, AreRecords, NeighboursHaveModes};
ghost use Rattle.spec_slice_payload.specs.Reading.{macroblock_after, read_layer};
ghost use Rattle.spec_slice_payload.specs.Writing.{string_after, layer_payload};

/// A slice's payload is read back as its header and its macroblocks, exactly: each record that the syntax can give
/// behind those before it is read as itself, reading stops at the first end_of_slice_flag that is 1, the last bit that
/// the arithmetic decoder takes is the stop bit, and zeros to the byte end the payload. The slice's header names lists
/// of the held references, and motion is derived with the co-located motion of list 1; a slice of an IDR picture has no
/// lists, whatever is held.
pub fn layers_are_read_back()
    ensures all { (f : Format) (idr : Bool) (held : List Reference) (lists : Lists) (s : Slice) → lists_of s.head held ≡ Some lists → IsSlice f (colocated_at lists) idr s → read_layer f idr held (layer_payload f s) ≡ Some s }
    ensures idr { (f : Format) (held : List Reference) (s : Slice) → IsSlice f (colocated_at no_lists) true s → read_layer f true held (layer_payload f s) ≡ Some s }
{}

/// The macroblocks of such a slice are what the laws on slice data ask for: each is read back from its bins, and none
/// of them ends the code.
pub fn slices_are_written()
    ensures { (f : Format) (c : Colocated) (idr : Bool) (s : Slice) → IsSlice f c idr s → AreWritten (macroblock_after f c s.head) (string_after f s.head) s.records }
{}

/// A slice grows by a record at a time, each one that the syntax can give behind those before it; what is asked there
/// of the modes of the neighbours then holds. Of an inter macroblock nothing is asked about modes.
pub fn records_are_added()
    ensures one_more { (f : Format) (c : Colocated) (h : SliceHead) (records : List MbRecord) (mb : MbRecord) → AreRecords f c h [] records → IsNext f c h records mb → AreRecords f c h [] (records ++ mb ∷ []) }
    ensures neighbours { (f : Format) (c : Colocated) (h : SliceHead) (records : List MbRecord) → AreRecords f c h [] records → NeighboursHaveModes (near_of f h records) }
    ensures inter { (near : Near) (avail : Avail) (mb : MbRecord) → IsRecord near mb → is_intra mb.kind ≡ false → modes_allowed avail mb ≡ true }
{}

/// In a slice whose lists have entries, as its type needs them, the references of each block of its macroblocks are
/// below the lengths of the lists, also where they aren't written; and no vector is longer than the longest of those
/// that are written.
pub fn motion_stays_in_range()
    ensures references { (f : Format) (c : Colocated) (h : SliceHead) (records : List MbRecord) → 0 < f.across → HasEntries h.kind h.refs0 h.refs1 → AreRecords f c h [] records → (i : ℕ) → i < length records → AllFit h.refs0 h.refs1 (get_or records i no_record).motion }
    ensures vectors { (most : ℕ) (f : Format) (c : Colocated) (h : SliceHead) (records : List MbRecord) → 0 < f.across → AreRecords f c h [] records
        → ((i : ℕ) → i < length records → has_motion (get_or records i no_record).kind ≡ true → AllSmall most (get_or records i no_record).motion)
        → (i : ℕ) → i < length records → AllSmall most (get_or records i no_record).motion }
{}
