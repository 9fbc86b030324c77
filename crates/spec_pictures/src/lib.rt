//! What a decoder shows of a stream, as a definition that leaves open what slices are, and the law that it shows the
//! pictures of a stream in their output order.
#![tactic(auto)]

ghost use Rattle.std.specs.List.{IsDistinct};
ghost use Rattle.std.specs.Prelude.{◌≡◌, ◌<◌, nat_eq, Bool, List, [], None, Some, false, map};
ghost use Rattle.spec_headers.specs.declared.heads.SeqHead.{SeqHead};
ghost use Rattle.spec_headers.specs.Allowed.{IsSeqHead};
ghost use Rattle.spec_decoder.specs.Pictures.{Reading, decode_by, read_by};
ghost use Rattle.spec_pictures.specs.Accesses.{Access, AllCoded, AreOthers, Follows, accesses_bytes, places_of, pictures_shown, slices_of_accesses};
ghost use Rattle.spec_pictures.specs.Coded.{CodedSlice, AllCover, stream_of, shown_of, slices_of_each};

/// A decoder shows of a stream the pictures that the slices of each one make, with the references in view that the
/// slices before leave it, in display order (clauses 8.2.5.3 and C.4.5). Each slice's payload is read as the slice, the
/// slices of a picture cover its macroblocks in order, each once, and the headers say what the steps of the plan do; no
/// two pictures have the same place in display order, and of two IDR pictures, one after the other, each has its own
/// idr_pic_id.
#[tactic(auto, using(crate::proofs::Streams::streams_decode))]
pub fn streams_decode<S>()
    ensures pictures { (r : Reading S) (s : SeqHead) (flags : Bool × Bool) (accesses : List (Access S)) → IsSeqHead s → s.level < 256 → AllCoded r s flags [] accesses → Follows false 0 0 0 (map (λ a. a.step) accesses) → IsDistinct nat_eq (places_of accesses) → AreOthers r None (slices_of_accesses accesses) → decode_by r (accesses_bytes s flags accesses) ≡ Some (pictures_shown r s accesses) }
{}

/// A decoder reads of such a stream exactly the slices of each picture, in coded order.
#[tactic(auto, using(crate::proofs::Streams::streams_are_read))]
pub fn streams_are_read<S>()
    ensures slices { (r : Reading S) (s : SeqHead) (flags : Bool × Bool) (accesses : List (Access S)) → IsSeqHead s → s.level < 256 → AllCoded r s flags [] accesses → Follows false 0 0 0 (map (λ a. a.step) accesses) → IsDistinct nat_eq (places_of accesses) → AreOthers r None (slices_of_accesses accesses) → read_by r (accesses_bytes s flags accesses) ≡ Some (slices_of_accesses accesses) }
{}

/// A decoder shows of a stream of IDR pictures the picture that each one's slices make, in their order, where each
/// slice's payload is read as the slice, the slices cover the picture's macroblocks in order, each once, their headers
/// agree, and of two pictures, one after the other, each has its own idr_pic_id.
#[tactic(auto, using(crate::proofs::Idr::idr_streams_decode))]
pub fn idr_streams_decode<S>()
    ensures pictures { (r : Reading S) (s : SeqHead) (flags : Bool × Bool) (pictures : List (List (CodedSlice S))) → IsSeqHead s → s.level < 256 → AllCover r s flags None pictures → decode_by r (stream_of s flags pictures) ≡ Some (shown_of r s pictures) }
{}

/// A decoder reads of such a stream exactly the slices of each picture, in their order.
#[tactic(auto, using(crate::proofs::Idr::idr_streams_are_read))]
pub fn idr_streams_are_read<S>()
    ensures slices { (r : Reading S) (s : SeqHead) (flags : Bool × Bool) (pictures : List (List (CodedSlice S))) → IsSeqHead s → s.level < 256 → AllCover r s flags None pictures → read_by r (stream_of s flags pictures) ≡ Some (slices_of_each pictures) }
{}
