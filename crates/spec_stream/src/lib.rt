//! Streams that store a film, and parts of what a decoder shows of a stream, as definitions, with the laws that join them.
#![tactic(auto)]

ghost use Rattle.std.specs.Prelude.{◌≡◌, ℕ, List, Some};
ghost use Rattle.std.specs.List.{All};
ghost use Rattle.spec_bits.specs.Bits.{IsByte, bytes_of_bits};
ghost use Rattle.spec_film.specs.declared.FilmHead.{FilmHead};
ghost use Rattle.spec_film.specs.Films.{Planes, AllowedHead, film_of};
ghost use Rattle.spec_stream.specs.Pictures.{IsPicture};
ghost use Rattle.spec_stream.specs.Stored.{mbs_across, mbs_down, macroblocks_of, stored_slice_head, stored_slice_bits};
ghost use Rattle.spec_decoder.specs.Pcm.{read_pcm_slice};
ghost use Rattle.spec_film.specs.Cropping.{cropped, shown};
ghost use Rattle.spec_stream.specs.Samples.{picture_from};

/// The slice of a stored picture is read back: its header, and the samples of all its macroblocks in order.
pub fn stored_slices_are_read()
    ensures { (h : FilmHead) (number : ℕ) (p : Planes) → AllowedHead h → IsPicture h p → read_pcm_slice (bytes_of_bits (stored_slice_bits (mbs_across h) (mbs_down h) number p)) ≡ Some (stored_slice_head number, macroblocks_of (mbs_across h) (mbs_down h) p) }
{}

/// The macroblocks of a picture make this picture; what is shown of it has the head's sizes.
pub fn macroblocks_make_their_picture()
    ensures { (h : FilmHead) (p : Planes) → AllowedHead h → IsPicture h p → cropped (mbs_across h) h.width h.height (picture_from (mbs_across h) (mbs_down h) (macroblocks_of (mbs_across h) (mbs_down h) p)) ≡ shown h p }
{}

/// The pictures of a film that has a head are pictures of this head, which is an allowed one.
pub fn films_have_pictures()
    ensures { (bytes : List ℕ) (h : FilmHead) → All IsByte bytes → (film_of bytes).head ≡ Some h → AllowedHead h × All (IsPicture h) (film_of bytes).pictures }
{}
