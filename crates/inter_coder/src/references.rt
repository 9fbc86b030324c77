// The references that a block's motion names.
ghost use Rattle.std.specs.Prelude.{◌≡◌, ◌<◌, ℕ, Bool, true, pos, negsuc, length, map, slice_index_or, Some};
ghost use Rattle.enc_tables.specs.Records.{zero_vector, is_used};
ghost use Rattle.picture_planes.specs.Pictures.{planes_of};
ghost use Rattle.spec_partitions.specs.Records.{RefFits};
ghost use Rattle.spec_reconstruction.specs.Inter.{source_at};
ghost use Rattle.ref_lists.specs.Entries.{entries, ArePlaces};
ghost use Rattle.ref_lists.specs.Held.{all_seen, AreHeld, IsMade, IsReady};
ghost use Rattle.inter_coder.specs.Given.{places_in};

use enc_tables::{Motion, Vector};
use ref_lists::{Lists, Reference};

/// Whether a block's motion uses a list.
#[inline(always)]
pub fn uses(list: u8, motion: &Motion) -> bool
    requires { list < 2 }
    ensures { result ≡ is_used (slice_index_or motion.now.refs list (negsuc 0)) }
{
    motion.refs[list as usize] >= 0
}

/// The entries of a list, as places among the references that are held.
#[inline(always)]
pub fn places_of<'a>(lists: &'a Lists<'_>, list: u8) -> &'a [u8]
    requires { list < 2 }
    ensures { result.now ≡ places_in list lists.now }
{
    if list == 0 {
        return lists.list0.as_slice();
    }
    lists.list1.as_slice()
}

// The index of a block's reference in a list that it uses.
#[inline(always)]
fn index_of(list: u8, motion: &Motion) -> u8
    requires list { list < 2 }
    requires used { is_used (slice_index_or motion.now.refs list (negsuc 0)) ≡ true }
    ensures { pos result ≡ slice_index_or motion.now.refs list (negsuc 0) }
{
    motion.refs[list as usize] as u8
}

/// The reference that a block's motion names in a list that it uses, whose entries are places among those that are held.
#[inline(always)]
pub fn reference_at<'a>(
    held: &'a [Reference],
    places: &[u8],
    list: u8,
    motion: &Motion,
) -> &'a Reference
    requires list { list < 2 }
    requires inside { ArePlaces (length held.now) places.now }
    requires fits { RefFits (length places.now) (slice_index_or motion.now.refs list (negsuc 0)) }
    requires used { is_used (slice_index_or motion.now.refs list (negsuc 0)) ≡ true }
    ensures planes { source_at (map (λ r. r.planes) (entries (all_seen held.now) places.now)) (slice_index_or motion.now.refs list (negsuc 0)) ≡ Some (planes_of result.now.picture) }
    ensures ready { (width height : ℕ) → AreHeld width height held.now → IsMade width height result.now × IsReady result.now }
{
    let index = index_of(list, motion);
    let place = places[index as usize];
    &held[place as usize]
}

/// The vector of a block's motion in a list.
#[inline(always)]
pub fn vector_at(list: u8, motion: &Motion) -> Vector
    requires { list < 2 }
    ensures { result ≡ slice_index_or motion.now.vectors list zero_vector }
{
    motion.vectors[list as usize]
}
