// The loop filter of a picture of any kind.
ghost use Rattle.std.specs.Prelude.{◌≡◌, ◌≤◌, ◌<◌, ◌*◌, ◌/◌, pos, ◌≤ℤ◌, length};
ghost use Rattle.std.specs.List.{All, AllByRecursion};
ghost use Rattle.picture_planes.specs.Pictures.{planes_of, SameShapes};
ghost use Rattle.spec_lists.specs.Lists.{pictures_of};
ghost use Rattle.spec_filter.specs.Pictures.{picture_filtered};
ghost use Rattle.ref_lists.specs.Held.{all_seen};
ghost use Rattle.ref_lists.specs.Entries.{entries, ArePlaces};
ghost use Rattle.ref_lists.specs.Named.{named};

use arrayvec::ArrayVec;
use deblock::deblock_picture;
use enc_tables::MbRecord;
use picture_planes::Picture;
use ref_lists::{Lists, Reference};

// The order count of a reference.
fn count_of(reference: &Reference) -> i32
    ensures { result ≡ reference.now.poc }
{
    reference.poc
}

// The order counts of the references at some places, by which the filter tells them apart.
fn counts_at(held: &[Reference], places: &[u8]) -> ArrayVec<i32, 4>
    requires few { length places.now ≤ 4 }
    requires inside { ArePlaces (length held.now) places.now }
    requires origin { AllByRecursion (λ r. pos 0 ≤ℤ r.poc) held.now }
    ensures { result.items ≡ pictures_of (entries (all_seen held.now) places.now) }
{
    let mut counts = ArrayVec::new();
    for k in 0..places.len() {
        let place = places[k] as usize;
        let count = count_of(&held[place]);
        counts.push(count);
    }
    counts
}

/// The loop filter, across slices. The lists are those of the picture's slices.
pub fn filter(picture: &mut Picture, lists: &Lists<'_>, records: &[MbRecord])
    requires count { length records.now ≡ picture.old.y.width / 16 * (picture.old.y.height / 16) }
    requires qps { All (λ r. r.qp ≤ 51) records.now }
    requires first { ArePlaces (length lists.now.held.now) lists.now.list0.items }
    requires second { ArePlaces (length lists.now.held.now) lists.now.list1.items }
    requires origin { AllByRecursion (λ r. pos 0 ≤ℤ r.poc) lists.now.held.now }
    ensures shapes { SameShapes picture.old picture.new }
    ensures value { planes_of picture.new ≡ picture_filtered (pictures_of (named lists.now).list0) (pictures_of (named lists.now).list1) records.now picture.old.y.width (planes_of picture.old) }
{
    let counts0 = counts_at(lists.held, lists.list0.as_slice());
    let counts1 = counts_at(lists.held, lists.list1.as_slice());
    deblock_picture(picture, records, counts0.as_slice(), counts1.as_slice());
}
