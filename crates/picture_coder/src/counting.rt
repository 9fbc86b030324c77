// How long the coarsest coding of a picture is.
ghost use Rattle.std.specs.Prelude.{◌≡◌, ◌≤◌, ◌<◌, ◌+◌, ◌*◌, ◌%◌, ◌^◌, false, true, [], length};
ghost use Rattle.std.specs.List.{All};
ghost use Rattle.picture_planes.specs.Pictures.{planes_of, SameShapes};
ghost use Rattle.spec_decoder.specs.Frames.{blank_planes};
ghost use Rattle.picture_coder.specs.Pictures.{IsCoding, IsQuantised, slice_at, unit_of, SliceCoded, units_to};

use crate::coding::Coding;
use crate::job::Job;
use crate::slices::code_rows;
use bit_strings::BitBuf;
use enc_tables::{MbRecord, RowPlan};
use nal_writer::unit_bits;
use picture_planes::Picture;
use spec_coarsest::coarsest_slices_are_short;

// Codes slice `slice` behind those before it, and answers with how many bits its unit has.
fn count_unit(
    coding: &Coding,
    job: &Job<'_>,
    slice: u32,
    plans: &[RowPlan],
    picture: &mut Picture,
    records: &mut [MbRecord],
    payload: BitBuf,
) -> (u64, BitBuf)
    requires coding { IsCoding coding.now job.now picture.old }
    requires coarsest { coding.now.coarsest ≡ true }
    requires slice { slice < coding.now.slices }
    requires plan_count { length plans.now ≡ coding.now.down }
    requires records { length records.old ≡ coding.now.down * coding.now.across }
    requires empty { payload.text ≡ [] }
    requires room { 128 * (coding.now.down * coding.now.across) + 1024 ≤ payload.room }
    ensures shapes { SameShapes picture.old picture.new }
    ensures count { length records.new ≡ length records.old }
    ensures coded { SliceCoded coding.now job.now (slice_at coding.now job.now slice (planes_of picture.old)) slice (planes_of picture.old) (planes_of picture.new) records.old records.new }
    ensures quantised { All IsQuantised (slice_at coding.now job.now slice (planes_of picture.old)).records }
    ensures payload { result.1 ≡ payload }
    ensures unit { result.0 ≡ length (unit_of coding.now job.now false (slice_at coding.now job.now slice (planes_of picture.old))) }
    ensures small { result.0 ≤ 10000000 }
{
    coarsest_slices_are_short();
    let (done, payload) = code_rows(coding, job, slice, plans, picture, records, payload);
    if done.is_err() {
        unreachable!();
    }
    let mut payload = payload;
    let bits = unit_bits(payload.bytes(), false);
    payload.clear();
    (bits, payload)
}

/// Codes all slices of the coarsest coding, one after another, and answers with how many bits their units have, with
/// start codes of three bytes.
pub fn count_units(
    coding: &Coding,
    job: &Job<'_>,
    plans: &[RowPlan],
    picture: &mut Picture,
    records: &mut [MbRecord],
    payload: BitBuf,
) -> (u64, BitBuf)
    requires coding { IsCoding coding.now job.now picture.old }
    requires coarsest { coding.now.coarsest ≡ true }
    requires blank { planes_of picture.old ≡ blank_planes coding.now.across coding.now.down }
    requires plan_count { length plans.now ≡ coding.now.down }
    requires records { length records.old ≡ coding.now.down * coding.now.across }
    requires empty { payload.text ≡ [] }
    requires room { 128 * (coding.now.down * coding.now.across) + 1024 ≤ payload.room }
    ensures shapes { SameShapes picture.old picture.new }
    ensures count { length records.new ≡ length records.old }
    ensures payload { result.1 ≡ payload }
    ensures bits { result.0 ≡ length (units_to coding.now job.now false coding.now.slices) }
    ensures small { result.0 ≤ 2 ^ 32 }
{
    let mut payload = payload;
    let mut total = 0u64;
    for slice in 0..coding.slices {
        let (bits, emptied) = count_unit(coding, job, slice, plans, picture, records, payload);
        total += bits;
        payload = emptied;
    }
    (total, payload)
}
