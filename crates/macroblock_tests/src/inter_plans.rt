// Plans of P and B macroblocks.
ghost use Rattle.std.specs.Prelude.{◌≡◌, IfOk, IsTrue, length};
ghost use Rattle.ref_lists.specs.Held.{IsMade};
ghost use Rattle.ref_lists.specs.Stored.{width_of, height_of};
ghost use Rattle.spec_partitions.specs.InRange.{HasEntries};

use block_sums::SumTable;
use enc_tables::{PartPlan, RowPlan, SliceKind};
use mode_choice::plan_row_alone;
use picture_planes::Picture;
use ref_lists::{Lists, RefStore, Reference};
use std::alloc::{AllocError as OutOfMemory, Global};
use std::process::Abort;
use std::test::Fail;

// The luma samples of pictures of one macroblock. Another encoder built this one, which is shown first,
const FIRST: [u8; 256] = [
    175, 169, 169, 163, 159, 131, 106, 85, 60, 66, 80, 87, 104, 125, 140, 162, 187, 173, 160, 147,
    133, 124, 116, 103, 100, 102, 106, 109, 108, 119, 121, 133, 194, 175, 148, 129, 103, 113, 125,
    132, 145, 138, 124, 116, 113, 111, 104, 103, 206, 179, 139, 112, 86, 105, 136, 163, 183, 171,
    147, 135, 117, 105, 85, 74, 215, 174, 139, 100, 56, 96, 144, 184, 230, 202, 175, 147, 120, 93,
    75, 47, 177, 148, 122, 98, 75, 104, 139, 167, 200, 180, 160, 140, 125, 111, 90, 75, 122, 118,
    107, 99, 98, 113, 135, 150, 173, 161, 141, 128, 120, 111, 116, 106, 76, 87, 95, 103, 117, 121,
    129, 133, 143, 139, 126, 122, 114, 129, 131, 135, 34, 57, 81, 105, 142, 130, 121, 113, 111,
    108, 109, 106, 112, 134, 149, 173, 77, 97, 119, 135, 160, 139, 118, 108, 93, 94, 96, 101, 107,
    132, 154, 182, 131, 141, 156, 163, 180, 151, 119, 97, 71, 84, 88, 100, 107, 131, 157, 186, 175,
    178, 190, 190, 196, 164, 127, 95, 52, 69, 74, 90, 100, 127, 162, 195, 232, 224, 219, 214, 213,
    170, 123, 80, 35, 51, 67, 82, 99, 130, 167, 196, 223, 214, 210, 199, 194, 154, 113, 73, 31, 50,
    71, 88, 102, 132, 165, 193, 216, 203, 200, 188, 169, 135, 107, 73, 40, 56, 70, 84, 108, 135,
    162, 187, 208, 191, 182, 163, 151, 120, 98, 67, 37, 54, 74, 90, 111, 137, 160, 184,
];

// and this one, which is shown third.
const THIRD: [u8; 256] = [
    138, 154, 175, 190, 174, 156, 143, 134, 95, 80, 85, 95, 100, 104, 121, 134, 125, 148, 174, 197,
    176, 153, 134, 104, 116, 123, 120, 115, 115, 109, 113, 114, 97, 135, 172, 209, 174, 138, 111,
    81, 148, 163, 154, 134, 126, 113, 107, 97, 86, 131, 173, 218, 178, 138, 99, 60, 174, 209, 188,
    161, 146, 116, 94, 79, 91, 116, 147, 172, 148, 122, 98, 75, 180, 218, 192, 173, 142, 124, 96,
    78, 96, 105, 115, 124, 118, 107, 99, 98, 162, 185, 170, 154, 132, 119, 113, 100, 113, 100, 85,
    73, 87, 95, 103, 117, 141, 154, 147, 132, 125, 111, 120, 120, 121, 94, 56, 29, 57, 81, 105,
    142, 126, 125, 122, 122, 110, 114, 129, 140, 141, 118, 111, 92, 95, 124, 146, 174, 148, 131,
    116, 103, 101, 95, 97, 111, 102, 100, 105, 104, 111, 125, 137, 152, 134, 125, 111, 117, 122,
    123, 128, 140, 58, 73, 93, 115, 130, 124, 123, 124, 121, 114, 112, 130, 143, 160, 173, 179, 61,
    83, 105, 133, 148, 124, 114, 105, 108, 108, 108, 130, 155, 177, 193, 196, 110, 130, 141, 161,
    160, 132, 111, 98, 90, 101, 107, 132, 157, 183, 209, 181, 151, 164, 171, 182, 170, 138, 108,
    77, 78, 93, 102, 128, 161, 192, 218, 187, 204, 205, 204, 208, 186, 146, 106, 62, 68, 83, 99,
    129, 163, 199, 225, 188, 228, 219, 210, 210, 189, 144, 99, 54, 70, 87, 101, 132, 162, 197, 223,
    184,
];

// The sources that were shown second
const SECOND: [u8; 256] = [
    171, 178, 177, 165, 159, 149, 133, 117, 77, 68, 81, 91, 98, 114, 126, 147, 164, 182, 182, 162,
    146, 128, 116, 117, 115, 108, 106, 110, 109, 108, 114, 124, 159, 189, 190, 162, 131, 105, 101,
    121, 147, 152, 138, 125, 115, 111, 102, 99, 153, 195, 194, 157, 121, 88, 86, 121, 179, 186,
    166, 144, 129, 110, 92, 75, 139, 177, 182, 147, 115, 81, 82, 120, 200, 212, 186, 157, 132, 108,
    87, 68, 122, 139, 136, 122, 109, 91, 97, 124, 180, 186, 161, 145, 124, 110, 100, 89, 104, 96,
    101, 101, 102, 106, 112, 127, 156, 154, 147, 135, 121, 112, 115, 118, 82, 63, 58, 81, 95, 118,
    129, 127, 127, 127, 127, 117, 114, 120, 132, 143, 90, 97, 100, 110, 116, 123, 132, 139, 139,
    129, 119, 113, 119, 128, 134, 139, 44, 66, 94, 113, 130, 129, 121, 122, 117, 111, 110, 112,
    128, 146, 168, 183, 72, 91, 113, 138, 151, 135, 122, 105, 97, 104, 106, 110, 131, 157, 180,
    202, 122, 136, 144, 158, 166, 141, 120, 91, 85, 94, 98, 108, 131, 161, 183, 208, 167, 175, 177,
    186, 179, 151, 114, 81, 67, 83, 91, 99, 133, 164, 191, 223, 215, 216, 213, 213, 201, 154, 116,
    71, 51, 67, 85, 95, 132, 161, 200, 232, 223, 217, 211, 202, 185, 149, 104, 65, 53, 70, 86, 104,
    136, 164, 199, 229, 219, 203, 194, 185, 171, 129, 95, 62, 51, 72, 87, 106, 138, 161, 188, 216,
];

// and fifth.
const FIFTH: [u8; 256] = [
    96, 95, 94, 123, 146, 170, 196, 173, 113, 107, 101, 103, 104, 103, 106, 118, 82, 69, 61, 102,
    134, 169, 210, 177, 125, 136, 146, 137, 128, 119, 109, 112, 62, 48, 29, 79, 124, 169, 221, 176,
    134, 160, 190, 170, 153, 130, 117, 104, 94, 75, 62, 88, 117, 146, 168, 146, 139, 187, 229, 204,
    173, 149, 123, 94, 121, 106, 95, 100, 110, 116, 124, 118, 136, 167, 198, 179, 160, 139, 120,
    102, 153, 134, 124, 114, 96, 86, 72, 84, 134, 148, 168, 155, 145, 127, 115, 114, 184, 167, 152,
    124, 89, 57, 28, 51, 129, 131, 136, 134, 124, 119, 117, 123, 165, 161, 150, 129, 114, 95, 77,
    95, 123, 118, 111, 109, 111, 108, 115, 132, 177, 145, 109, 78, 107, 136, 162, 186, 108, 110,
    112, 109, 111, 132, 154, 176, 179, 139, 97, 52, 98, 144, 189, 233, 93, 97, 97, 104, 109, 135,
    157, 182, 144, 122, 102, 73, 106, 137, 169, 201, 75, 82, 86, 99, 107, 131, 159, 186, 116, 111,
    103, 94, 112, 132, 153, 172, 52, 63, 74, 86, 103, 131, 164, 193, 86, 97, 109, 114, 125, 130,
    131, 136, 36, 53, 67, 83, 99, 129, 162, 202, 51, 85, 113, 135, 133, 123, 116, 107, 33, 56, 66,
    85, 106, 136, 164, 195, 99, 118, 139, 160, 143, 122, 109, 88, 34, 54, 74, 91, 113, 138, 164,
    188, 137, 155, 165, 175, 147, 124, 95, 70, 34, 57, 75, 95, 115, 137, 165, 186,
];

// What that encoder plans for them over the two: for each of the nine partitions its cost, and for each list the entry, -1 where there is
// none, and the parts of the vector. The second one is a B picture
const SECOND_PLAN: [[i64; 7]; 9] = [
    [2662, 0, 1, -3, 0, 2, 0],
    [764, 0, -3, 1, 0, 5, -1],
    [587, 0, 2, -5, 0, -3, 5],
    [1658, 0, 1, -5, 0, 3, 2],
    [1067, 0, 3, 1, 0, 1, -1],
    [435, 0, -6, 2, 0, 5, -1],
    [187, 0, -2, 1, -1, 0, 0],
    [185, 0, 1, -5, -1, 0, 0],
    [194, -1, 0, 0, 0, -4, 5],
];

// and the fifth one a P picture.
const FIFTH_PLAN: [[i64; 7]; 9] = [
    [7509, 0, -7, 3, -1, 0, 0],
    [2845, 0, -11, 4, -1, 0, 0],
    [3177, 1, 4, -19, -1, 0, 0],
    [3958, 1, 4, -19, -1, 0, 0],
    [1796, 1, 0, 3, -1, 0, 0],
    [779, 0, -12, 4, -1, 0, 0],
    [179, 1, -8, 4, -1, 0, 0],
    [330, 1, 4, -19, -1, 0, 0],
    [169, 1, 0, 0, -1, 0, 0],
];

// The references of this size with the samples of a picture.
fn reference(
    alloc: Global,
    samples: &[u8; 256],
    poc: i32,
    frame_num: u16,
) -> Result<Reference, OutOfMemory>
    ensures made { IfOk result (λ r. IsMade 16 16 r) }
    ensures poc { IfOk result (λ r. r.poc ≡ poc) }
    ensures frame_num { IfOk result (λ r. r.frame_num ≡ frame_num) }
{
    let mut r = Reference::new(alloc, 16, 16)?;
    r.picture.y.set_rows(0, 16, samples);
    r.poc = poc;
    r.frame_num = frame_num;
    Ok(r)
}

// Both references, in their order.
fn store(alloc: Global) -> Result<RefStore, OutOfMemory>
    ensures { IfOk result (λ s. (width_of s ≡ 16) × (height_of s ≡ 16)) }
{
    let mut store = RefStore::new(alloc, 16, 16, 2)?;
    let mut first = reference(alloc, &FIRST, 0, 0)?;
    let mut second = reference(alloc, &THIRD, 4, 1)?;
    store.slide(&mut first);
    store.slide(&mut second);
    Ok(store)
}

#[tactic(auto, unfolding(spec_partitions::specs::InRange::HasEntries))]
fn have_entries(lists: &Lists<'_>, kind: SliceKind) -> bool
    ensures { IsTrue result → HasEntries kind (length lists.now.list0.items) (length lists.now.list1.items) }
{
    match kind {
        SliceKind::I => true,
        SliceKind::P => !lists.list0.is_empty(),
        SliceKind::B => !lists.list0.is_empty() && !lists.list1.is_empty(),
    }
}

fn row_of(part: &PartPlan) -> [i64; 7] {
    let motion = part.motion;
    let [first, second] = motion.refs;
    let [v, w] = motion.vectors;
    [
        part.cost as i64,
        first as i64,
        v.x as i64,
        v.y as i64,
        second as i64,
        w.x as i64,
        w.y as i64,
    ]
}

fn plans_are(
    alloc: Global,
    rt: &impl Abort,
    kind: SliceKind,
    poc: i32,
    samples: &[u8; 256],
    compared: u64,
    expected: &[[i64; 7]; 9],
) -> Result<(), Fail> {
    let store = store(alloc)?;
    let lists = store.lists(kind, poc);
    assert!(rt; have_entries(&lists, kind));
    let mut source = Picture::new(alloc, 16, 16)?;
    source.y.set_rows(0, 16, samples);
    source.y.pad_edges();
    let mut sums = SumTable::new(alloc, 16, 16, 40)?;
    sums.fill(&source.y);
    let mut plan = RowPlan::new(alloc, 1)?;
    plan_row_alone(&source, &sums, &lists, kind, 0, 0, 4, true, &mut plan);
    assert_eq!(rt; (plan.row, plan.compared), (0, compared));
    for mb in &plan.mbs {
        for k in 0..9usize {
            assert_eq!(rt; row_of(&mb.parts[k]), expected[k]);
        }
    }
    Ok(())
}

#[test]
fn plans_over_references(rt: HostRuntime) -> Result<(), Fail> {
    plans_are(rt.alloc(), &rt, SliceKind::B, 2, &SECOND, 748, &SECOND_PLAN)?;
    plans_are(rt.alloc(), &rt, SliceKind::P, 8, &FIFTH, 994, &FIFTH_PLAN)
}
