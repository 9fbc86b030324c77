// Slices of pictures of one macroblock as other encoders code them, and a slice that is coded in two ways.
ghost use Rattle.std.specs.Prelude.{◌≡◌, ◌≤◌, ◌<◌, ◌+◌, ◌*◌, ◌⊎◌, true, length, IfOk, IsTrue};
ghost use Rattle.picture_planes.specs.Pictures.{planes_of, AreFilled, SameShapes};
ghost use Rattle.spec_partitions.specs.InRange.{HasEntries};
ghost use Rattle.spec_slice_payload.specs.Slices.{IsHead};
ghost use Rattle.ref_lists.specs.Held.{AreHeld};
ghost use Rattle.ref_lists.specs.Entries.{ArePlaces};
ghost use Rattle.ref_lists.specs.Named.{named};
ghost use Rattle.slice_coder.specs.Plans.{ArePlanned, HasLists, HoldsRows, format_of};

use crate::code_slice;
use arrayvec::ArrayVec;
use bit_strings::BitBuf;
use block_sums::SumTable;
use enc_tables::{MbKind, MbRecord, Motion, RowPlan, SliceKind, Vector};
use mode_choice::plan_row_alone;
use picture_planes::{Picture, Plane, Stripe};
use ref_lists::{Lists, RefStore, Reference};
use spec_headers::SliceHead;
use std::alloc::{AllocError as OutOfMemory, Global};
use std::process::Abort;
use std::test::Fail;

fn blank_record() -> MbRecord {
    let zero = Vector { x: 0, y: 0 };
    let motion = Motion {
        refs: [-1, -1],
        vectors: [zero, zero],
    };
    MbRecord {
        kind: MbKind::Pcm,
        transform8: false,
        modes: [0; 16],
        chroma_mode: 0,
        motion: [motion; 4],
        mvd: [zero; 8],
        luma_cbp: 0,
        chroma_cbp: 0,
        qp: 0,
        luma_dc: [0; 16],
        luma: [0; 256],
        chroma_dc: [0; 8],
        chroma_ac: [0; 120],
    }
}

// The header of a slice of an IDR picture.
fn intra_head(first_mb: u32, qp: u8) -> SliceHead
    requires first { first_mb < 100 }
    requires qp { qp ≤ 51 }
    ensures head { IsHead result.idr result }
    ensures first { result.first_mb ≡ first_mb }
    ensures qp { result.qp ≡ qp }
    ensures entries { (result.refs0 ≡ 0) × (result.refs1 ≡ 0) }
{
    SliceHead {
        first_mb,
        kind: SliceKind::I,
        idr: true,
        frame_num: 0,
        idr_id: 0,
        poc: 0,
        refs0: 0,
        refs1: 0,
        moved: None,
        qp,
        cabac: true,
    }
}

// The header of the slice of a P picture that follows an IDR picture.
fn p_head() -> SliceHead
    ensures head { IsHead result.idr result }
    ensures first { result.first_mb ≡ 0 }
{
    SliceHead {
        first_mb: 0,
        kind: SliceKind::P,
        idr: false,
        frame_num: 1,
        idr_id: 0,
        poc: 2,
        refs0: 1,
        refs1: 0,
        moved: None,
        qp: 26,
        cabac: true,
    }
}

// A grey picture of one macroblock.
fn grey(alloc: Global) -> Result<Picture, OutOfMemory>
    ensures luma { IfOk result (λ p. (p.y.width ≡ 16) × (p.y.height ≡ 16) × (p.y.pad ≡ 40)) }
    ensures cb { IfOk result (λ p. (p.cb.width ≡ 8) × (p.cb.height ≡ 8) × (p.cb.pad ≡ 20)) }
    ensures cr { IfOk result (λ p. (p.cr.width ≡ 8) × (p.cr.height ≡ 8) × (p.cr.pad ≡ 20)) }
    ensures filled { IfOk result (λ p. AreFilled p) }
{
    let mut source = Picture::new(alloc, 16, 16)?;
    source.y.set_rows(0, 16, &[128; 256]);
    source.cb.set_rows(0, 8, &[128; 64]);
    source.cr.set_rows(0, 8, &[128; 64]);
    source.pad_edges();
    Ok(source)
}

// Whether lists have as many entries as a header says, and as its kind wants.
#[tactic(auto, unfolding(spec_partitions::specs::InRange::HasEntries))]
fn has_entries(lists: &Lists<'_>, head: &SliceHead) -> bool
    ensures count0 { IsTrue result → length lists.now.list0.items ≡ head.now.refs0 }
    ensures count1 { IsTrue result → length lists.now.list1.items ≡ head.now.refs1 }
    ensures kind { IsTrue result → HasEntries head.now.kind (length lists.now.list0.items) (length lists.now.list1.items) }
{
    if lists.list0.len() != head.refs0 as usize || lists.list1.len() != head.refs1 as usize {
        return false;
    }
    match head.kind {
        SliceKind::I => true,
        SliceKind::P => !lists.list0.is_empty(),
        SliceKind::B => !lists.list0.is_empty() && !lists.list1.is_empty(),
    }
}

// The plan of the row of one macroblock that a slice begins with.
fn plans_of(
    alloc: Global,
    source: &Picture,
    lists: &Lists<'_>,
    head: &SliceHead,
) -> Result<Vec<RowPlan>, OutOfMemory>
    requires wide { (source.now.y.width ≡ 16) × (source.now.y.pad ≡ 40) }
    requires row { 16 * head.now.first_mb + 16 ≤ source.now.y.height }
    requires filled { AreFilled source.now }
    requires lists { HasLists head.now source.now lists.now }
    requires entries { HasEntries head.now.kind (length lists.now.list0.items) (length lists.now.list1.items) }
    ensures long { IfOk result (λ plans. length plans.items ≡ 1) }
    ensures planned { IfOk result (λ plans. ArePlanned (format_of source.now true) head.now (named lists.now) (planes_of source.now) plans.items) }
{
    let mut sums = SumTable::new(alloc, 16, source.y.height, 40)?;
    sums.fill(&source.y);
    let mut plan = RowPlan::new(alloc, 1)?;
    let row = head.first_mb;
    plan_row_alone(
        source, &sums, lists, head.kind, row, row, 16, true, &mut plan,
    );
    let mut plans = Vec::new(alloc);
    plans.push(plan)?;
    Ok(plans)
}

// Codes the slice of one macroblock that a header tells, in pictures of one macroblock in a row.
fn code_one(
    alloc: Global,
    rt: &impl Abort,
    stripe: &mut Stripe<'_>,
    source: &Picture,
    lists: &Lists<'_>,
    head: &SliceHead,
    coarsest: bool,
    records: &mut [MbRecord; 1],
) -> Result<BitBuf, Fail>
    requires wide { (source.now.y.width ≡ 16) × (source.now.y.pad ≡ 40) }
    requires whole { (source.now.y.height ≡ 16) ⊎ (source.now.y.height ≡ 32) }
    requires filled { AreFilled source.now }
    requires row { 16 * head.now.first_mb + 16 ≤ source.now.y.height }
    requires stripe_wide { stripe.old.picture.now.y.width ≡ 16 }
    requires holds { HoldsRows stripe.old head.now.first_mb (head.now.first_mb + 1) }
    requires head { IsHead head.now.idr head.now }
    requires held { AreHeld source.now.y.width source.now.y.height lists.now.held.now }
    requires inside { ArePlaces (length lists.now.held.now) lists.now.list0.items × ArePlaces (length lists.now.held.now) lists.now.list1.items }
    requires greatest { coarsest ≡ true → head.now.qp ≡ 51 }
    ensures same_reference { stripe.new.picture.ghost_name ≡ stripe.old.picture.ghost_name }
    ensures shapes { SameShapes stripe.old.picture.now stripe.new.picture.now }
{
    assert!(rt; has_entries(lists, head));
    let plans = plans_of(alloc, source, lists, head)?;
    let row = head.first_mb;
    let (done, payload) = code_slice(
        stripe,
        source,
        lists,
        plans.as_slice(),
        head,
        (row, row + 1),
        true,
        coarsest,
        records,
        BitBuf::with_room(alloc, 1000)?,
    );
    done?;
    Ok(payload)
}

#[test]
fn codes_a_grey_slice(rt: HostRuntime) -> Result<(), Fail> {
    let alloc = rt.alloc();
    let source = grey(alloc)?;
    let lists = Lists {
        held: &[],
        list0: ArrayVec::new(),
        list1: ArrayVec::new(),
    };
    let mut picture = Picture::new(alloc, 16, 16)?;
    let mut records = [blank_record()];
    let payload = code_one(
        alloc,
        &rt,
        &mut picture.stripe(),
        &source,
        &lists,
        &intra_head(0, 24),
        false,
        &mut records,
    )?;
    assert!(rt; payload.len() % 8 == 0);
    assert_eq!(rt;
        payload.bytes(),
        [0x88, 0x80, 0, 0x40, 0, 2, 0xFF, 0xFE, 0xD6, 0xDF, 0x80].as_slice()
    );
    assert_eq!(rt; picture.y.get(15, 15), 128);
    Ok(())
}

// The coarsest coding looks at no sample of the source.
#[test]
fn codes_the_coarsest_slice(rt: HostRuntime) -> Result<(), Fail> {
    let alloc = rt.alloc();
    let mut source = grey(alloc)?;
    source.y.set_rows(0, 8, &[40; 128]);
    source.pad_edges();
    let lists = Lists {
        held: &[],
        list0: ArrayVec::new(),
        list1: ArrayVec::new(),
    };
    let mut picture = Picture::new(alloc, 16, 16)?;
    let mut records = [blank_record()];
    let payload = code_one(
        alloc,
        &rt,
        &mut picture.stripe(),
        &source,
        &lists,
        &intra_head(0, 51),
        true,
        &mut records,
    )?;
    assert!(rt; payload.len() % 8 == 0);
    assert_eq!(rt;
        payload.bytes(),
        [0x88, 0x80, 0, 0x40, 0, 0, 0x65, 0xF1, 0xFF, 0x80].as_slice()
    );
    assert_eq!(rt; picture.y.get(15, 15), 128);
    Ok(())
}

// A grey picture behind a grey one: its macroblock is skipped.
#[test]
fn skips_what_stays(rt: HostRuntime) -> Result<(), Fail> {
    let alloc = rt.alloc();
    let source = grey(alloc)?;
    let mut reference = Reference::new(alloc, 16, 16)?;
    reference.picture.copy_from(&source);
    let mut store = RefStore::new(alloc, 16, 16, 1)?;
    store.slide(&mut reference);
    let lists = store.lists(SliceKind::P, 2);
    let mut picture = Picture::new(alloc, 16, 16)?;
    let mut records = [blank_record()];
    let payload = code_one(
        alloc,
        &rt,
        &mut picture.stripe(),
        &source,
        &lists,
        &p_head(),
        false,
        &mut records,
    )?;
    assert!(rt; payload.len() % 8 == 0);
    assert_eq!(rt;
        payload.bytes(),
        [0x9A, 0, 2, 0, 5, 0x9F, 0xA6, 0x80].as_slice()
    );
    assert_eq!(rt; records[0].kind, MbKind::PSkip);
    assert_eq!(rt; picture.y.get(15, 15), 128);
    Ok(())
}

// The rows of a plane are those of another one from a row on.
fn same_rows(rt: &impl Abort, part: &Plane, whole: &Plane, from: u32)
    requires { from + part.now.height ≤ whole.now.height }
{
    for y in 0..part.height {
        assert_eq!(rt; part.row(y), whole.row(from + y));
    }
}

// A slice below another one, coded into the whole picture and into a picture of its rows alone.
#[test]
fn codes_the_same_into_a_part(rt: HostRuntime) -> Result<(), Fail> {
    let alloc = rt.alloc();
    let mut source = Picture::new(alloc, 16, 32)?;
    source.y.set_rows(16, 8, &[40; 128]);
    source.y.set_rows(24, 8, &[200; 128]);
    source.cb.set_rows(8, 8, &[90; 64]);
    source.cr.set_rows(12, 4, &[170; 32]);
    source.pad_edges();
    let lists = Lists {
        held: &[],
        list0: ArrayVec::new(),
        list1: ArrayVec::new(),
    };
    let head = intra_head(1, 24);
    let mut whole = Picture::new(alloc, 16, 32)?;
    let mut records = [blank_record()];
    let payload = code_one(
        alloc,
        &rt,
        &mut whole.stripe(),
        &source,
        &lists,
        &head,
        false,
        &mut records,
    )?;
    let mut part = Picture::new(alloc, 16, 16)?;
    let mut part_records = [blank_record()];
    let part_payload = code_one(
        alloc,
        &rt,
        &mut part.stripe_at(1),
        &source,
        &lists,
        &head,
        false,
        &mut part_records,
    )?;
    assert!(rt; payload.len() % 8 == 0);
    assert!(rt; part_payload.len() % 8 == 0);
    assert_eq!(rt; part_payload.bytes(), payload.bytes());
    assert_eq!(rt; part_records[0].luma, records[0].luma);
    same_rows(&rt, &part.y, &whole.y, 16);
    same_rows(&rt, &part.cb, &whole.cb, 8);
    same_rows(&rt, &part.cr, &whole.cr, 8);
    assert_eq!(rt; whole.y.row(15), [0; 16].as_slice());
    assert!(rt; whole.y.get(7, 31) > 190);
    Ok(())
}
