// Intra prediction, plans and intra macroblocks.
ghost use Rattle.std.specs.Prelude.{◌≤◌, ◌+◌, ◌*◌};

use enc_tables::{MbRecord, RowPlan, SliceKind};
use intra_coder::{code_intra4, code_intra8, code_intra16};
use intra_plans::plan_row;
use intra_pred::{Avail, Nb4, Nb8, Nb16, NbC, allowed, pred_chroma, pred4, pred8, pred16};
use picture_planes::{Picture, Plane};
use spec_reconstruction::Site;
use std::test::Fail;

const EVERYWHERE: Avail = Avail {
    left: true,
    above: true,
    corner: true,
    above_right: true,
};

const NOWHERE: Avail = Avail {
    left: false,
    above: false,
    corner: false,
    above_right: false,
};

#[test]
fn predicts(rt: HostRuntime) -> Result<(), Fail> {
    let near4 = Nb4 {
        above: [10, 200, 31, 47, 250, 3, 99, 120],
        left: [77, 5, 180, 222],
        corner: 141,
        avail: EVERYWHERE,
    };
    assert_eq!(rt;
        pred4(5, &near4).as_slice(),
        [
            76, 105, 116, 39, 92, 90, 110, 77, 75, 76, 105, 116, 67, 92, 90, 110
        ]
        .as_slice()
    );
    let near8 = Nb8 {
        above: [
            17, 145, 91, 111, 205, 117, 103, 163, 41, 249, 19, 119, 37, 29, 95, 235,
        ],
        left: [201, 27, 215, 253, 141, 135, 235, 185],
        corner: 66,
        avail: EVERYWHERE,
    };
    assert_eq!(rt;
        pred8(6, &near8).as_slice(),
        [
            106, 90, 78, 93, 113, 133, 147, 139, 121, 114, 106, 90, 78, 93, 113, 133, 148, 135,
            121, 114, 106, 90, 78, 93, 197, 173, 148, 135, 121, 114, 106, 90, 192, 195, 197, 173,
            148, 135, 121, 114, 165, 179, 192, 195, 197, 173, 148, 135, 180, 173, 165, 179, 192,
            195, 197, 173, 198, 189, 180, 173, 165, 179, 192, 195,
        ]
        .as_slice()
    );
    Ok(())
}

#[test]
fn predicts_macroblocks(rt: HostRuntime) -> Result<(), Fail> {
    let near16 = Nb16 {
        above: [
            40, 53, 66, 79, 92, 105, 118, 131, 144, 157, 170, 183, 196, 209, 222, 235,
        ],
        left: [
            200, 193, 186, 179, 172, 165, 158, 151, 144, 137, 130, 123, 116, 109, 102, 95,
        ],
        corner: 120,
        avail: EVERYWHERE,
    };
    let plane = pred16(3, &near16);
    assert_eq!(rt;
        (plane[0], plane[11], plane[15], plane[240], plane[255]),
        (124, 246, 255, 45, 212)
    );
    let near_chroma = NbC {
        above: [3, 90, 250, 17, 66, 4, 201, 9],
        left: [30, 111, 2, 240, 8, 77, 163, 29],
        corner: 55,
        avail: EVERYWHERE,
    };
    let plane = pred_chroma(3, &near_chroma);
    assert_eq!(rt;
        (plane[0], plane[7], plane[36], plane[56], plane[63]),
        (5, 11, 24, 32, 38)
    );
    assert_eq!(rt; allowed(4, 8, &EVERYWHERE), true);
    assert_eq!(rt; allowed(2, 4, &EVERYWHERE), false);
    Ok(())
}

#[test]
fn a_flat_macroblock_needs_one_level(rt: HostRuntime) -> Result<(), Fail> {
    let alloc = rt.alloc();
    let mut source = Picture::new(alloc, 16, 16)?;
    source.y.set_rows(0, 16, &[100; 256]);
    let mut picture = Picture::new(alloc, 16, 16)?;
    let site = Site {
        x: 0,
        y: 0,
        near: NOWHERE,
        qp: 26,
    };
    let coded = code_intra16(&mut picture.stripe(), &source, &site, 2, 0);
    assert_eq!(rt;
        (
            coded.luma_dc[0],
            coded.luma_dc[1],
            coded.luma[0],
            coded.luma[1]
        ),
        (-34, 0, 0, 0)
    );
    assert_eq!(rt; (picture.y.get(0, 0), picture.y.get(15, 15)), (100, 100));
    Ok(())
}

// Whether a plane's rows are those of a larger one from row `first` on.
fn is_part(part: &Plane, first: u32, whole: &Plane) -> bool
    requires { first + part.now.height ≤ whole.now.height }
{
    for y in 0..part.height {
        if part.row(y) != whole.row(first + y) {
            return false;
        }
    }
    true
}

// Whether a picture's planes are those of a larger one from macroblock row `row` on.
fn is_stripe(part: &Picture, row: u32, whole: &Picture) -> bool
    requires few { row ≤ 143 }
    requires inside { 16 * row + part.now.y.height ≤ whole.now.y.height }
{
    is_part(&part.y, 16 * row, &whole.y)
        && is_part(&part.cb, 8 * row, &whole.cb)
        && is_part(&part.cr, 8 * row, &whole.cr)
}

// Whether two records have the same type, prediction and parameter.
fn same_head(one: &MbRecord, other: &MbRecord) -> bool {
    one.kind == other.kind
        && one.transform8 == other.transform8
        && one.modes[..] == other.modes[..]
        && one.chroma_mode == other.chroma_mode
        && one.motion[..] == other.motion[..]
        && one.mvd[..] == other.mvd[..]
        && one.qp == other.qp
}

// Whether they have the same patterns and levels.
fn same_levels(one: &MbRecord, other: &MbRecord) -> bool {
    one.luma_cbp == other.luma_cbp
        && one.chroma_cbp == other.chroma_cbp
        && one.luma_dc[..] == other.luma_dc[..]
        && one.luma[..] == other.luma[..]
        && one.chroma_dc[..] == other.chroma_dc[..]
        && one.chroma_ac[..] == other.chroma_ac[..]
}

#[test]
fn a_stripe_has_what_the_whole_picture_has(rt: HostRuntime) -> Result<(), Fail> {
    let alloc = rt.alloc();
    let mut source = Picture::new(alloc, 16, 32)?;
    source.y.set_rows(16, 8, &[200; 128]);
    source.y.set_rows(
        24,
        1,
        &[
            0, 9, 25, 36, 49, 64, 81, 100, 121, 144, 169, 196, 225, 250, 30, 7,
        ],
    );
    source.cb.set_rows(10, 2, &[90; 16]);
    let mut whole = Picture::new(alloc, 16, 32)?;
    let mut part = Picture::new(alloc, 16, 16)?;
    let site = Site {
        x: 0,
        y: 16,
        near: NOWHERE,
        qp: 20,
    };
    let modes = [2, 0, 1, 8, 2, 0, 1, 8, 2, 0, 1, 8, 2, 0, 1, 8];
    let one = code_intra4(&mut whole.stripe(), &source, &site, &modes, 0);
    let other = code_intra4(&mut part.stripe_at(1), &source, &site, &modes, 0);
    assert!(rt; same_head(&one, &other));
    assert!(rt; same_levels(&one, &other));
    assert!(rt; is_stripe(&part, 1, &whole));
    assert_eq!(rt;
        (one.luma_cbp, one.chroma_cbp, whole.y.get(0, 0)),
        (15, 2, 0)
    );
    Ok(())
}

#[test]
fn a_stripe_is_predicted_from_its_own_rows(rt: HostRuntime) -> Result<(), Fail> {
    let alloc = rt.alloc();
    let mut source = Picture::new(alloc, 16, 48)?;
    source.y.set_rows(16, 16, &[70; 256]);
    source.y.set_rows(32, 16, &[80; 256]);
    source.cb.set_rows(8, 16, &[60; 128]);
    source.cr.set_rows(8, 16, &[190; 128]);
    let mut whole = Picture::new(alloc, 16, 48)?;
    let mut part = Picture::new(alloc, 16, 32)?;
    let above = Avail {
        left: false,
        above: true,
        corner: false,
        above_right: false,
    };
    let upper = Site {
        x: 0,
        y: 16,
        near: NOWHERE,
        qp: 20,
    };
    let lower = Site {
        x: 0,
        y: 32,
        near: above,
        qp: 20,
    };
    code_intra16(&mut whole.stripe(), &source, &upper, 2, 0);
    code_intra16(&mut part.stripe_at(1), &source, &upper, 2, 0);
    let one = code_intra8(&mut whole.stripe(), &source, &lower, &[0; 16], 2);
    let other = code_intra8(&mut part.stripe_at(1), &source, &lower, &[0; 16], 2);
    assert!(rt; same_head(&one, &other));
    assert!(rt; same_levels(&one, &other));
    assert!(rt; is_stripe(&part, 1, &whole));
    assert_eq!(rt; (part.y.get(0, 0), part.y.get(0, 16)), (70, 80));
    assert_eq!(rt;
        (part.cb.get(0, 8), part.cr.get(0, 8), one.chroma_cbp),
        (60, 190, 0)
    );
    Ok(())
}

#[test]
fn plans_the_second_row(rt: HostRuntime) -> Result<(), Fail> {
    let alloc = rt.alloc();
    let mut source = Picture::new(alloc, 16, 32)?;
    assert_eq!(rt; (source.y.width, source.y.height), (16, 32));
    source.y.set_rows(
        2,
        1,
        &[
            10, 15, 20, 25, 30, 35, 40, 45, 50, 55, 60, 65, 70, 75, 80, 85,
        ],
    );
    source.y.set_rows(
        3,
        1,
        &[
            90, 86, 82, 78, 74, 70, 66, 62, 58, 54, 50, 46, 42, 38, 34, 30,
        ],
    );
    source.y.set_rows(
        14,
        1,
        &[30, 75, 69, 16, 47, 77, 60, 80, 74, 8, 77, 1, 60, 33, 70, 29],
    );
    source.y.set_rows(
        15,
        1,
        &[
            0, 7, 14, 21, 28, 35, 42, 49, 56, 63, 70, 77, 84, 91, 98, 105,
        ],
    );
    source.y.set_rows(
        16,
        1,
        &[
            3, 10, 17, 24, 31, 38, 45, 52, 59, 66, 73, 80, 87, 94, 101, 108,
        ],
    );
    source.y.set_rows(
        17,
        1,
        &[
            1, 8, 15, 22, 29, 36, 43, 50, 57, 64, 71, 78, 85, 92, 99, 106,
        ],
    );
    source.y.set_rows(
        25,
        1,
        &[
            200, 200, 198, 196, 192, 188, 182, 176, 168, 160, 150, 140, 128, 116, 102, 88,
        ],
    );
    source.cb.set_rows(7, 1, &[60, 61, 62, 63, 64, 65, 66, 67]);
    source.cb.set_rows(8, 1, &[61, 62, 63, 64, 65, 66, 67, 68]);
    source.cr.set_rows(9, 1, &[30; 8]);
    let mut plan = RowPlan::new(alloc, 1)?;
    assert_eq!(rt; plan.mbs.len(), 1);
    plan_row(&source, SliceKind::I, 0, 1, true, &mut plan);
    assert_eq!(rt; plan.mbs.len(), 1);
    let whole = plan.mbs[0];
    assert_eq!(rt; (plan.row, whole.mode16, whole.chroma_mode), (1, 0, 2));
    assert_eq!(rt; whole.modes8.as_slice(), [0, 1, 0, 0].as_slice());
    assert_eq!(rt;
        whole.modes4.as_slice(),
        [0, 1, 0, 0, 1, 1, 0, 0, 0, 1, 0, 0, 1, 1, 0, 0].as_slice()
    );
    assert_eq!(rt; whole.intra.as_slice(), [12762, 4514, 1572].as_slice());
    plan_row(&source, SliceKind::I, 1, 1, true, &mut plan);
    assert_eq!(rt; plan.mbs.len(), 1);
    let apart = plan.mbs[0];
    assert_eq!(rt; (apart.mode16, apart.chroma_mode), (2, 0));
    assert_eq!(rt; apart.intra.as_slice(), [29668, 11056, 3420].as_slice());
    Ok(())
}
