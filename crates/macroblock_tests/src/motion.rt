// Motion that is derived, and the samples that it shows.
ghost use Rattle.std.specs.Prelude.{◌≡◌, ◌≤◌, ◌<◌, IfOk};
ghost use Rattle.picture_planes.specs.Margins.{IsFilled};

use enc_tables::{Motion, Vector};
use motion_derive::{Field, direct_motion, predict, skip_motion};
use picture_planes::Plane;
use std::alloc::{AllocError, Global};
use std::test::Fail;
use subpel_filter::{chroma_block, luma_block};

// A block that uses list 0 alone.
fn first(reference: i8, x: i16, y: i16) -> Motion {
    Motion {
        refs: [reference, -1],
        vectors: [Vector { x, y }, Vector { x: 0, y: 0 }],
    }
}

fn beside() -> Field {
    Field {
        a: Some(first(0, 4, 0)),
        b: Some(first(0, 0, 8)),
        c: Some(first(0, -4, 4)),
    }
}

#[test]
fn derived(rt: HostRuntime) {
    assert_eq!(rt; predict(0, 0, 0, 0, &beside()), Vector { x: 0, y: 4 });
    assert_eq!(rt; predict(1, 1, 0, 0, &beside()), Vector { x: 4, y: 0 });
    assert_eq!(rt; skip_motion(&beside()), first(0, 0, 4));
    let colocated = [
        Some(first(0, 1, -1)),
        Some(first(0, 2, 0)),
        Some(first(1, 0, 0)),
        None,
    ];
    assert_eq!(rt;
        direct_motion(&beside(), &colocated),
        [
            first(0, 0, 0),
            first(0, 0, 4),
            first(0, 0, 4),
            first(0, 0, 4)
        ]
    );
}

// A plane of 16 columns and 16 rows, whose margin is filled.
fn plane(alloc: Global, pad: u32) -> Result<Plane, AllocError>
    requires { pad ≤ 40 }
    ensures { IfOk result (λ p. (p.width ≡ 16) × (p.height ≡ 16) × (p.pad ≡ pad) × IsFilled p) }
{
    let mut samples = [0u8; 256];
    for k in 0..256u32 {
        let (x, y) = (k % 16, k / 16);
        samples[k as usize] = ((7 * x * x + 13 * y * y + 29 * x * y + 31 * x + 5) % 256) as u8;
    }
    let mut plane = Plane::new(alloc, 16, 16, pad)?;
    plane.set_rows(0, 16, &samples);
    plane.pad_edges();
    Ok(plane)
}

// Row 3 of a block of luma beyond the corner, at each of the sixteen fractions.
const QUARTERS: [[u8; 8]; 16] = [
    [18, 18, 18, 85, 166, 5, 114, 237],
    [19, 15, 27, 121, 125, 12, 160, 223],
    [20, 12, 36, 157, 84, 18, 206, 208],
    [19, 15, 61, 162, 45, 66, 222, 163],
    [26, 26, 26, 97, 122, 36, 69, 232],
    [27, 23, 35, 133, 81, 43, 115, 217],
    [28, 18, 56, 130, 81, 17, 173, 192],
    [27, 23, 72, 117, 76, 21, 216, 149],
    [34, 34, 34, 108, 77, 67, 23, 226],
    [35, 29, 55, 105, 77, 42, 81, 201],
    [36, 24, 75, 102, 77, 16, 139, 176],
    [35, 29, 92, 90, 72, 20, 183, 133],
    [46, 46, 46, 131, 42, 99, 18, 196],
    [47, 37, 81, 91, 72, 69, 55, 172],
    [48, 32, 101, 88, 72, 43, 113, 147],
    [47, 37, 118, 75, 67, 47, 157, 104],
];

fn quarter(plane: &Plane, k: u8) -> [u8; 8]
    requires plane { (plane.now.width ≡ 16) × (plane.now.height ≡ 16) × (plane.now.pad ≡ 40) × IsFilled plane.now }
    requires place { k < 16 }
{
    let v = Vector {
        x: (k % 4) as i16 - 8,
        y: (k / 4) as i16 - 8,
    };
    let mut out = [0u8; 256];
    luma_block(plane, 0, 0, v, 8, 8, &mut out);
    [
        out[24], out[25], out[26], out[27], out[28], out[29], out[30], out[31],
    ]
}

#[test]
fn blocks_beyond_the_corners(rt: HostRuntime) -> Result<(), Fail> {
    let luma = plane(rt.alloc(), 40)?;
    for k in 0..16u8 {
        assert_eq!(rt; quarter(&luma, k), QUARTERS[k as usize]);
    }
    let mut out = [0u8; 256];
    luma_block(&luma, 8, 8, Vector { x: 131, y: -6 }, 8, 8, &mut out);
    assert_eq!(rt;
        [
            out[0], out[8], out[16], out[24], out[32], out[40], out[48], out[56]
        ],
        [6, 183, 186, 15, 110, 223, 162, 173]
    );
    let chroma = plane(rt.alloc(), 20)?;
    let mut out = [0u8; 64];
    chroma_block(&chroma, 4, 8, Vector { x: -131, y: 6 }, 4, 8, &mut out);
    assert_eq!(rt; [out[12], out[13], out[14], out[15]], [74, 74, 74, 74]);
    chroma_block(&chroma, 8, 0, Vector { x: -13, y: -7 }, 8, 8, &mut out);
    assert_eq!(rt; [out[24], out[25], out[26], out[27]], [130, 215, 181, 142]);
    Ok(())
}
