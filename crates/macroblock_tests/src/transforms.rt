// The calls against numbers that were computed by hand or by another program.
ghost use Rattle.std.specs.Prelude.{◌≡◌, ◌≤◌};
ghost use Rattle.spec_residual.specs.Levels.{places};

use std::process::Abort;
use transform_quant::{
    BlockKind, chroma_dc, forward4, forward8, inverse4, inverse8, levels4, luma_dc, quantise,
    quantise_chroma_dc, quantise4, quantise8, rescale, rescale_chroma_dc, rescale_luma_dc,
    rescale4,
};

// Sixteen differences, and their transform.
const DIFFERENCES4: [i16; 16] = [
    208, 115, 96, 147, 137, 195, 208, -178, -122, 90, 70, 179, 208, -204, 191, -88,
];

const COEFFICIENTS4: [i32; 16] = [
    1252, 373, -270, 1109, 1063, 1087, -319, -1444, 94, 303, 824, 1109, 169, -2454, 693, -2427,
];

// Sixty-four differences, and their transform.
const DIFFERENCES8: [i16; 64] = [
    38, 208, -169, -242, -45, -47, 253, -217, -203, -191, -92, -13, 231, 42, -25, -45, -149, -153,
    -93, 65, 210, 93, -84, -87, -37, -208, 66, 10, 157, 175, -4, -48, -214, -150, 38, -131, -238,
    -152, -207, -213, -158, -126, 100, 136, -110, -99, 98, -124, -172, 64, -195, 208, -244, -119,
    106, -136, 184, 175, -143, 38, -134, -227, -249, 154,
];

const COEFFICIENTS8: [i32; 64] = [
    -2844, -353, -1160, 155, -214, 655, -991, -355, 792, -2064, -1194, 3058, -1030, -1172, -2,
    2433, 582, 902, 1873, 364, 242, -684, -1515, -732, -1257, 460, 710, -615, -2951, 2068, -1132,
    410, -314, 1834, 1902, 377, -380, -1038, 670, 531, 1452, -334, 188, 1259, -1040, 1077, -1056,
    -728, 670, 661, 470, 57, 135, -153, -78, 308, -2112, 866, 403, -142, -787, -341, -655, -828,
];

#[test]
fn forward(rt: HostRuntime) {
    let mut dc = [0i32; 16];
    dc[0] = 4080;
    assert_eq!(rt; forward4(&[255; 16]), dc);
    assert_eq!(rt; forward4(&DIFFERENCES4), COEFFICIENTS4);
    assert_eq!(rt; forward8(&DIFFERENCES8), COEFFICIENTS8);
    assert_eq!(rt;
        luma_dc(&[
            1202, 979, -1617, -1792, -2959, 1611, 1219, -1329, 833, 1828, -415, 3346, -2827, 3476,
            1151, -1838
        ]),
        [
            1434, 2709, -6798, -4847, -4120, 1643, -272, 3223, -2700, 4217, -2446, 1931, 2930,
            2611, 9612, 489
        ]
    );
    assert_eq!(rt;
        chroma_dc(&[472, 2742, -534, -2797]),
        [-117, -7, 6545, -4533]
    );
}

// The levels of those sixteen coefficients, and how many aren't 0.
fn has_levels(
    rt: &impl Abort,
    kind: BlockKind,
    intra: bool,
    qp: u8,
    levels: [i16; 16],
    nonzero: u32,
)
    requires in_range { qp ≤ 51 }
    requires of_kind { places kind ≡ 16 }
{
    let block = quantise4(kind, intra, qp, &COEFFICIENTS4);
    assert_eq!(rt; block.levels, levels);
    assert_eq!(rt; block.nonzero, nonzero);
}

#[test]
fn levels_of_4x4(rt: HostRuntime) {
    has_levels(
        &rt,
        BlockKind::Luma4,
        true,
        1,
        [
            455, 85, 243, 34, 154, -98, 253, -73, 69, 38, -349, 299, -205, 253, 158, -345,
        ],
        16,
    );
    has_levels(
        &rt,
        BlockKind::Luma4,
        false,
        14,
        [
            96, 18, 53, 7, 34, -20, 55, -16, 15, 8, -78, 63, -46, 55, 34, -77,
        ],
        16,
    );
    has_levels(
        &rt,
        BlockKind::Luma4,
        true,
        27,
        [22, 4, 12, 2, 7, -5, 12, -3, 3, 2, -17, 15, -10, 12, 8, -17],
        16,
    );
    has_levels(
        &rt,
        BlockKind::Luma4,
        false,
        40,
        [5, 1, 2, 0, 1, -1, 2, 0, 0, 0, -4, 3, -2, 2, 1, -4],
        12,
    );
    has_levels(
        &rt,
        BlockKind::Chroma4,
        false,
        29,
        [17, 3, 9, 1, 6, -3, 9, -2, 2, 1, -13, 11, -8, 9, 6, -13],
        16,
    );
    has_levels(
        &rt,
        BlockKind::Chroma4,
        true,
        39,
        [5, 1, 3, 0, 2, -1, 3, -1, 1, 0, -4, 4, -2, 3, 2, -4],
        14,
    );
    has_levels(
        &rt,
        BlockKind::LumaDc,
        true,
        10,
        [
            78, 23, 66, 6, 68, -17, 69, -20, 19, 10, -153, 51, -90, 69, 43, -152,
        ],
        16,
    );
    has_levels(
        &rt,
        BlockKind::LumaDc,
        true,
        35,
        [4, 1, 4, 0, 4, -1, 4, -1, 1, 0, -8, 3, -5, 4, 2, -8],
        14,
    );
}

#[test]
fn levels_row_by_row(rt: HostRuntime) {
    let levels = [22, 4, -5, 12, 12, 7, -3, -10, 2, 3, 15, 12, 2, -17, 8, -17];
    assert_eq!(rt; levels4(BlockKind::Luma4, true, 27, &COEFFICIENTS4), levels);
    assert_eq!(rt;
        rescale4(27, &levels),
        [
            4928, 1152, -1120, 3456, 3456, 2576, -864, -3680, 448, 864, 3360, 3456, 576, -6256,
            2304, -6256
        ]
    );
}

#[test]
fn levels_of_a_white_block(rt: HostRuntime) {
    let block = quantise4(BlockKind::Luma4, true, 0, &forward4(&[255; 16]));
    let mut levels = [0i16; 16];
    levels[0] = 1632;
    assert_eq!(rt; block.levels, levels);
    assert_eq!(rt; block.nonzero, 1);
}

#[test]
fn levels_of_8x8(rt: HostRuntime) {
    let block = quantise8(true, 22, &COEFFICIENTS8);
    assert_eq!(rt;
        block.levels,
        [
            -44, -5, 12, 11, -29, -23, 2, -22, 17, -18, -5, 6, 47, 43, -3, 10, -15, 7, 13, 27, 21,
            13, -5, 38, -8, 5, -16, -20, -5, 0, -13, -43, 5, 3, 12, -31, 12, 12, 17, -6, 29, -38,
            34, -13, -21, -15, -15, 1, 7, -2, 3, 15, 13, 6, 8, -20, -3, -11, -5, -2, -10, 6, -12,
            -11
        ]
    );
    assert_eq!(rt; block.nonzero, 63);
    let block = quantise8(false, 33, &COEFFICIENTS8);
    assert_eq!(rt;
        block.levels,
        [
            -12, -1, 3, 3, -8, -6, 0, -6, 5, -5, -1, 1, 13, 12, -1, 2, -4, 2, 3, 7, 6, 3, -1, 11,
            -2, 1, -4, -5, -1, 0, -3, -12, 1, 1, 3, -9, 3, 3, 5, -1, 8, -10, 9, -4, -6, -4, -4, 0,
            2, 0, 0, 4, 3, 1, 2, -5, 0, -3, -1, 0, -3, 1, -3, -3
        ]
    );
    assert_eq!(rt; block.nonzero, 57);
}

#[test]
fn levels_of_chroma_dc(rt: HostRuntime) {
    let coefficients = [1234, -5678, 9012, -345];
    let block = quantise_chroma_dc(true, 11, &coefficients);
    assert_eq!(rt; block.levels, [68, -315, 501, -19]);
    assert_eq!(rt; block.nonzero, 4);
    let block = quantise_chroma_dc(false, 24, &coefficients);
    assert_eq!(rt; block.levels, [15, -71, 112, -4]);
    assert_eq!(rt; block.nonzero, 4);
    assert_eq!(rt; quantise(BlockKind::ChromaDc, true, 0, 0, 0), 0);
}

#[test]
fn rescaled_levels(rt: HostRuntime) {
    assert_eq!(rt; rescale(BlockKind::Luma4, 0, 0, 1632), 16320);
    assert_eq!(rt; rescale(BlockKind::Luma4, 0, 0, -7), -70);
    assert_eq!(rt; rescale(BlockKind::Luma4, 17, 1, 301), 27692);
    assert_eq!(rt; rescale(BlockKind::Luma4, 51, 5, -3), -17664);
    assert_eq!(rt; rescale(BlockKind::Chroma4, 39, 6, 12), 13824);
    assert_eq!(rt; rescale(BlockKind::Luma8, 3, 0, -1001), -7007);
    assert_eq!(rt; rescale(BlockKind::Luma8, 8, 9, 77), 886);
    assert_eq!(rt; rescale(BlockKind::Luma8, 9, 18, -77), -1732);
    assert_eq!(rt; rescale(BlockKind::Luma8, 22, 11, 50), 2800);
    assert_eq!(rt; rescale(BlockKind::Luma8, 23, 14, -50), -4300);
    assert_eq!(rt; rescale(BlockKind::Luma8, 51, 4, 9), 16128);
}

#[test]
fn dc_levels_rescaled(rt: HostRuntime) {
    let levels = [
        -132, 115, -177, -172, 294, 138, 53, -71, -181, -247, 231, -102, 146, -124, -124, -218,
    ];
    assert_eq!(rt;
        rescale_luma_dc(5, &levels),
        [
            -2569, 2651, -1354, 3560, 3002, 4388, -535, -3307, -3604, 3614, 761, -2551, -3415,
            -4675, -3226, -2236
        ]
    );
    assert_eq!(rt;
        rescale_luma_dc(9, &levels),
        [
            -3997, 4123, -2107, 5537, 4669, 6825, -833, -5145, -5607, 5621, 1183, -3969, -5313,
            -7273, -5019, -3479
        ]
    );
    assert_eq!(rt;
        rescale_luma_dc(30, &levels),
        [
            -45680, 47120, -24080, 63280, 53360, 78000, -9520, -58800, -64080, 64240, 13520,
            -45360, -60720, -83120, -57360, -39760
        ]
    );
    let chroma = [-183, 0, -298, 22];
    assert_eq!(rt; rescale_chroma_dc(1, &chroma), [-2525, -2767, 511, 753]);
    assert_eq!(rt;
        rescale_chroma_dc(20, &chroma),
        [-23868, -26156, 4836, 7124]
    );
    assert_eq!(rt; rescale_chroma_dc(0, &[1, 0, 0, 0]), [5; 4]);
}

// What the levels of those coefficients are rescaled to.
const RESCALED8: [i32; 64] = [
    -2688, -208, -1680, 0, -224, 416, -1400, -208, 624, -1600, -1584, 2400, -832, -800, 0, 1800,
    840, 1320, 4680, 528, 280, -792, -3600, -1056, -1040, 200, 792, -400, -2496, 1600, -1584, 200,
    -224, 1456, 3080, 208, -224, -832, 840, 416, 1248, -200, 264, 1000, -832, 800, -1320, -600,
    840, 792, 1080, 0, 0, 0, 0, 264, -1872, 600, 528, 0, -624, -200, -792, -600,
];

#[test]
fn inverse(rt: HostRuntime) {
    let white = [16320, 0, 0, 0, 0, 0, 0, 0, 0, 0, 0, 0, 0, 0, 0, 0];
    assert_eq!(rt; inverse4(&white), [255; 16]);
    let coefficients4 = [
        4928, 1152, -1120, 3456, 3456, 2576, -864, -3680, 448, 864, 3360, 3456, 576, -6256, 2304,
        -6256,
    ];
    assert_eq!(rt;
        inverse4(&coefficients4),
        [
            206, 113, 93, 158, 132, 193, 209, -182, -123, 92, 67, 173, 203, -199, 189, -91
        ]
    );
    assert_eq!(rt;
        inverse8(&RESCALED8),
        [
            39, 186, -170, -225, -59, -38, 247, -203, -186, -170, -80, -25, 231, 33, -28, -47,
            -140, -157, -77, 44, 188, 92, -94, -92, -27, -178, 68, 9, 164, 150, -10, -25, -210,
            -143, 32, -126, -209, -156, -194, -188, -173, -118, 110, 132, -110, -83, 89, -122,
            -151, 70, -176, 189, -221, -109, 83, -133, 177, 182, -117, 30, -143, -235, -240, 157
        ]
    );
}
