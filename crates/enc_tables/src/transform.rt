// The tables of transforms, scaling and quantising.

/// Where each place of the zigzag scan of a 4x4 block stands, row by row (ITU-T H.264, clause 8.5.6).
pub const ZIGZAG4: [u8; 16] = [0, 1, 4, 8, 5, 2, 3, 6, 9, 12, 13, 10, 7, 11, 14, 15];

/// Where each place of the zigzag scan of an 8x8 block stands, row by row (clause 8.5.7).
pub const ZIGZAG8: [u8; 64] = [
    0, 1, 8, 16, 9, 2, 3, 10, 17, 24, 32, 25, 18, 11, 4, 5, 12, 19, 26, 33, 40, 48, 41, 34, 27, 20,
    13, 6, 7, 14, 21, 28, 35, 42, 49, 56, 57, 50, 43, 36, 29, 22, 15, 23, 30, 37, 44, 51, 58, 59,
    52, 45, 38, 31, 39, 46, 53, 60, 61, 54, 47, 55, 62, 63,
];

/// The class of each place of a 4x4 block, row by row: 0 where row and column are even, 1 where both are odd, 2
/// elsewhere (clause 8.5.9).
pub const CLASS4: [u8; 16] = [0, 2, 0, 2, 2, 1, 2, 1, 0, 2, 0, 2, 2, 1, 2, 1];

/// The class of each place of an 8x8 block, row by row (clause 8.5.9): 0 where row and column are divisible by 4,
/// 1 where both are odd, 2 where both are 2 modulo 4, 3 where one is divisible by 4 and the other odd,
/// 4 where one is divisible by 4 and the other 2 modulo 4, 5 elsewhere.
pub const CLASS8: [u8; 64] = [
    0, 3, 4, 3, 0, 3, 4, 3, 3, 1, 5, 1, 3, 1, 5, 1, 4, 5, 2, 5, 4, 5, 2, 5, 3, 1, 5, 1, 3, 1, 5, 1,
    0, 3, 4, 3, 0, 3, 4, 3, 3, 1, 5, 1, 3, 1, 5, 1, 4, 5, 2, 5, 4, 5, 2, 5, 3, 1, 5, 1, 3, 1, 5, 1,
];

/// The scaling of a 4x4 level, by the quantisation parameter modulo 6 and by class (clause 8.5.9).
pub const SCALING4: [[u8; 3]; 6] = [
    [10, 16, 13],
    [11, 18, 14],
    [13, 20, 16],
    [14, 23, 18],
    [16, 25, 20],
    [18, 29, 23],
];

/// The scaling of an 8x8 level, by the quantisation parameter modulo 6 and by class (clause 8.5.9).
pub const SCALING8: [[u8; 6]; 6] = [
    [20, 18, 32, 19, 25, 24],
    [22, 19, 35, 21, 28, 26],
    [26, 23, 42, 24, 33, 31],
    [28, 25, 45, 26, 35, 33],
    [32, 28, 51, 30, 40, 38],
    [36, 32, 58, 34, 46, 43],
];

/// The multiplier of the quantiser for 4x4 blocks, by the quantisation parameter modulo 6 and by class.
/// The standard leaves the forward direction free; these make the scaling undo it.
pub const MULTIPLIER4: [[u16; 3]; 6] = [
    [13107, 5243, 8066],
    [11916, 4660, 7490],
    [10082, 4194, 6554],
    [9362, 3647, 5825],
    [8192, 3355, 5243],
    [7282, 2893, 4559],
];

/// The multiplier of the quantiser for 8x8 blocks, by the quantisation parameter modulo 6 and by class.
pub const MULTIPLIER8: [[u16; 6]; 6] = [
    [13107, 11428, 20972, 12222, 16777, 15481],
    [11916, 10826, 19174, 11058, 14980, 14290],
    [10082, 8943, 15978, 9675, 12710, 11985],
    [9362, 8228, 14913, 8931, 11984, 11259],
    [8192, 7346, 13159, 7740, 10486, 9777],
    [7282, 6428, 11570, 6830, 9118, 8640],
];

/// The chroma quantisation parameter for each luma parameter, at a chroma_qp_index_offset of 0
/// (clause 8.5.8).
pub const CHROMA_QP: [u8; 52] = [
    0, 1, 2, 3, 4, 5, 6, 7, 8, 9, 10, 11, 12, 13, 14, 15, 16, 17, 18, 19, 20, 21, 22, 23, 24, 25,
    26, 27, 28, 29, 29, 30, 31, 32, 32, 33, 34, 34, 35, 35, 36, 36, 37, 37, 37, 38, 38, 38, 39, 39,
    39, 39,
];

/// The rows of the forward 4x4 transform, to which the inverse of clause 8.5.12.2 belongs.
pub const FORWARD4: [[i8; 4]; 4] = [[1, 1, 1, 1], [2, 1, -1, -2], [1, -1, -1, 1], [1, -2, 2, -1]];

/// The rows of the forward 8x8 transform, to which the inverse of clause 8.5.13.2 belongs, times 8.
pub const FORWARD8: [[i8; 8]; 8] = [
    [8, 8, 8, 8, 8, 8, 8, 8],
    [12, 10, 6, 3, -3, -6, -10, -12],
    [8, 4, -4, -8, -8, -4, 4, 8],
    [10, -3, -12, -6, 6, 12, 3, -10],
    [8, -8, -8, 8, 8, -8, -8, 8],
    [6, -12, 3, 10, -10, -3, 12, -6],
    [4, -8, 8, -4, -4, 8, -8, 4],
    [3, -6, 10, -12, 12, -10, 6, -3],
];

/// The rows of the 4x4 Hadamard transform (clause 8.5.10).
pub const HADAMARD4: [[i8; 4]; 4] = [[1, 1, 1, 1], [1, 1, -1, -1], [1, -1, -1, 1], [1, -1, 1, -1]];

/// The rows of the 2x2 Hadamard transform (clause 8.5.11.1).
pub const HADAMARD2: [[i8; 2]; 2] = [[1, 1], [1, -1]];
