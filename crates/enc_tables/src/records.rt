// What is known of slices and macroblocks.
ghost use Rattle.std.specs.Prelude.{◌≡◌};
ghost use Rattle.enc_tables.specs.Records.{blank_record};

/// The type of a slice (ITU-T H.264, table 7-6).
#[derive(Clone, Copy, Debug, Default, PartialEq, Eq)]
pub enum SliceKind {
    /// Intra prediction alone.
    #[default]
    I,
    /// Intra prediction, and inter prediction from list 0.
    P,
    /// Intra prediction, and inter prediction from both lists.
    B,
}

/// A motion vector in quarter luma samples (clause 8.4.1).
#[derive(Clone, Copy, Debug, PartialEq, Eq)]
pub struct Vector {
    /// To the right.
    pub x: i16,
    /// Downwards.
    pub y: i16,
}

impl Vector {
    /// No movement.
    pub const ZERO: Vector = Vector { x: 0, y: 0 };
}

/// The motion of a block: for each of the two lists a reference index and a vector.
#[derive(Clone, Copy, Debug, PartialEq, Eq)]
pub struct Motion {
    /// The reference index in each list; −1 where the list is unused.
    pub refs: [i8; 2],
    /// The vector for each list.
    pub vectors: [Vector; 2],
}

impl Motion {
    /// Neither list is used.
    pub const NONE: Motion = Motion {
        refs: [-1, -1],
        vectors: [Vector::ZERO; 2],
    };
}

/// The type of a macroblock (tables 7-11, 7-13 and 7-14).
#[derive(Clone, Copy, Debug, PartialEq, Eq)]
pub enum MbKind {
    /// I_PCM: samples as they are.
    Pcm,
    /// Intra prediction by 4x4 blocks.
    Intra4,
    /// Intra prediction by 8x8 blocks.
    Intra8,
    /// Intra prediction of the whole macroblock.
    Intra16,
    /// One partition, list 0.
    P16,
    /// An upper and a lower partition, list 0.
    P16x8,
    /// A left and a right partition, list 0.
    P8x16,
    /// Four partitions, list 0.
    P8x8,
    /// P_Skip.
    PSkip,
    /// One partition, either list or both.
    B16,
    /// An upper and a lower partition, each with either list or both.
    B16x8,
    /// A left and a right partition, each with either list or both.
    B8x16,
    /// Four partitions, each with either list or both.
    B8x8,
    /// B_Direct_16x16.
    BDirect,
    /// B_Skip.
    BSkip,
}

/// All that the syntax says of one macroblock. A field that its type doesn't use is 0; an intra macroblock has motion
/// that uses neither list.
#[derive(Clone, Copy)]
pub struct MbRecord {
    /// The macroblock's type.
    pub kind: MbKind,
    /// Whether the residual has 8x8 transforms.
    pub transform8: bool,
    /// Intra modes: sixteen of Intra4, the first four of Intra8, the first of Intra16.
    pub modes: [u8; 16],
    /// The intra chroma mode.
    pub chroma_mode: u8,
    /// The motion of the four 8x8 blocks.
    pub motion: [Motion; 4],
    /// The written vector differences: that of 8x8 block k in list l at 4l + k.
    pub mvd: [Vector; 8],
    /// A bit for each 8x8 luma block with a level that isn't 0 (coded_block_pattern).
    pub luma_cbp: u8,
    /// 0: no chroma level; 1: DC levels alone; 2: AC levels too.
    pub chroma_cbp: u8,
    /// The luma quantisation parameter.
    pub qp: u8,
    /// The DC levels of Intra16, in zigzag order.
    pub luma_dc: [i16; 16],
    /// Luma levels: those of 4x4 block b in zigzag order at 16b, those of 8x8 block k at 64k. Of Intra16 the first of
    /// the 16 places is 0, since the DC levels stand apart.
    pub luma: [i16; 256],
    /// The DC levels: those of Cb at 0, those of Cr at 4.
    pub chroma_dc: [i16; 8],
    /// The AC levels in zigzag order: those of 4x4 block b of Cb at 15b, of Cr at 60 + 15b.
    pub chroma_ac: [i16; 120],
}

impl MbRecord {
    /// A macroblock of a kind and a luma quantisation parameter, of which nothing else is said.
    #[tactic(auto, unfolding(crate::specs::Records::blank_record))]
    pub fn blank(kind: MbKind, qp: u8) -> MbRecord
        ensures { result ≡ blank_record kind qp }
    {
        MbRecord {
            kind,
            transform8: false,
            modes: [0; 16],
            chroma_mode: 0,
            motion: [Motion::NONE; 4],
            mvd: [Vector::ZERO; 8],
            luma_cbp: 0,
            chroma_cbp: 0,
            qp,
            luma_dc: [0; 16],
            luma: [0; 256],
            chroma_dc: [0; 8],
            chroma_ac: [0; 120],
        }
    }
}

/// The state of a context of the arithmetic coder (clause 9.3.1.1).
#[derive(Clone, Copy, Debug, PartialEq, Eq)]
pub struct CtxState {
    /// The probability state, at most 63 (pStateIdx).
    pub state: u8,
    /// The more probable value (valMPS).
    pub mps: bool,
}

/// A picture's place in the plan of the coded order.
#[derive(Clone, Copy, Debug, Default, PartialEq, Eq)]
pub struct PlanStep {
    /// Its place in display order, from 0.
    pub display: u32,
    /// Its slices' type.
    pub kind: SliceKind,
    /// Whether it is an IDR picture.
    pub idr: bool,
    /// Its frame_num.
    pub frame_num: u16,
    /// Its picture order count since the last IDR picture.
    pub poc: u16,
}

/// The best motion of a partition and its cost.
#[derive(Clone, Copy, Debug, PartialEq, Eq)]
pub struct PartPlan {
    /// Reference indices and vectors.
    pub motion: Motion,
    /// The sum of absolute differences, and what is added for the references.
    pub cost: u32,
}

/// What is planned for one macroblock before it is coded.
#[derive(Clone, Copy)]
pub struct MbPlan {
    /// The mode of Intra16.
    pub mode16: u8,
    /// The modes of Intra8.
    pub modes8: [u8; 4],
    /// The modes of Intra4.
    pub modes4: [u8; 16],
    /// The intra chroma mode.
    pub chroma_mode: u8,
    /// The costs of Intra16, Intra8 and Intra4: sums of absolute luma differences.
    pub intra: [u32; 3],
    /// The nine partitions: 16x16; 16x8 upper and lower; 8x16 left and right; the four 8x8.
    pub parts: [PartPlan; 9],
}
