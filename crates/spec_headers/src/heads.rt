// What parameter sets and slice headers say.
use enc_tables::SliceKind;

/// What a sequence parameter set says (clause 7.3.2.1.1).
#[derive(Clone, Copy, Debug, PartialEq, Eq)]
pub struct SeqHead {
    /// Luma samples in a row of the film, before padding.
    pub width: u32,
    /// Luma rows of the film, before padding.
    pub height: u32,
    /// level_idc.
    pub level: u8,
    /// max_num_ref_frames.
    pub refs: u32,
    /// The usability information, where it is written.
    pub timing: Option<Timing>,
}

/// Rate and buffer (clauses E.1.1 and E.1.2).
#[derive(Clone, Copy, Debug, PartialEq, Eq)]
pub struct Timing {
    /// Pictures in `den` seconds.
    pub num: u32,
    /// Seconds for `num` pictures.
    pub den: u32,
    /// Bits per second.
    pub rate: u32,
    /// The size of the coded picture buffer in bits.
    pub cpb: u32,
    /// Whether pictures are shown in another order than they are coded.
    pub reorder: bool,
}

/// What a slice header says (clause 7.3.3).
#[derive(Clone, Copy, Debug, PartialEq, Eq)]
pub struct SliceHead {
    /// The address of the slice's first macroblock.
    pub first_mb: u32,
    /// The slice's type.
    pub kind: SliceKind,
    /// Whether its picture is an IDR picture.
    pub idr: bool,
    /// frame_num.
    pub frame_num: u16,
    /// idr_pic_id, 0 or 1.
    pub idr_id: u8,
    /// pic_order_cnt_lsb.
    pub poc: u16,
    /// How many entries list 0 has.
    pub refs0: u8,
    /// How many entries list 1 has.
    pub refs1: u8,
    /// abs_diff_pic_num_minus1 of the picture that is moved to the front of list 0, if one is.
    pub moved: Option<u16>,
    /// The luma quantisation parameter.
    pub qp: u8,
    /// Whether the slice data is coded by the arithmetic coder.
    pub cabac: bool,
}
