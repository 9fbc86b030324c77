// Numbers that NAL units begin with.

/// nal_unit_type of a slice of an IDR picture (ITU-T H.264, table 7-1).
pub const UNIT_IDR_SLICE: u8 = 5;

/// nal_unit_type of a sequence parameter set.
pub const UNIT_SEQUENCE_SET: u8 = 7;

/// nal_unit_type of a picture parameter set.
pub const UNIT_PICTURE_SET: u8 = 8;

/// The nal_ref_idc of parameter sets and IDR pictures (clause 7.4.1): not 0, since others refer to them.
pub const HIGHEST_REF_IDC: u8 = 3;
