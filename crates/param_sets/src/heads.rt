// The heads, from their fields.
ghost use Rattle.std.specs.Prelude.{◌≡◌, ℕ, ◌+◌, ◌-◌, ◌*◌, ◌/◌, ◌^◌, ◌++◌, ◌∷◌, ◌<◌, ◌≤◌, [], length, replicate, true, false, IfSome, ◌&&◌, ◌==◌, if◌then◌else◌};
ghost use Rattle.spec_bits.specs.declared.Field.TheVariants.{U, Ue};
ghost use Rattle.spec_bits.specs.Golomb.{to_byte};
ghost use Rattle.spec_bits.specs.Bits.{digit};
ghost use Rattle.spec_bits.specs.Fields.{fields_bits, FieldFits};
ghost use Rattle.spec_headers.specs.HeadFields.{padding, cropping_fields, usability_fields, sequence_fields, format_fields, picture_fields, place_fields, qp_field, moved_fields, list_fields, marking_fields, init_fields, slice_fields, slice_head_bits};
ghost use Rattle.spec_headers.specs.Heads.{kind_number};
ghost use Rattle.spec_headers.specs.Allowed.{IsSeqHead, IsSliceHead, IsTiming, HasLists};
ghost use Rattle.bit_strings.specs.BitText.{Appends};
ghost use Rattle.param_sets.specs.Pieces.{Grows};

use crate::fields::put_fields;
use bit_strings::{BitBuf, Full};
use enc_tables::SliceKind;
use spec_bits::Field;
use spec_bits::Field::{Se, U, Ue};
use spec_headers::{SeqHead, SliceHead, Timing};
use whole_numbers::in_macroblocks;

/// Appends the fields of a sequence parameter set of High profile (clause 7.3.2.1.1). The caller ends the payload
/// with `trail`.
///
/// `Full` comes exactly where they don't fit; the buffer is then unchanged.
pub fn write_sps(out: &mut BitBuf, head: &SeqHead) -> Result<(), Full>
    requires allowed { IsSeqHead head.now }
    requires empty { out.old.text ≡ [] }
    ensures { Appends out.old out.new (fields_bits (sequence_fields head.now)) result }
{
    let start = out.len();
    if put_sequence(out, head).is_err() {
        out.cut(start);
        return Err(Full);
    }
    Ok(())
}

/// Appends the fields of a picture parameter set (clause 7.3.2.2): whether the arithmetic coder is used, and whether
/// 8x8 transforms are. The caller ends the payload with `trail`.
///
/// `Full` comes exactly where they don't fit; the buffer is then unchanged.
pub fn write_pps(out: &mut BitBuf, cabac: bool, t8x8: bool) -> Result<(), Full>
    requires { out.old.text ≡ [] }
    ensures { Appends out.old out.new (fields_bits (picture_fields cabac t8x8)) result }
{
    let start = out.len();
    if put_picture(out, cabac, t8x8).is_err() {
        out.cut(start);
        return Err(Full);
    }
    Ok(())
}

/// Appends a slice header (clause 7.3.3), and where the arithmetic coder follows, ones to the byte.
///
/// `Full` comes exactly where they don't fit; the buffer is then unchanged.
pub fn write_slice_head(out: &mut BitBuf, head: &SliceHead) -> Result<(), Full>
    requires allowed { IsSliceHead head.now }
    requires empty { out.old.text ≡ [] }
    ensures { Appends out.old out.new (slice_head_bits head.now) result }
{
    let start = out.len();
    if put_slice_head(out, head).is_err() {
        out.cut(start);
        return Err(Full);
    }
    Ok(())
}

fn put_sequence(out: &mut BitBuf, head: &SeqHead) -> Result<(), Full>
    requires { IsSeqHead head.now }
    ensures { Grows out.old out.new (fields_bits (sequence_fields head.now)) result }
{
    put_format(out, head)?;
    put_cropping(out, head.width, head.height)?;
    put_usability(out, head.refs, head.timing)
}

// From the profile to direct_8x8_inference_flag.
#[tactic(auto, unfolding(spec_headers::specs::HeadFields::format_fields))]
fn put_format(out: &mut BitBuf, head: &SeqHead) -> Result<(), Full>
    requires { IsSeqHead head.now }
    ensures { Grows out.old out.new (fields_bits (format_fields head.now)) result }
{
    let wide = in_macroblocks(head.width);
    let high = in_macroblocks(head.height);
    put_fields(
        out,
        &[
            U(8, 100), // profile_idc
            U(8, 0), // constraint_set0_flag to constraint_set5_flag, reserved_zero_2bits
            U(8, head.level as u32), // level_idc
            Ue(0), // seq_parameter_set_id
            Ue(1), // chroma_format_idc
            Ue(0), // bit_depth_luma_minus8
            Ue(0), // bit_depth_chroma_minus8
            U(1, 0), // qpprime_y_zero_transform_bypass_flag
            U(1, 0), // seq_scaling_matrix_present_flag
            Ue(12), // log2_max_frame_num_minus4
            Ue(0), // pic_order_cnt_type
            Ue(12), // log2_max_pic_order_cnt_lsb_minus4
            Ue(head.refs), // max_num_ref_frames
            U(1, 0), // gaps_in_frame_num_value_allowed_flag
            Ue(wide - 1), // pic_width_in_mbs_minus1
            Ue(high - 1), // pic_height_in_map_units_minus1
            U(1, 1), // frame_mbs_only_flag
            U(1, 1), // direct_8x8_inference_flag
        ],
    )
}

#[tactic(auto, unfolding(spec_headers::specs::HeadFields::cropping_fields))]
fn put_cropping(out: &mut BitBuf, width: u32, height: u32) -> Result<(), Full>
    requires width { (1 ≤ width) × (width ≤ 4096) }
    requires height { (1 ≤ height) × (height ≤ 4096) }
    ensures { Grows out.old out.new (fields_bits (cropping_fields width height)) result }
{
    let right = padded_by(width);
    let bottom = padded_by(height);
    if is_whole(right, bottom) {
        return put_fields(
            out,
            &[
                U(1, 0), // frame_cropping_flag
            ],
        );
    }
    put_fields(
        out,
        &[
            U(1, 1), // frame_cropping_flag
            Ue(0), // frame_crop_left_offset
            Ue(right / 2), // frame_crop_right_offset
            Ue(0), // frame_crop_top_offset
            Ue(bottom / 2), // frame_crop_bottom_offset
        ],
    )
}

fn is_whole(right: u32, bottom: u32) -> bool
    ensures { result ≡ ((right == 0) && (bottom == 0)) }
{
    right == 0 && bottom == 0
}

#[tactic(auto, unfolding(spec_headers::specs::HeadFields::usability_fields))]
fn put_usability(out: &mut BitBuf, refs: u32, timing: Option<Timing>) -> Result<(), Full>
    requires refs { refs ≤ 4 }
    requires timing { IfSome timing IsTiming }
    ensures { Grows out.old out.new (fields_bits (usability_fields refs timing)) result }
{
    match timing {
        None => put_fields(out, &[U(1, 0)]),
        Some(timing) => put_timing(out, refs, timing),
    }
}

#[tactic(auto, unfolding(spec_headers::specs::HeadFields::usability_fields, spec_headers::specs::HeadFields::buffer_fields))]
fn put_timing(out: &mut BitBuf, refs: u32, timing: Timing) -> Result<(), Full>
    requires refs { refs ≤ 4 }
    requires timing { IsTiming timing }
    ensures { Grows out.old out.new (fields_bits (usability_fields refs (Some timing))) result }
{
    let reorder = reorder_depth(timing.reorder);
    put_fields(
        out,
        &[
            U(1, 1), // vui_parameters_present_flag
            U(1, 0), // aspect_ratio_info_present_flag
            U(1, 0), // overscan_info_present_flag
            U(1, 0), // video_signal_type_present_flag
            U(1, 0), // chroma_loc_info_present_flag
            U(1, 1), // timing_info_present_flag
            U(32, timing.den), // num_units_in_tick
            U(32, 2 * timing.num), // time_scale
            U(1, 1), // fixed_frame_rate_flag
            U(1, 1), // nal_hrd_parameters_present_flag
            Ue(0), // cpb_cnt_minus1
            U(4, 0), // bit_rate_scale
            U(4, 0), // cpb_size_scale
            Ue(timing.rate / 64 - 1), // bit_rate_value_minus1
            Ue(timing.cpb / 16 - 1), // cpb_size_value_minus1
            U(1, 1), // cbr_flag
            U(5, 31), // initial_cpb_removal_delay_length_minus1
            U(5, 23), // cpb_removal_delay_length_minus1
            U(5, 23), // dpb_output_delay_length_minus1
            U(5, 0), // time_offset_length
            U(1, 0), // vcl_hrd_parameters_present_flag
            U(1, 0), // low_delay_hrd_flag
            U(1, 0), // pic_struct_present_flag
            U(1, 1), // bitstream_restriction_flag
            U(1, 1), // motion_vectors_over_pic_boundaries_flag
            Ue(0), // max_bytes_per_pic_denom
            Ue(0), // max_bits_per_mb_denom
            Ue(8), // log2_max_mv_length_horizontal
            Ue(8), // log2_max_mv_length_vertical
            reorder, // max_num_reorder_frames
            Ue(refs), // max_dec_frame_buffering
        ],
    )
}

fn flag(set: bool) -> Field
    ensures field { result ≡ U 1 (digit set) }
    ensures fits { FieldFits result }
{
    if set { U(1, 1) } else { U(1, 0) }
}

fn reorder_depth(reorder: bool) -> Field
    ensures field { result ≡ Ue (digit reorder) }
    ensures fits { FieldFits result }
{
    if reorder { Ue(1) } else { Ue(0) }
}

// How many samples are added to a side so that macroblocks cover it.
fn padded_by(samples: u32) -> u32
    requires { samples ≤ 4096 }
    ensures { result ≡ padding samples }
{
    16 * in_macroblocks(samples) - samples
}

#[tactic(auto, unfolding(spec_headers::specs::HeadFields::picture_fields))]
fn put_picture(out: &mut BitBuf, cabac: bool, t8x8: bool) -> Result<(), Full>
    ensures { Grows out.old out.new (fields_bits (picture_fields cabac t8x8)) result }
{
    let entropy = flag(cabac);
    let transform8 = flag(t8x8);
    put_fields(
        out,
        &[
            Ue(0), // pic_parameter_set_id
            Ue(0), // seq_parameter_set_id
            entropy, // entropy_coding_mode_flag
            U(1, 0), // bottom_field_pic_order_in_frame_present_flag
            Ue(0), // num_slice_groups_minus1
            Ue(0), // num_ref_idx_l0_default_active_minus1
            Ue(0), // num_ref_idx_l1_default_active_minus1
            U(1, 0), // weighted_pred_flag
            U(2, 0), // weighted_bipred_idc
            Se(0), // pic_init_qp_minus26
            Se(0), // pic_init_qs_minus26
            Se(0), // chroma_qp_index_offset
            U(1, 0), // deblocking_filter_control_present_flag
            U(1, 0), // constrained_intra_pred_flag
            U(1, 0), // redundant_pic_cnt_present_flag
            transform8, // transform_8x8_mode_flag
            U(1, 0), // pic_scaling_matrix_present_flag
            Se(0), // second_chroma_qp_index_offset
        ],
    )
}

// A slice header and the ones to the byte, or on `Full` maybe a part of it.
fn put_slice_head(out: &mut BitBuf, head: &SliceHead) -> Result<(), Full>
    requires allowed { IsSliceHead head.now }
    requires empty { out.old.text ≡ [] }
    ensures { Grows out.old out.new (slice_head_bits head.now) result }
{
    put_slice_fields(out, head)?;
    put_ones(out, head.cabac)
}

fn put_slice_fields(out: &mut BitBuf, head: &SliceHead) -> Result<(), Full>
    requires { IsSliceHead head.now }
    ensures { Grows out.old out.new (fields_bits (slice_fields head.now)) result }
{
    put_place(out, head)?;
    put_lists(out, head.kind, head.refs0, head.refs1, head.moved)?;
    put_marking(out, head.idr, head.kind)?;
    put_quantiser(out, head.cabac, head.kind, head.qp)
}

// Ones to the byte, where the arithmetic coder follows.
fn put_ones(out: &mut BitBuf, cabac: bool) -> Result<(), Full>
    ensures { Appends out.old out.new (replicate (if cabac then to_byte (length out.old.text) else 0) true) result }
{
    let count = ones_needed(out, cabac);
    out.put(count, ones(count))
}

fn ones_needed(out: &BitBuf, cabac: bool) -> u8
    ensures count { result ≡ (if cabac then to_byte (length out.now.text) else 0) }
    ensures small { result < 8 }
{
    if cabac { out.bits_to_byte() } else { 0 }
}

fn ones(count: u8) -> u64
    requires { count < 8 }
    ensures { result ≡ 2 ^ count - 1 }
{
    (1 << count) - 1
}

// first_mb_in_slice, slice_type, pic_parameter_set_id, frame_num, idr_pic_id, pic_order_cnt_lsb.
#[tactic(auto, unfolding(spec_headers::specs::HeadFields::place_fields))]
fn put_place(out: &mut BitBuf, head: &SliceHead) -> Result<(), Full>
    requires { head.now.first_mb < 2 ^ 32 - 1 }
    ensures { Grows out.old out.new (fields_bits (place_fields head.now)) result }
{
    let first = Ue(head.first_mb);
    let kind = Ue(slice_type(head.kind));
    let frame_num = U(16, head.frame_num as u32);
    let poc = U(16, head.poc as u32);
    if head.idr {
        let idr_id = Ue(head.idr_id as u32);
        return put_fields(out, &[first, kind, Ue(0), frame_num, idr_id, poc]);
    }
    put_fields(out, &[first, kind, Ue(0), frame_num, poc])
}

fn slice_type(kind: SliceKind) -> u32
    ensures number { result ≡ kind_number kind }
    ensures small { result < 8 }
{
    match kind {
        SliceKind::I => 7,
        SliceKind::P => 5,
        SliceKind::B => 6,
    }
}

#[tactic(auto, unfolding(spec_headers::specs::HeadFields::list_fields))]
fn put_lists(
    out: &mut BitBuf,
    kind: SliceKind,
    refs0: u8,
    refs1: u8,
    moved: Option<u16>,
) -> Result<(), Full>
    requires { HasLists kind refs0 refs1 }
    ensures { Grows out.old out.new (fields_bits (list_fields kind refs0 refs1 moved)) result }
{
    match kind {
        SliceKind::I => put_fields(out, &[]),
        SliceKind::P => put_list(out, refs0, moved),
        SliceKind::B => put_two_lists(out, refs0, refs1, moved),
    }
}

fn put_list(out: &mut BitBuf, refs0: u8, moved: Option<u16>) -> Result<(), Full>
    requires { 1 ≤ refs0 }
    ensures { Grows out.old out.new (fields_bits (U 1 1 ∷ Ue (refs0 - 1) ∷ moved_fields moved)) result }
{
    // num_ref_idx_active_override_flag, num_ref_idx_l0_active_minus1
    put_fields(out, &[U(1, 1), Ue((refs0 - 1) as u32)])?;
    put_moved(out, moved)
}

fn put_two_lists(out: &mut BitBuf, refs0: u8, refs1: u8, moved: Option<u16>) -> Result<(), Full>
    requires refs0 { 1 ≤ refs0 }
    requires refs1 { 1 ≤ refs1 }
    ensures { Grows out.old out.new (fields_bits (U 1 1 ∷ U 1 1 ∷ Ue (refs0 - 1) ∷ Ue (refs1 - 1) ∷ (moved_fields moved ++ (U 1 0 ∷ [])))) result }
{
    let first = Ue((refs0 - 1) as u32);
    let second = Ue((refs1 - 1) as u32);
    // direct_spatial_mv_pred_flag, num_ref_idx_active_override_flag, num_ref_idx_l0_active_minus1,
    // num_ref_idx_l1_active_minus1
    put_fields(out, &[U(1, 1), U(1, 1), first, second])?;
    put_moved(out, moved)?;
    // ref_pic_list_modification_flag_l1
    put_fields(out, &[U(1, 0)])
}

// ref_pic_list_modification_flag_l0, and of the one command modification_of_pic_nums_idc, abs_diff_pic_num_minus1 and
// the end.
fn put_moved(out: &mut BitBuf, moved: Option<u16>) -> Result<(), Full>
    ensures { Grows out.old out.new (fields_bits (moved_fields moved)) result }
{
    match moved {
        None => put_fields(out, &[U(1, 0)]),
        Some(difference) => put_fields(out, &[U(1, 1), Ue(0), Ue(difference as u32), Ue(3)]),
    }
}

// Of IDR pictures no_output_of_prior_pics_flag and long_term_reference_flag, of other references
// adaptive_ref_pic_marking_mode_flag.
#[tactic(auto, unfolding(spec_headers::specs::HeadFields::marking_fields))]
fn put_marking(out: &mut BitBuf, idr: bool, kind: SliceKind) -> Result<(), Full>
    ensures { Grows out.old out.new (fields_bits (marking_fields idr kind)) result }
{
    match (idr, kind) {
        (true, _) => put_fields(out, &[U(1, 0), U(1, 0)]),
        (false, SliceKind::B) => put_fields(out, &[]),
        (false, _) => put_fields(out, &[U(1, 0)]),
    }
}

// cabac_init_idc and slice_qp_delta.
#[tactic(auto, unfolding(spec_headers::specs::HeadFields::init_fields))]
fn put_quantiser(out: &mut BitBuf, cabac: bool, kind: SliceKind, qp: u8) -> Result<(), Full>
    requires { qp ≤ 51 }
    ensures { Grows out.old out.new (fields_bits (init_fields cabac kind ++ (qp_field qp ∷ []))) result }
{
    let delta = Se(qp as i32 - 26);
    match (cabac, kind) {
        (false, _) => put_fields(out, &[delta]),
        (true, SliceKind::I) => put_fields(out, &[delta]),
        (true, _) => put_fields(out, &[Ue(0), delta]),
    }
}
