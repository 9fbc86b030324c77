// What inter macroblocks are coded from.
use enc_tables::MbRecord;
use picture_planes::Picture;
use ref_lists::Lists;

/// The pictures that the inter macroblocks of a slice are coded from.
#[derive(Clone, Copy)]
pub struct Pictures<'a> {
    /// The slice's lists, with the references that they name.
    pub lists: &'a Lists<'a>,
    /// The picture that is coded.
    pub source: &'a Picture,
}

/// The macroblocks around one that are available: in the same slice and earlier (ITU-T H.264, clause 6.4.8).
#[derive(Clone, Copy)]
pub struct Beside<'a> {
    /// At the left (A).
    pub left: Option<&'a MbRecord>,
    /// Above (B).
    pub above: Option<&'a MbRecord>,
    /// Above at the right (C).
    pub above_right: Option<&'a MbRecord>,
    /// Above at the left (D).
    pub above_left: Option<&'a MbRecord>,
}
