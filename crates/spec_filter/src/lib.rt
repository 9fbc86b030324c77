//! The deblocking filter as definitions (ITU-T H.264, clause 8.7): how strongly each edge is filtered, what becomes of
//! a line of samples across it, and in which order a picture's edges are taken.
#![tactic(auto)]

ghost use Rattle.std.specs.Prelude.{◌≡◌, ℕ, ℤ, List, true};
ghost use Rattle.std.specs.List.{All};
ghost use Rattle.enc_tables.specs.declared.records.MbRecord.{MbRecord};
ghost use Rattle.enc_tables.specs.Kinds.{is_pcm};
ghost use Rattle.spec_film.specs.Films.{Planes};
ghost use Rattle.spec_filter.specs.Pictures.{picture_filtered};

/// The samples of a line across an edge: `p0` and `q0` meet at the edge, and the others stand behind them, farther and
/// farther away.
#[derive(Clone, Copy)]
pub struct SampleLine {
    pub p3: u8,
    pub p2: u8,
    pub p1: u8,
    pub p0: u8,
    pub q0: u8,
    pub q1: u8,
    pub q2: u8,
    pub q3: u8,
}

/// How lines across an edge are filtered.
#[derive(Clone, Copy)]
pub struct EdgeRule {
    /// Whether the samples are chroma samples (chromaStyleFilteringFlag).
    pub chroma: bool,
    /// The boundary filtering strength bS: 0 to 4; 0 is not at all.
    pub strength: u8,
    /// The threshold α on the difference across the edge.
    pub alpha: u8,
    /// The threshold β on the differences on each side.
    pub beta: u8,
    /// tC0: the bound on how far a sample moves, at strengths 1 to 3.
    pub tc0: u8,
}

/// Where the samples of a plane stand in a list: that at column x of row y at `origin + y * stride + x`.
#[derive(Clone, Copy)]
pub struct Layout {
    /// The place of the first sample of the first row.
    pub origin: usize,
    /// The places from a row to the next.
    pub stride: usize,
}

/// The rounded averages of the quantisation parameters at both sides of an edge (indexA and indexB, since the filter's
/// offsets are 0).
#[derive(Clone, Copy)]
pub struct EdgeIndices {
    /// Of the left edge of the macroblock.
    pub left: u8,
    /// Of its upper edge.
    pub above: u8,
    /// Of the edges inside.
    pub inner: u8,
}

/// How the edges of a macroblock are filtered.
#[derive(Clone, Copy)]
pub struct MbEdges {
    /// Whether its left edge is filtered: it isn't the picture's (filterLeftMbEdgeFlag).
    pub left: bool,
    /// Whether its upper edge is filtered (filterTopMbEdgeFlag).
    pub above: bool,
    /// Whether it has 8x8 transforms: every second luma edge inside it isn't filtered then.
    pub transform8: bool,
    /// bS of part g, from above, of vertical edge k, from the left, at 4k + g.
    pub vertical: [u8; 16],
    /// bS of part g, from the left, of horizontal edge k, from above, at 4k + g.
    pub horizontal: [u8; 16],
    /// Of luma.
    pub luma: EdgeIndices,
    /// Of chroma.
    pub chroma: EdgeIndices,
}

/// The filter leaves a picture of I_PCM macroblocks as it is.
pub fn pcm_pictures_stay()
    ensures { (pictures0 pictures1 : List ℤ) (records : List MbRecord) (width : ℕ) (planes : Planes) → All (λ r. is_pcm r.kind ≡ true) records → picture_filtered pictures0 pictures1 records width planes ≡ planes }
{}
