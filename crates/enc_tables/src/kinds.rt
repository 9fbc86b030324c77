// What kinds of macroblocks are (ITU-T H.264, tables 7-11, 7-13 and 7-14).
ghost use Rattle.std.specs.Prelude.{◌≡◌};
ghost use Rattle.enc_tables.specs.Kinds.{is_pcm as pcm, is_nxn as nxn, is_16x16 as whole, is_intra as intra, is_skipped as skipped, is_direct as direct, has_motion as moves};

use crate::records::MbKind;

impl MbKind {
    /// I_PCM.
    #[inline]
    pub fn is_pcm(self) -> bool
        ensures { result ≡ pcm self }
    {
        matches!(self, MbKind::Pcm)
    }

    /// I_NxN: intra prediction by 4x4 or 8x8 blocks.
    #[inline]
    pub fn is_nxn(self) -> bool
        ensures { result ≡ nxn self }
    {
        matches!(self, MbKind::Intra4 | MbKind::Intra8)
    }

    /// Intra_16x16.
    #[inline]
    pub fn is_16x16(self) -> bool
        ensures { result ≡ whole self }
    {
        matches!(self, MbKind::Intra16)
    }

    /// Intra prediction, or I_PCM.
    #[inline]
    pub fn is_intra(self) -> bool
        ensures { result ≡ intra self }
    {
        matches!(
            self,
            MbKind::Pcm | MbKind::Intra4 | MbKind::Intra8 | MbKind::Intra16
        )
    }

    /// P_Skip or B_Skip.
    #[inline]
    pub fn is_skipped(self) -> bool
        ensures { result ≡ skipped self }
    {
        matches!(self, MbKind::PSkip | MbKind::BSkip)
    }

    /// B_Skip or B_Direct_16x16.
    #[inline]
    pub fn is_direct(self) -> bool
        ensures { result ≡ direct self }
    {
        matches!(self, MbKind::BDirect | MbKind::BSkip)
    }

    /// Partitions with written vector differences: neither intra nor skipped nor direct.
    #[inline]
    pub fn has_motion(self) -> bool
        ensures { result ≡ moves self }
    {
        !self.is_intra() && !self.is_skipped() && !self.is_direct()
    }
}
