// The rules by which the parts of an edge are filtered (ITU-T H.264, clause 8.7.2.2).
ghost use Rattle.std.specs.Prelude.{◌≡◌, ◌≤◌};
ghost use Rattle.spec_filter.specs.Strengths.{rule_at, filter_qp as filter_qp_of, filter_index as filter_index_of};

use enc_tables::{CHROMA_QP, FILTER_ALPHA, FILTER_BETA, FILTER_TC0, MbRecord};
use spec_filter::EdgeRule;

// The rule of a part with the strength bS at an index of the tables.
#[inline]
#[tactic(auto, unfolding(spec_filter::specs::Strengths::rule_at))]
pub fn rule(chroma: bool, index: u8, strength: u8) -> EdgeRule
    requires { index ≤ 51 }
    ensures { result ≡ rule_at chroma index strength }
{
    let place = index as usize;
    let tc0 = if 0 < strength && strength < 4 {
        FILTER_TC0[3 * place + strength as usize - 1]
    } else {
        0
    };
    EdgeRule {
        chroma,
        strength,
        alpha: FILTER_ALPHA[place],
        beta: FILTER_BETA[place],
        tc0,
    }
}

// The quantisation parameter of a macroblock that counts.
#[inline]
#[tactic(auto, unfolding(spec_filter::specs::Strengths::filter_qp))]
fn filter_qp(chroma: bool, mb: &MbRecord) -> u8
    requires { mb.now.qp ≤ 51 }
    ensures value { result ≡ filter_qp_of chroma mb.now }
    ensures most { result ≤ 51 }
{
    let qp = if mb.kind.is_pcm() { 0 } else { mb.qp };
    if chroma { CHROMA_QP[qp as usize] } else { qp }
}

// The rounded average of both sides.
#[inline]
pub fn filter_index(chroma: bool, p: &MbRecord, q: &MbRecord) -> u8
    requires p_qp { p.now.qp ≤ 51 }
    requires q_qp { q.now.qp ≤ 51 }
    ensures value { result ≡ filter_index_of chroma p.now q.now }
    ensures most { result ≤ 51 }
{
    (filter_qp(chroma, p) + filter_qp(chroma, q) + 1) / 2
}
