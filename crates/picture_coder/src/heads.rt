// The headers of a picture's slices.
ghost use Rattle.std.specs.Prelude.{◌≡◌, ◌≤◌, ◌<◌, ◌+◌, ◌*◌, false, true, length};
ghost use Rattle.spec_headers.specs.Heads.{idr_head, other_head, MovedFits};
ghost use Rattle.spec_slice_payload.specs.Slices.{IsIdrHead, IsOtherHead, IsHead};
ghost use Rattle.picture_coder.specs.Jobs.{IsJob, head_in};

use crate::job::Job;
use enc_tables::SliceKind;
use spec_headers::SliceHead;

// A command's number has room in a header.
fn lemma_moved_fits(moved: Option<u16>)
    ensures { MovedFits moved }
{}

// The header of a slice of an IDR picture.
#[tactic(auto, unfolding(spec_headers::specs::Heads::idr_head))]
fn idr_head_at(first_mb: u32, idr_id: u8, qp: u8) -> SliceHead
    requires first { first_mb ≤ 36864 }
    requires idr_id { idr_id ≤ 1 }
    requires qp { qp ≤ 51 }
    ensures value { result ≡ idr_head first_mb 0 idr_id 0 qp true }
    ensures fits { IsIdrHead result }
{
    SliceHead {
        first_mb,
        kind: SliceKind::I,
        idr: true,
        frame_num: 0,
        idr_id,
        poc: 0,
        refs0: 0,
        refs1: 0,
        moved: None,
        qp,
        cabac: true,
    }
}

// The header of a slice of another picture, whose lists are the job's.
#[tactic(auto, unfolding(spec_headers::specs::Heads::other_head))]
fn other_head_at(across: u32, down: u32, first_mb: u32, job: &Job<'_>, qp: u8) -> SliceHead
    requires first { first_mb ≤ 36864 }
    requires job { IsJob across down job.now }
    requires other { job.now.step.idr ≡ false }
    requires qp { qp ≤ 51 }
    ensures value { result ≡ other_head first_mb job.now.step.kind job.now.step.frame_num job.now.step.poc (length job.now.lists.now.list0.items) (length job.now.lists.now.list1.items) job.now.moved qp true }
    ensures fits { IsOtherHead result }
{
    lemma_moved_fits(job.moved);
    SliceHead {
        first_mb,
        kind: job.step.kind,
        idr: false,
        frame_num: job.step.frame_num,
        idr_id: 0,
        poc: job.step.poc,
        refs0: job.lists.list0.len() as u8,
        refs1: job.lists.list1.len() as u8,
        moved: job.moved,
        qp,
        cabac: true,
    }
}

/// The header of a slice of the job's picture that begins with this macroblock.
pub fn head_at(across: u32, down: u32, first_mb: u32, job: &Job<'_>, qp: u8) -> SliceHead
    requires first { first_mb ≤ 36864 }
    requires job { IsJob across down job.now }
    requires qp { qp ≤ 51 }
    ensures value { result ≡ head_in job.now qp first_mb }
    ensures first { result.first_mb ≡ first_mb }
    ensures qp { result.qp ≡ qp }
    ensures kind { result.kind ≡ job.now.step.kind }
    ensures count0 { length job.now.lists.now.list0.items ≡ result.refs0 }
    ensures count1 { length job.now.lists.now.list1.items ≡ result.refs1 }
    ensures fits { IsHead result.idr result }
{
    if job.step.idr {
        return idr_head_at(first_mb, job.idr_id, qp);
    }
    other_head_at(across, down, first_mb, job, qp)
}
