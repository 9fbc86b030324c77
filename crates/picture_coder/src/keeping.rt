// What is kept of a picture for later ones.
ghost use Rattle.std.specs.Prelude.{◌≡◌, ◌*◌, ℕ, pos, length, map};
ghost use Rattle.spec_decoder.specs.Frames.{motion_of};
ghost use Rattle.ref_lists.specs.Held.{IsMade};

use enc_tables::{MbRecord, Motion, PlanStep};
use ref_lists::Reference;

// Of each macroblock whether it is an intra one, and its motion.
fn keep_motion(records: &[MbRecord], kept: &mut [(bool, [Motion; 4])])
    requires { length kept.old ≡ length records.now }
    ensures { kept.new ≡ map motion_of records.now }
{
    for m in 0..records.len() {
        kept[m] = (records[m].kind.is_intra(), records[m].motion);
    }
}

/// Makes a reference of a picture whose samples it has: its motion is that of these records, one for each macroblock.
pub fn keep(reference: &mut Reference, records: &[MbRecord], step: PlanStep)
    requires { length reference.old.records.items ≡ length records.now }
    ensures made { (width height : ℕ) → IsMade width height reference.old → IsMade width height reference.new }
    ensures picture { reference.new.picture ≡ reference.old.picture }
    ensures motion { reference.new.records.items ≡ map motion_of records.now }
    ensures poc { reference.new.poc ≡ pos step.poc }
    ensures frame_num { reference.new.frame_num ≡ step.frame_num }
{
    keep_motion(records, reference.records.as_mut_slice());
    reference.poc = i32::from(step.poc);
    reference.frame_num = step.frame_num;
}
