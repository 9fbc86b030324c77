// The units of an access unit that stand before those of its slices.
ghost use Rattle.std.specs.Prelude.{◌≡◌, ◌≤◌, [], length, true, not};
ghost use Rattle.spec_bits.specs.Bits.{bits_of_bytes};
ghost use Rattle.spec_headers.specs.Allowed.{IsSeqHead};
ghost use Rattle.spec_headers.specs.MessageReaders.{AreDelays};
ghost use Rattle.unit_writer.specs.Parts.{set_bytes};
ghost use Rattle.enc_session.specs.Fronts.{front_bytes};

use bit_strings::BitBuf;
use param_sets::SeqHead;
use unit_writer::{write_messages, write_parameter_sets};

/// The delays of a picture (clauses D.2.2 and D.2.3), as its messages have them.
#[derive(Clone, Copy)]
pub(crate) struct UnitDelays {
    /// The initial removal delay, where a buffering period begins, in 90000ths of a second.
    pub(crate) initial: Option<u32>,
    /// From the removal of the unit with which the last buffering period began, in clock ticks.
    pub(crate) removal: u32,
    /// From the removal to the output, in clock ticks.
    pub(crate) output: u32,
}

// The parameter sets of an IDR picture; of another one none.
fn begin_with_sets(unit: &mut BitBuf, payload: &mut BitBuf, head: &SeqHead, t8x8: bool, idr: bool)
    requires head { IsSeqHead head.now }
    requires empty { unit.old.text ≡ [] }
    requires room { 65536 ≤ unit.old.room }
    requires payload { payload.old.text ≡ [] }
    requires payload_room { 8192 ≤ payload.old.room }
    ensures unit { unit.new ≡ record unit.old { text = bits_of_bytes (set_bytes head.now (true, t8x8) idr) } }
    ensures payload { payload.new ≡ payload.old }
{
    if idr {
        // 65536 bits are room enough.
        let _ = write_parameter_sets(unit, payload, head, t8x8);
    }
}

/// Begins the access unit of a picture, of which nothing was written: with the parameter sets where it is an IDR
/// picture, and with its messages.
pub(crate) fn begin_unit(
    unit: &mut BitBuf,
    payload: &mut BitBuf,
    head: &SeqHead,
    t8x8: bool,
    idr: bool,
    delays: &UnitDelays,
)
    requires head { IsSeqHead head.now }
    requires delays { AreDelays (record { initial = delays.now.initial; removal = delays.now.removal; output = delays.now.output }) }
    requires empty { unit.old.text ≡ [] }
    requires room { 65536 ≤ unit.old.room }
    requires payload { payload.old.text ≡ [] }
    requires payload_room { 8192 ≤ payload.old.room }
    ensures unit { unit.new ≡ record unit.old { text = bits_of_bytes (front_bytes head.now (true, t8x8) idr (record { initial = delays.now.initial; removal = delays.now.removal; output = delays.now.output })) } }
    ensures short { length unit.new.text ≤ 65536 }
    ensures payload { payload.new ≡ payload.old }
{
    begin_with_sets(unit, payload, head, t8x8, idr);
    // The messages have room behind the parameter sets.
    let _ = write_messages(
        unit,
        payload,
        delays.initial,
        delays.removal,
        delays.output,
        !idr,
    );
}
