// Messages of supplemental enhancement information.
ghost use Rattle.std.specs.Prelude.{◌≡◌, ◌^◌, ◌<◌, ◌≤◌};
ghost use Rattle.spec_bits.specs.Fields.{fields_bits};
ghost use Rattle.spec_headers.specs.MessageFields.{buffering_fields, timing_fields};
ghost use Rattle.bit_strings.specs.BitText.{Appends};

use crate::fields::put_fields;
use bit_strings::{BitBuf, Full};
use spec_bits::Field::{U, Ue};

/// Appends the message of a buffering period (clauses 7.3.2.3.1 and D.1.2), whole: its type, its size, and the delay
/// from the first bit of its first picture in the buffer to the picture's removal, in 1/90000 of a second. The caller
/// ends the unit's payload with `trail`.
///
/// `Full` comes exactly where it doesn't fit; the buffer is then unchanged.
pub fn write_buffering(out: &mut BitBuf, delay: u32) -> Result<(), Full>
    requires { 1 ≤ delay }
    ensures { Appends out.old out.new (fields_bits (buffering_fields delay)) result }
{
    let start = out.len();
    // payloadType, payloadSize, seq_parameter_set_id, initial_cpb_removal_delay, initial_cpb_removal_delay_offset, a
    // 1 and zeros to the byte
    let fields = [U(8, 0), U(8, 9), Ue(0), U(32, delay), U(32, 0), U(7, 64)];
    if put_fields(out, &fields).is_err() {
        out.cut(start);
        return Err(Full);
    }
    Ok(())
}

/// Appends the message of a picture's timing (clauses 7.3.2.3.1 and D.1.3), whole: its type, its size, the clock
/// ticks from the removal of the picture that began the buffering period before to its own, and those from its
/// removal to its output. The caller ends the unit's payload with `trail`.
///
/// `Full` comes exactly where it doesn't fit; the buffer is then unchanged.
pub fn write_timing(out: &mut BitBuf, removal: u32, output: u32) -> Result<(), Full>
    requires removal { removal < 2 ^ 24 }
    requires output { output < 2 ^ 24 }
    ensures { Appends out.old out.new (fields_bits (timing_fields removal output)) result }
{
    let start = out.len();
    // payloadType, payloadSize, cpb_removal_delay, dpb_output_delay
    let fields = [U(8, 1), U(8, 6), U(24, removal), U(24, output)];
    if put_fields(out, &fields).is_err() {
        out.cut(start);
        return Err(Full);
    }
    Ok(())
}
