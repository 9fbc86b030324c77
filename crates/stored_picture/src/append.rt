// Appending where the room is known.
ghost use Rattle.std.specs.Prelude.{◌≡◌, ◌≤◌, ◌<◌, ◌+◌, ◌-◌, ◌*◌, ◌%◌, ◌^◌, ◌++◌, length, All};
ghost use Rattle.spec_bits.specs.Bits.{IsByte, bits_of_bytes, digits};
ghost use Rattle.spec_bits.specs.Golomb.{align_bits, to_byte, ue_bits};

use bit_strings::BitBuf;

pub fn append(out: &mut BitBuf, n: u8, value: u64)
    requires few { n ≤ 32 }
    requires below { value < 2 ^ n }
    requires room { length out.old.text + n ≤ out.old.room }
    ensures { out.new ≡ record out.old { text = out.old.text ++ digits n value } }
{
    // There is room, by `room`.
    let _ = out.put(n, value);
}

pub fn append_ue(out: &mut BitBuf, value: u32)
    requires below { value < 2 ^ 32 - 1 }
    requires room { length out.old.text + length (ue_bits value) ≤ out.old.room }
    ensures { out.new ≡ record out.old { text = out.old.text ++ ue_bits value } }
{
    // There is room, by `room`.
    let _ = out.ue(value);
}

pub fn append_zeros_to_byte(out: &mut BitBuf)
    requires room { length out.old.text + to_byte (length out.old.text) ≤ out.old.room }
    ensures { out.new ≡ record out.old { text = out.old.text ++ align_bits (length out.old.text) } }
{
    // There is room, by `room`.
    let _ = out.align();
}

pub fn append_bytes(out: &mut BitBuf, bytes: &[u8])
    requires whole { length out.old.text % 8 ≡ 0 }
    requires room { length out.old.text + 8 * length bytes.now ≤ out.old.room }
    ensures text { out.new ≡ record out.old { text = out.old.text ++ bits_of_bytes bytes.now } }
    ensures bytes { All IsByte bytes.now }
{
    // There is room, by `room`.
    let _ = out.put_bytes(bytes);
}
