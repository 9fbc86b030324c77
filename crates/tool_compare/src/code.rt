// Codes as lines of hexadecimal digits.
ghost use Rattle.std.specs.Prelude.{◌≡◌, [], IfOk};

use bit_strings::BitBuf;
use std::alloc::{AllocError, Global};
use tool_input::Fault;

fn hex(alloc: Global, bytes: &[u8]) -> Result<String, AllocError> {
    let mut text = String::new(alloc);
    for byte in bytes {
        write!(text, "{byte:02X}")?;
    }
    Ok(text)
}

/// Prints a line with the bytes of a code, the last one filled up with zeros, and gives the empty buffer back.
pub fn print_code(rt: &HostRuntime, code: BitBuf) -> Result<BitBuf, Fault>
    ensures { IfOk result (λ buf. buf ≡ record code { text = [] }) }
{
    let mut code = code;
    code.align()?;
    rt.println(hex(rt.alloc(), code.bytes())?.as_str())?;
    code.clear();
    Ok(code)
}
