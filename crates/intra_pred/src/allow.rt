// Which modes are allowed.
ghost use Rattle.std.specs.Prelude.{◌≡◌, ℕ, Bool};
ghost use Rattle.spec_intra.specs.Predictions.{is_allowed, is_allowed_nxn, is_allowed16, is_allowed_chroma, all_sides};

use spec_intra::Avail;

/// Whether a mode is allowed for a block with these neighbours (clauses 8.3.1.2, 8.3.2.2, 8.3.3 and 8.3.4): all samples
/// that the mode needs have to be available. `size` is 4, 8 or 16 for luma blocks, and 2 for chroma; no mode of another
/// size is allowed.
pub fn allowed(size: u8, mode: u8, avail: &Avail) -> bool
    ensures { result ≡ is_allowed size mode avail.now }
{
    match size {
        4 | 8 => allowed_nxn(mode, avail),
        16 => allowed16(mode, avail),
        2 => allowed_chroma(mode, avail),
        _ => false,
    }
}

fn all_there(avail: &Avail) -> bool
    ensures { result ≡ all_sides avail.now }
{
    avail.above && avail.left && avail.corner
}

fn allowed_nxn(mode: u8, avail: &Avail) -> bool
    ensures { result ≡ is_allowed_nxn mode avail.now }
{
    match mode {
        0 | 3 | 7 => avail.above,
        1 | 8 => avail.left,
        2 => true,
        4..=6 => all_there(avail),
        _ => false,
    }
}

fn allowed16(mode: u8, avail: &Avail) -> bool
    ensures { result ≡ is_allowed16 mode avail.now }
{
    match mode {
        0 => avail.above,
        1 => avail.left,
        2 => true,
        3 => all_there(avail),
        _ => false,
    }
}

fn allowed_chroma(mode: u8, avail: &Avail) -> bool
    ensures { result ≡ is_allowed_chroma mode avail.now }
{
    match mode {
        0 => true,
        1 => avail.left,
        2 => avail.above,
        3 => all_there(avail),
        _ => false,
    }
}
