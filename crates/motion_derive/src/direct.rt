// Spatial direct motion.
ghost use Rattle.std.specs.Prelude.{◌≡◌, ◌<◌};
ghost use Rattle.spec_motion.specs.Direct.{min_positive, direct_reference, is_small, col_zero, direct_vector, uses_neither, motion_with, direct_block, direct_of};

use crate::neighbours::{has, reference, vector_x, vector_y, zero_vector};
use crate::prediction::predict;
use enc_tables::{Motion, Vector};
use spec_motion::Field;

// The lesser of two references that are used, or the one that is.
fn min_positive(x: i8, y: i8) -> i8
    ensures { result ≡ min_positive x y }
{
    if x >= 0 && y >= 0 { x.min(y) } else { x.max(y) }
}

fn direct_reference(list: u8, field: &Field) -> i8
    requires { list < 2 }
    ensures { result ≡ direct_reference list field.now }
{
    let beside = min_positive(reference(list, field.b), reference(list, field.c));
    min_positive(reference(list, field.a), beside)
}

fn is_small(component: i16) -> bool
    ensures { result ≡ is_small component }
{
    -1 <= component && component <= 1
}

// Whether the co-located block hardly moves.
fn col_zero(near: Option<Motion>) -> bool
    ensures { result ≡ col_zero near }
{
    has(0, 0, near) && is_small(vector_x(0, near)) && is_small(vector_y(0, near))
}

fn direct_vector(list: u8, reference: i8, still: bool, field: &Field) -> Vector
    requires { list < 2 }
    ensures { result ≡ direct_vector list reference still field.now }
{
    if reference < 0 {
        return zero_vector();
    }
    if reference == 0 && still {
        return zero_vector();
    }
    predict(0, 0, list, reference, field)
}

fn uses_neither(first: i8, second: i8) -> bool
    ensures { result ≡ uses_neither first second }
{
    first < 0 && second < 0
}

// The motion of an 8x8 block that uses a list.
fn motion_of(first: i8, second: i8, field: &Field, still: bool) -> Motion
    ensures { result ≡ motion_with first second still field.now }
{
    Motion {
        refs: [first, second],
        vectors: [
            direct_vector(0, first, still, field),
            direct_vector(1, second, still, field),
        ],
    }
}

fn direct_block(first: i8, second: i8, field: &Field, near: Option<Motion>) -> Motion
    ensures { result ≡ direct_block first second field.now near }
{
    if uses_neither(first, second) {
        return Motion {
            refs: [0, 0],
            vectors: [zero_vector(), zero_vector()],
        };
    }
    motion_of(first, second, field, col_zero(near))
}

/// The motion of the four 8x8 blocks of a macroblock in spatial direct mode (ITU-T H.264, clause 8.4.1.2.2). `field`
/// has the neighbours of the macroblock, and `colocated` the motion that the blocks at the same places have in the
/// first picture of list 1.
pub fn direct_motion(field: &Field, colocated: &[Option<Motion>; 4]) -> [Motion; 4]
    ensures { result ≡ direct_of field.now colocated.now }
{
    let first = direct_reference(0, field);
    let second = direct_reference(1, field);
    [
        direct_block(first, second, field, colocated[0]),
        direct_block(first, second, field, colocated[1]),
        direct_block(first, second, field, colocated[2]),
        direct_block(first, second, field, colocated[3]),
    ]
}
