// The motion of P_Skip.
ghost use Rattle.std.specs.Prelude.{◌≡◌};
ghost use Rattle.spec_motion.specs.Skip.{is_zero, is_still, has_no_motion, skip_vector, skip_of};

use crate::neighbours::{has, vector, zero_vector};
use crate::prediction::predict;
use enc_tables::{Motion, Vector};
use spec_motion::Field;

fn is_zero(vector: Vector) -> bool
    ensures { result ≡ is_zero vector }
{
    vector.x == 0 && vector.y == 0
}

// Whether a neighbour has reference 0 of list 0 and the zero vector.
fn is_still(near: Option<Motion>) -> bool
    ensures { result ≡ is_still near }
{
    has(0, 0, near) && is_zero(vector(0, near))
}

fn has_no_motion(field: &Field) -> bool
    ensures { result ≡ has_no_motion field.now }
{
    field.a.is_none() || field.b.is_none() || is_still(field.a) || is_still(field.b)
}

fn skip_vector(field: &Field) -> Vector
    ensures { result ≡ skip_vector field.now }
{
    if has_no_motion(field) {
        return zero_vector();
    }
    predict(0, 0, 0, 0, field)
}

/// The motion of P_Skip beside these neighbours (ITU-T H.264, clause 8.4.1.1).
pub fn skip_motion(field: &Field) -> Motion
    ensures { result ≡ skip_of field.now }
{
    Motion {
        refs: [0, -1],
        vectors: [skip_vector(field), zero_vector()],
    }
}
