// What a neighbouring block says of one list.
ghost use Rattle.std.specs.Prelude.{◌≡◌, ◌<◌};
ghost use Rattle.enc_tables.specs.Records.{zero_vector};
ghost use Rattle.spec_motion.specs.Neighbours.{reference_of, vector_of, has};

use enc_tables::{Motion, Vector};

pub fn zero_vector() -> Vector
    ensures { result ≡ zero_vector }
{
    Vector { x: 0, y: 0 }
}

/// −1 where the block isn't available or doesn't use the list.
#[inline]
pub fn reference(list: u8, near: Option<Motion>) -> i8
    requires { list < 2 }
    ensures { result ≡ reference_of list near }
{
    match near {
        Some(motion) => motion.refs[list as usize],
        None => -1,
    }
}

/// Zero where the block isn't available or doesn't use the list.
#[inline]
pub fn vector(list: u8, near: Option<Motion>) -> Vector
    requires { list < 2 }
    ensures { result ≡ vector_of list near }
{
    match near {
        Some(motion) => {
            if motion.refs[list as usize] < 0 {
                zero_vector()
            } else {
                motion.vectors[list as usize]
            }
        }
        None => zero_vector(),
    }
}

#[inline]
pub fn vector_x(list: u8, near: Option<Motion>) -> i16
    requires { list < 2 }
    ensures { result ≡ (vector_of list near).x }
{
    vector(list, near).x
}

#[inline]
pub fn vector_y(list: u8, near: Option<Motion>) -> i16
    requires { list < 2 }
    ensures { result ≡ (vector_of list near).y }
{
    vector(list, near).y
}

/// Whether the block has that reference.
#[inline]
pub fn has(list: u8, wanted: i8, near: Option<Motion>) -> bool
    requires { list < 2 }
    ensures { result ≡ has list wanted near }
{
    reference(list, near) == wanted
}
