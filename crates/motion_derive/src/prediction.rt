// The prediction of a partition's vector.
ghost use Rattle.std.specs.Prelude.{◌≡◌, ◌<◌};
ghost use Rattle.spec_motion.specs.Prediction.{median, median_vector, is_alone, only, median_prediction, favoured, predicted};

use crate::neighbours::{has, vector, vector_x, vector_y};
use enc_tables::{Motion, Vector};
use spec_motion::Field;

// The middle one of three numbers.
#[inline]
fn median(x: i16, y: i16, z: i16) -> i16
    ensures { result ≡ median x y z }
{
    x.min(y).max(x.max(y).min(z))
}

fn median_x(list: u8, field: &Field) -> i16
    requires { list < 2 }
    ensures { result ≡ (median_vector list field.now).x }
{
    median(
        vector_x(list, field.a),
        vector_x(list, field.b),
        vector_x(list, field.c),
    )
}

fn median_y(list: u8, field: &Field) -> i16
    requires { list < 2 }
    ensures { result ≡ (median_vector list field.now).y }
{
    median(
        vector_y(list, field.a),
        vector_y(list, field.b),
        vector_y(list, field.c),
    )
}

fn median_vector(list: u8, field: &Field) -> Vector
    requires { list < 2 }
    ensures { result ≡ median_vector list field.now }
{
    let x = median_x(list, field);
    let y = median_y(list, field);
    Vector { x, y }
}

// Whether A alone is available.
fn is_alone(field: &Field) -> bool
    ensures { result ≡ is_alone field.now }
{
    field.b.is_none() && field.c.is_none() && field.a.is_some()
}

fn only(x: bool, y: bool, z: bool) -> bool
    ensures { result ≡ only x y z }
{
    x && !y && !z
}

fn median_prediction(list: u8, reference: i8, field: &Field) -> Vector
    requires { list < 2 }
    ensures { result ≡ median_prediction list reference field.now }
{
    if is_alone(field) {
        return vector(list, field.a);
    }
    let a = has(list, reference, field.a);
    let b = has(list, reference, field.b);
    let c = has(list, reference, field.c);
    if only(a, b, c) {
        return vector(list, field.a);
    }
    if only(b, a, c) {
        return vector(list, field.b);
    }
    if only(c, a, b) {
        return vector(list, field.c);
    }
    median_vector(list, field)
}

// The neighbour whose vector is taken where it has the reference.
fn favoured(shape: u8, part: u8, field: &Field) -> Option<Motion>
    ensures { result ≡ favoured shape part field.now }
{
    match shape {
        1 => { if part == 0 { field.b } else { field.a } }
        2 => { if part == 0 { field.a } else { field.c } }
        _ => None,
    }
}

/// The prediction of the vector of a partition in a list, 0 or 1 (ITU-T H.264, clause 8.4.1.3). The shapes are 0 for
/// 16x16, 1 for 16x8, 2 for 8x16 and 3 for 8x8; the upper and the left part are part 0. `reference` is the partition's
/// reference in the list.
pub fn predict(shape: u8, part: u8, list: u8, reference: i8, field: &Field) -> Vector
    requires { list < 2 }
    ensures { result ≡ predicted shape part list reference field.now }
{
    let first = favoured(shape, part, field);
    if first.is_some() && has(list, reference, first) {
        return vector(list, first);
    }
    median_prediction(list, reference, field)
}
