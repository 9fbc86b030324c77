// `motion`: derives motion from the neighbours that each line gives.
//
// A line has 54 numbers: what is wanted (0: a partition's predicted vector, 1: the motion of P_Skip, 2: that of spatial
// direct mode); of a partition its shape, part, list and reference, otherwise four zeros; then seven blocks of seven
// numbers, A, B, C and the four co-located ones: 1 where the block is there and 0 where it isn't, and for both lists
// the reference and the vector. What is printed is the vector, or the motion of one block or of four.
ghost use Rattle.std.specs.Prelude.{◌≤◌, ◌<◌, ◌+◌, length, IfSome};

use enc_tables::{Motion, Vector};
use motion_derive::{Field, direct_motion, predict, skip_motion};
use std::fmt;
use tool_input::{Fault, numbers_of};
use tool_records::{motion_of, reference_of};

// The block whose seven numbers begin at a place; the outer `None` is for numbers out of their ranges.
fn block(numbers: &[i32], at: usize) -> Option<Option<Motion>>
    requires { at + 7 ≤ length numbers.now }
{
    let motion = motion_of(&numbers[at + 1..at + 7])?;
    Some(if numbers[at] == 0 { None } else { Some(motion) })
}

fn field(numbers: &[i32]) -> Option<Field>
    requires { 54 ≤ length numbers.now }
{
    Some(Field {
        a: block(numbers, 5)?,
        b: block(numbers, 12)?,
        c: block(numbers, 19)?,
    })
}

fn colocated(numbers: &[i32]) -> Option<[Option<Motion>; 4]>
    requires { 54 ≤ length numbers.now }
{
    Some([
        block(numbers, 26)?,
        block(numbers, 33)?,
        block(numbers, 40)?,
        block(numbers, 47)?,
    ])
}

// A partition's shape, part and list, and its reference.
fn partition(numbers: &[i32]) -> Option<(u8, u8, u8, i8)>
    requires { 54 ≤ length numbers.now }
    ensures { IfSome result (λ p. p.2 < 2) }
{
    let (shape, part, list) = (numbers[1], numbers[2], numbers[3]);
    if shape < 0 || shape > 3 || part < 0 || part > 3 || list < 0 || list > 1 {
        return None;
    }
    Some((
        shape as u8,
        part as u8,
        list as u8,
        reference_of(numbers[4])?,
    ))
}

// What a line asks for.
#[derive(Drop)]
enum Derived {
    Vector(Vector),
    Block(Motion),
    Macroblock([Motion; 4]),
}

fn derive(numbers: &[i32]) -> Option<Derived> {
    if numbers.len() != 54 {
        return None;
    }
    let field = field(numbers)?;
    match numbers[0] {
        0 => {
            let (shape, part, list, reference) = partition(numbers)?;
            Some(Derived::Vector(predict(shape, part, list, reference, &field)))
        }
        1 => Some(Derived::Block(skip_motion(&field))),
        2 => Some(Derived::Macroblock(direct_motion(&field, &colocated(numbers)?))),
        _ => None,
    }
}

// For both lists the reference and the vector.
fn write_motion<W: fmt::Write>(f: &mut fmt::Formatter<W>, motion: Motion) -> fmt::Result {
    let (first, second) = (motion.vectors[0], motion.vectors[1]);
    let (r, x, y) = (motion.refs[0], first.x, first.y);
    let (s, u, v) = (motion.refs[1], second.x, second.y);
    write!(f, "{r} {x} {y} {s} {u} {v}")
}

impl fmt::Display for Derived {
    fn fmt<W: fmt::Write>(&self, f: &mut fmt::Formatter<W>) -> fmt::Result {
        match self {
            Derived::Vector(vector) => {
                let (x, y) = (vector.x, vector.y);
                write!(f, "{x} {y}")
            }
            Derived::Block(motion) => write_motion(f, *motion),
            Derived::Macroblock(motion) => {
                write_motion(f, motion[0])?;
                for k in 1..4usize {
                    f.write_str(" ")?;
                    write_motion(f, motion[k])?;
                }
                Ok(())
            }
        }
    }
}

/// Derives what each line asks for.
pub fn derive_lines(rt: &HostRuntime, lines: &[String]) -> Result<(), Fault> {
    for (place, line) in lines.iter().enumerate() {
        let fault = Fault::Line(place + 1, "54 numbers in their ranges");
        let Some(numbers) = numbers_of(rt.alloc(), line.as_str())? else {
            return Err(fault);
        };
        let Some(derived) = derive(numbers.as_slice()) else {
            return Err(fault);
        };
        println!(rt; "{derived}")?;
    }
    Ok(())
}
