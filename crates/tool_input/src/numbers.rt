// Lines of numbers.
ghost use Rattle.std.specs.Prelude.{◌≡◌, ◌<◌, ◌≤◌, ◌≤ℤ◌, ◌++◌, ℕ, pos, negsuc, length, map, IfOk, IfSome, IsErr, IsNone};

use crate::faults::Fault;
use std::alloc::{AllocError, Global};

/// The decimal numbers of a text, parted by single blanks; `None` where it has anything else.
pub fn numbers_of(alloc: Global, text: &str) -> Result<Option<Vec<i32>>, AllocError> {
    let mut numbers = Vec::new(alloc);
    for word in text.split(' ') {
        let Ok(number) = word.parse::<i32>() else {
            return Ok(None);
        };
        if numbers.push(number).is_err() {
            return Err(AllocError);
        }
    }
    Ok(Some(numbers))
}

/// The numbers of all these lines.
pub fn all_numbers(alloc: Global, lines: &[String]) -> Result<Vec<i32>, Fault> {
    let mut all = Vec::new(alloc);
    for (place, line) in lines.iter().enumerate() {
        let Some(numbers) = numbers_of(alloc, line.as_str())? else {
            return Err(Fault::Line(
                place + 1,
                "decimal numbers with a blank between two of them",
            ));
        };
        for number in &numbers {
            if all.push(*number).is_err() {
                return Err(Fault::OutOfMemory);
            }
        }
    }
    Ok(all)
}

/// A number of 0 to 255 as a byte.
pub fn as_byte(number: i32) -> Option<u8>
    ensures byte { IfSome result (λ byte. pos byte ≡ number) }
    ensures none { IsNone result → (byte : ℕ) → byte ≤ 255 → pos byte ≡ number → ⊥ }
{
    if number < 0 || number > 255 {
        return None;
    }
    Some(number as u8)
}

/// A number of -32768 to 32767 in 16 bits.
pub fn as_short(number: i32) -> Option<i16>
    ensures short { IfSome result (λ short. short ≡ number) }
    ensures none { IsNone result → (negsuc 32767 ≤ℤ number) → (number ≤ℤ pos 32767) → ⊥ }
{
    if number < -32768 || number > 32767 {
        return None;
    }
    Some(number as i16)
}

/// Numbers as bytes; `wanted` says what they should be.
pub fn as_bytes(alloc: Global, numbers: &[i32], wanted: &'static str) -> Result<Vec<u8>, Fault>
    ensures { IfOk result (λ bytes. map pos bytes.items ≡ numbers.now) }
{
    let mut bytes = Vec::with_capacity(alloc, numbers.len())?;
    for k in 0..numbers.len() {
        let Some(byte) = as_byte(numbers[k]) else {
            return Err(Fault::Input(wanted));
        };
        if bytes.push(byte).is_err() {
            return Err(Fault::OutOfMemory);
        }
    }
    Ok(bytes)
}

/// Numbers that are taken from the front.
#[derive(Clone, Copy)]
pub struct Numbers<'a> {
    /// Those that aren't taken.
    pub left: &'a [i32],
}

impl<'a> Numbers<'a> {
    /// The next numbers, this many; `wanted` says what they should be. After an error none is taken.
    pub fn take(&mut self, count: usize, wanted: &'static str) -> Result<&'a [i32], Fault>
        ensures taken { IfOk result (λ next. (length next.now ≡ count) × (next.now ++ self.new.left.now ≡ self.old.left.now)) }
        ensures few { IsErr result → (length self.old.left.now < count) × (self.new ≡ self.old) }
    {
        if count > self.left.len() {
            return Err(Fault::Input(wanted));
        }
        let (next, left) = self.left.split_at(count);
        self.left = left;
        Ok(next)
    }
}
