// Numbers in one digit each.
ghost use Rattle.std.specs.Prelude.{◌≤◌, IfSome};

use crate::NoRow;
use std::alloc::Global;

const DIGITS: &[u8; 62] = b"0123456789abcdefghijklmnopqrstuvwxyzABCDEFGHIJKLMNOPQRSTUVWXYZ";

// A digit, a small letter from 10 on, or a great one from 36 on.
fn value_of(digit: u8) -> Option<u8>
    ensures { IfSome result (λ v. v ≤ 61) }
{
    match digit {
        b'0'..=b'9' => Some(digit - b'0'),
        b'a'..=b'z' => Some(digit - b'a' + 10),
        b'A'..=b'Z' => Some(digit - b'A' + 36),
        _ => None,
    }
}

/// The numbers of a word, from -61 to 61, a digit each, with a sign before those below 0; a point stands for none. A sign without a
/// digit is no number.
pub fn numbers_of(alloc: Global, word: &str) -> Result<Vec<i8>, NoRow> {
    let mut numbers = Vec::new(alloc);
    let mut sign = 1;
    for byte in word.as_bytes() {
        if *byte == b'-' && sign > 0 {
            sign = -1;
        } else if *byte != b'.' || sign < 0 {
            let value = value_of(*byte).ok_or(NoRow::NoDigit)?;
            numbers.push(if sign < 0 {
                -(value as i8)
            } else {
                value as i8
            })?;
            sign = 1;
        }
    }
    if sign < 0 {
        return Err(NoRow::NoDigit);
    }
    Ok(numbers)
}

/// Adds a number of at most 61 in one digit.
pub fn push_digit(text: &mut String, number: u32) -> Result<(), NoRow> {
    let digit = DIGITS.get(number as usize).ok_or(NoRow::NoDigit)?;
    Ok(text.push(char::from(*digit))?)
}

/// Adds a number from -61 to 61 in one digit, after a sign where it is below 0.
pub fn push_signed(text: &mut String, number: i64) -> Result<(), NoRow> {
    if number < 0 {
        text.push('-')?;
    }
    let size = number.unsigned_abs();
    if size > 61 {
        return Err(NoRow::NoDigit);
    }
    push_digit(text, size as u32)
}
