// Numbers of few digits at the front of a text.
ghost use Rattle.std.specs.Prelude.{◌≡◌, ◌<◌, ◌≤◌, ◌-◌, ◌^◌, IsTrue, IfSome, not};
ghost use Rattle.std.specs.List.{position_or_len};
ghost use Rattle.text_terms.specs.Numbers.{is_digit};
ghost use Rattle.grid_number.specs.Reading.{with_sign};
ghost use Rattle.obj_text.specs.Plain.{carry_by, SpellsOn, Drops, BeginsSize, EndsSize, BeginsWord};

use crate::items::minus_first;
use crate::plain::after_byte;

// The grid's end.
const END: u64 = 1 << 30;

// 10 to the power of each number of digits.
const STEPS: [u64; 7] = [1, 10, 100, 1_000, 10_000, 100_000, 1_000_000];

/// The coordinate of a number that a text begins with, and the text after it: an optional `-`, one to nine
/// digits, and a point and digits or none. What comes behind is not looked at, so the word may go on. None
/// where the text begins with no such number, or where it is off the grid.
pub fn short_coordinate(text: &[u8], digits: u8) -> Option<(i32, &[u8])>
    requires { digits ≤ 6 }
    ensures { IfSome result (λ r. BeginsWord digits text.now r.0 r.1.now) }
{
    let (negative, unsigned) = minus_first(text);
    let (size, rest) = short_size(unsigned, digits)?;
    if size > END {
        return None;
    }
    Some((under_sign(negative, size), rest))
}

// A size under a sign.
fn under_sign(negative: bool, size: u64) -> i32
    requires { size ≤ 2 ^ 30 }
    ensures { result ≡ with_sign negative size }
{
    let size = size as i32;
    if negative { -size } else { size }
}

// The size in steps of the grid, and the text after the number.
fn short_size(text: &[u8], digits: u8) -> Option<(u64, &[u8])>
    requires { digits ≤ 6 }
    ensures { IfSome result (λ r. BeginsSize digits text.now r.0 r.1.now) }
{
    let (whole, count) = leading_digits(text, 0, 9);
    if count == 0 || whole > END {
        return None;
    }
    let (_, rest) = text.split_at(count);
    match after_byte(rest, b'.') {
        None => Some((whole * steps(digits), rest)),
        Some(fraction) => size_with(whole, fraction, digits),
    }
}

// The size in steps of the grid of a whole number and the digits behind its point.
fn size_with(whole: u64, text: &[u8], digits: u8) -> Option<(u64, &[u8])>
    requires few { digits ≤ 6 }
    requires whole { whole ≤ 2 ^ 30 }
    ensures { IfSome result (λ r. EndsSize digits whole text.now r.0 r.1.now) }
{
    let (kept, count) = leading_digits(text, whole, usize::from(digits));
    if kept > END {
        return None;
    }
    let (_, rest) = text.split_at(count);
    let places = digits - count as u8;
    if places > 0 {
        return Some((kept * steps(places), rest));
    }
    let (carry, rest) = dropped(rest);
    Some((kept + carry, rest))
}

// What the digits at the front of a text carry where they are dropped, and the text after them. Most numbers
// end here, so the search is made only where a digit stands.
fn dropped(text: &[u8]) -> (u64, &[u8])
    ensures drops { Drops text.now result.0 result.1.now }
    ensures few { result.0 ≤ 1 }
{
    match text.first() {
        Some(digit) if digit.is_ascii_digit() => dropped_digits(text),
        _ => (0, text),
    }
}

// The same where there are some.
fn dropped_digits(text: &[u8]) -> (u64, &[u8])
    ensures drops { Drops text.now result.0 result.1.now }
    ensures few { result.0 ≤ 1 }
{
    let (lost, rest) = text.split_at(digits_len(text));
    (carry_by(lost), rest)
}

// One step more where the first of the digits that are dropped is 5 or more.
fn carry_by(lost: &[u8]) -> u64
    ensures value { result ≡ carry_by lost.now }
    ensures few { result ≤ 1 }
{
    match lost.split_first() {
        Some((digit, _)) if *digit >= b'5' => 1,
        _ => 0,
    }
}

// How many digits stand at the front.
fn digits_len(text: &[u8]) -> usize
    ensures { result ≡ position_or_len (λ c. not (is_digit c)) text.now }
{
    text.iter()
        .position(|byte| !byte.is_ascii_digit())
        .unwrap_or(text.len())
}

// How many steps of so many places a step has.
fn steps(places: u8) -> u64
    requires { places ≤ 6 }
    ensures value { result ≡ 10 ^ places }
    ensures few { result ≤ 1000000 }
{
    STEPS[usize::from(places)]
}

/// What digits at the front of a text spell behind digits that spell `before`, and how many they are: at most
/// so many. No clause says that it stops at no digit.
pub fn leading_digits(text: &[u8], before: u64, most: usize) -> (u64, usize)
    requires few { most ≤ 9 }
    requires before { before ≤ 2 ^ 30 }
    ensures spelled { SpellsOn before text.now result.0 result.1 }
    ensures most { result.1 ≤ most }
{
    let end = most.min(text.len());
    let mut value = before;
    let mut count = 0;
    while count < end {
        let digit = digit_of(text[count]);
        if digit >= 10 {
            return (value, count);
        }
        value = value * 10 + digit;
        count += 1;
    }
    (value, count)
}

// The digit that a byte is, or a number from 10 on.
fn digit_of(byte: u8) -> u64
    ensures digit { result < 10 → IsTrue (is_digit byte) }
    ensures value { result < 10 → result ≡ byte - 48 }
{
    u64::from(byte).wrapping_sub(48)
}
