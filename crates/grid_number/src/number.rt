// The parts of a decimal number, and its size in steps.
ghost use Rattle.std.specs.Prelude.{◌≡◌, ◌+◌, ◌*◌, ◌^◌, ◌<◌, ◌≤◌, ◌++◌, ◌+ℤ◌, ◌-ℤ◌, pos, IsTrue, IsFalse, IfNone, IfSome, length, nat_abs, option_map};
ghost use Rattle.text_terms.specs.Numbers.{all_digits, value_from, digits_value, number_parts, signed, size_of};
ghost use Rattle.grid_number.specs.Reading.{saturated, saturated_size, saturated_parts, saturation, parts_with, begins_digit, exponent_after, power_of, spelled_by, with_sign, AfterPoint};

use crate::digits::{LeadingDigits, leading_digits};
use crate::moved::{lowered, raised};

// The sign, the digits before and after the point, what they spell together, and the exponent.
#[derive(Clone, Copy)]
pub struct Number<'t> {
    pub negative: bool,
    pub whole: &'t [u8],
    pub fraction: &'t [u8],
    pub spelled: u64,
    pub exponent: i128,
    ghost whole_digits: { IsTrue (all_digits whole.now) },
    ghost fraction_digits: { IsTrue (all_digits fraction.now) },
    ghost spelled_together: { spelled ≡ saturated (digits_value (whole.now ++ fraction.now)) },
    ghost within: { nat_abs exponent ≤ saturation },
    ghost short: { length whole.now + length fraction.now < 2 ^ 63 },
}

impl<'t> Number<'t> {
    // The parts of a text, where it is a number.
    pub fn of(text: &'t [u8]) -> Option<Number<'t>>
        ensures none { IfNone result (number_parts text.entry.now ≡ None) }
        ensures some { IfSome result (λ n.
            option_map saturated_parts (number_parts text.entry.now)
            ≡ Some (parts_with n.negative n.whole.now n.fraction.now n.exponent)) }
    {
        let (negative, unsigned) = after_sign(text);
        let whole = leading_digits(unsigned, 0);
        let fraction = after_point(whole.rest, whole.value);
        if whole.digits.is_empty() && fraction.digits.is_empty() {
            return None;
        }
        let exponent = exponent(fraction.rest)?;
        Some(Number {
            negative,
            whole: whole.digits,
            fraction: fraction.digits,
            spelled: fraction.value,
            exponent,
        })
    }

    // The size in steps of the grid, as far as a word holds it.
    pub fn size(&self, digits: u8) -> u64
        ensures { let n = self.now in
            result ≡ saturated (size_of digits (parts_with n.negative n.whole.now n.fraction.now n.exponent)) }
    {
        let places = self.places(digits);
        if places < 0 {
            lowered(self.whole, self.fraction, places.unsigned_abs())
        } else {
            raised(self.spelled, places.unsigned_abs())
        }
    }

    // How many places up the digits without their point are to be moved.
    fn places(&self, digits: u8) -> i128
        ensures { result ≡ (self.now.exponent -ℤ pos (length self.now.fraction.now)) +ℤ pos digits }
    {
        self.exponent - self.fraction.len() as i128 + i128::from(digits)
    }
}

// Whether a text begins with `-`, and the text after its sign.
fn after_sign<'t>(text: &'t [u8]) -> (bool, &'t [u8])
    ensures { signed text.entry.now ≡ (result.0, result.1.now) }
{
    match text {
        [b'-', rest @ ..] => (true, rest),
        [b'+', rest @ ..] => (false, rest),
        _ => (false, text),
    }
}

// The digits after a point, where one comes next, behind digits that spell `before`.
fn after_point<'t>(text: &'t [u8], before: u64) -> LeadingDigits<'t>
    requires before { before ≤ saturation }
    requires ends { IsFalse (begins_digit text.now) }
    ensures split { AfterPoint text.entry.now result.digits.now result.rest.now }
    ensures digits { IsTrue (all_digits result.digits.now) }
    ensures ends { IsFalse (begins_digit result.rest.now) }
    ensures value { result.value ≡ saturated (value_from before result.digits.now) }
{
    match text {
        [b'.', rest @ ..] => leading_digits(rest, before),
        _ => LeadingDigits {
            digits: &[],
            value: before,
            rest: text,
        },
    }
}

// The exponent in what stands after a mantissa, where nothing else stands there.
fn exponent(text: &[u8]) -> Option<i128>
    ensures { result ≡ option_map saturated_size (exponent_after text.now) }
{
    match text {
        [] => Some(0),
        [b'e' | b'E', power @ ..] => whole_number(power),
        _ => None,
    }
}

// The whole number that a text is, with a sign or without.
fn whole_number(text: &[u8]) -> Option<i128>
    ensures { result ≡ option_map saturated_size (power_of text.now) }
{
    let (negative, unsigned) = after_sign(text);
    let size = only_digits(unsigned)?;
    Some(signed_size(negative, size))
}

// A size under a sign.
fn signed_size(negative: bool, size: u64) -> i128
    ensures { result ≡ with_sign negative size }
{
    let size = i128::from(size);
    if negative { -size } else { size }
}

// What a text spells that is digits and nothing else.
fn only_digits(text: &[u8]) -> Option<u64>
    ensures { result ≡ spelled_by text.now }
{
    let run = leading_digits(text, 0);
    if !run.rest.is_empty() {
        return None;
    }
    if run.digits.is_empty() {
        None
    } else {
        Some(run.value)
    }
}
