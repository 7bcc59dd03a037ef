// The decimal text of a grid number.
ghost use Rattle.std.specs.Prelude.{◌≡◌, ◌+◌, ◌*◌, ◌/◌, ◌%◌, ◌<◌, ◌≤◌, ◌++◌, ◌∷◌, ◌^◌, IsTrue, length, decimal, drop, nat_abs, pos, All, Some};
ghost use Rattle.arrayvec.specs.ArrayVec.{array_vec_len};
ghost use Rattle.text_terms.specs.Numbers.{is_on_grid, grid_number};
ghost use Rattle.text_terms.specs.Written.{written, written_size, written_rest, last_digits, without_zeros};
ghost use Rattle.grid_number.specs.Bytes.{is_number_byte, sign_of};

use arrayvec::ArrayVec;
use itoa::write_digits;

// 10 to the power of each number of digits.
const POWERS: [u32; 7] = [1, 10, 100, 1_000, 10_000, 100_000, 1_000_000];

// How many bytes the longest number has.
const LONGEST: usize = 12;

/// Writes a grid value, of `digits` decimal digits after the point, as text in place of what `into` held:
/// `-` where it is below 0, the whole part without leading zeros, and where there is a rest a point and the
/// rest without trailing zeros.
pub fn write_grid(value: i32, digits: u8, into: &mut ArrayVec<u8, 24>)
    requires on_grid { IsTrue (is_on_grid value) }
    requires digits { digits ≤ 6 }
    ensures text { into.new.items ≡ written digits value }
    ensures short { array_vec_len into.new ≤ 12 }
    ensures some { 0 < array_vec_len into.new }
    ensures bytes { All (λ c. IsTrue (is_number_byte c)) into.new.items }
    ensures read_back { grid_number digits into.new.items ≡ Some value }
{
    let mut text = [0; LONGEST];
    let start = write_grid_before(value, digits, &mut text, LONGEST);
    into.clear();
    match into.try_extend_from_slice(&text[start..]) {
        Ok(()) => (),
        Err(_) => unreachable!(),
    }
}

/// Writes the text of a grid value, as `write_grid` has it, so that it ends before the place `end` of `text`, and answers the place
/// where it starts. The bytes from `end` on stay as they are.
pub fn write_grid_before(value: i32, digits: u8, text: &mut [u8], end: usize) -> usize
    requires on_grid { IsTrue (is_on_grid value) }
    requires digits { digits ≤ 6 }
    requires room { (12 ≤ end) × (end ≤ length text.old) }
    ensures start { result + length (written digits value) ≡ end }
    ensures short { end ≤ result + 12 }
    ensures text { drop result text.new ≡ written digits value ++ drop end text.old }
    ensures read_back { grid_number digits (written digits value) ≡ Some value }
{
    let start = size_before(value.unsigned_abs(), digits, text, end);
    sign_before(value < 0, text, start)
}

// Writes the sign of a number below 0 in the same way.
fn sign_before(negative: bool, text: &mut [u8], end: usize) -> usize
    requires room { (1 ≤ end) × (end ≤ length text.old) }
    ensures start { result + length (sign_of negative) ≡ end }
    ensures text { drop result text.new ≡ sign_of negative ++ drop end text.old }
{
    if !negative {
        return end;
    }
    text[end - 1] = b'-';
    end - 1
}

// Writes the text of a size in the same way.
fn size_before(size: u32, digits: u8, text: &mut [u8], end: usize) -> usize
    requires size { size ≤ 2 ^ 30 }
    requires digits { digits ≤ 6 }
    requires room { (11 ≤ end) × (end ≤ length text.old) }
    ensures start { result + length (written_size digits size) ≡ end }
    ensures text { drop result text.new ≡ written_size digits size ++ drop end text.old }
{
    if digits == 0 {
        return write_digits(u64::from(size), text, end);
    }
    let unit = power_of_ten(digits);
    let point = rest_before(size % unit, digits, text, end);
    write_digits(u64::from(size / unit), text, point)
}

// 10 to the power of a number of digits.
fn power_of_ten(digits: u8) -> u32
    requires { digits ≤ 6 }
    ensures value { result ≡ 10 ^ digits }
    ensures some { 0 < result }
{
    POWERS[usize::from(digits)]
}

// Writes a point and the steps past the last whole unit, without trailing zeros, where there are any.
fn rest_before(rest: u32, digits: u8, text: &mut [u8], end: usize) -> usize
    requires rest { rest < 10 ^ digits }
    requires digits { digits ≤ 6 }
    requires room { (7 ≤ end) × (end ≤ length text.old) }
    ensures start { result + length (written_rest digits rest) ≡ end }
    ensures text { drop result text.new ≡ written_rest digits rest ++ drop end text.old }
{
    if rest == 0 {
        return end;
    }
    let (kept, places) = without_last_zeros(rest, digits);
    digits_before(kept, places, text, end)
}

// A number without the zeros at the end of its last `digits` digits, and how many of them are left.
fn without_last_zeros(rest: u32, digits: u8) -> (u32, u8)
    requires some { 0 < rest }
    requires rest { rest < 10 ^ digits }
    requires digits { digits ≤ 6 }
    ensures below { result.0 < 10 ^ result.1 }
    ensures fewer { result.1 ≤ digits }
    ensures same { last_digits result.1 result.0 ≡ without_zeros (last_digits digits rest) }
{
    let mut left = rest;
    let mut places = digits;
    while left % 10 == 0 {
        left /= 10;
        places -= 1;
    }
    (left, places)
}

// Writes a point and the last digits of a number. The number is written behind a 1, so that the zeros at its front stay, and the
// point takes the place of the 1.
fn digits_before(number: u32, places: u8, text: &mut [u8], end: usize) -> usize
    requires number { number < 10 ^ places }
    requires places { places ≤ 6 }
    requires room { (7 ≤ end) × (end ≤ length text.old) }
    ensures start { result + (places + 1) ≡ end }
    ensures text { drop result text.new ≡ 46 ∷ last_digits places number ++ drop end text.old }
{
    let start = write_digits(u64::from(power_of_ten(places) + number), text, end);
    text[start] = b'.';
    start
}
