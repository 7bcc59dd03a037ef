// The operands of a command.
ghost use Rattle.std.specs.Prelude.{◌≡◌, ◌≤◌, ◌<◌, nat_le, map, length, None, Some, unwrap_or, IfOk, OnOk, IfErr, IfSome, IsNone};
ghost use Rattle.std.specs.List.{list_all};
ghost use Rattle.mesh_terms.specs.Points.{IsOnGrid, IsPoint};
ghost use Rattle.text_terms.specs.Numbers.{digits_value};
ghost use Rattle.script_lang.specs.Operands.{few_digits, most_operands, three_fault, three_of};
ghost use Rattle.play_terms.specs.Operands.{
  axis,
  axis_fault,
  begins_name,
  file_name_fault,
  is_name,
  is_name_byte,
  new_name_fault,
  number_fault,
  number_of,
  within_fault,
};

use crate::fault::{BAD_NAME, BAD_NUMBER, BAD_SUFFIX};
use crate::words::Words;
use arrayvec::ArrayVec;
use grid_number::read_grid;
use mb_base::Point;
use play_terms::is_mesh_name;

// No command has more operands: a polygon has a name and up to 64 pairs.
const MOST: usize = 129;

// The longest name.
const LONGEST: usize = 32;

// The most digits of a whole number.
const MOST_DIGITS: usize = 7;

// Whether a byte may stand in a name.
fn is_name_byte(byte: u8) -> bool
    ensures { result ≡ is_name_byte byte }
{
    byte.is_ascii_alphanumeric() || byte == b'_'
}

// Whether a word is no longer than a name may be.
fn is_short(word: &[u8]) -> bool
    ensures { result ≡ nat_le (length word.now) 32 }
{
    word.len() <= LONGEST
}

// Whether a word begins with an ASCII letter.
fn begins_name(word: &[u8]) -> bool
    ensures { result ≡ begins_name word.now }
{
    match word.first() {
        Some(first) => first.is_ascii_alphabetic(),
        None => false,
    }
}

// Whether each byte of a word may stand in a name.
fn has_name_bytes(word: &[u8]) -> bool
    ensures { result ≡ list_all is_name_byte word.now }
{
    word.iter().all(|byte| is_name_byte(*byte))
}

// Whether a word is a name.
fn is_name(word: &[u8]) -> bool
    ensures { result ≡ is_name word.now }
{
    begins_name(word) && is_short(word) && has_name_bytes(word)
}

/// The text of a word that is a name; else the kind of its fault.
pub fn name_text(word: &[u8]) -> Result<&str, u8>
    ensures text { IfOk result (λ text. text.now ≡ word.now) }
    ensures name { OnOk result (new_name_fault word.now ≡ None) }
    ensures fault { IfErr result (λ kind. new_name_fault word.now ≡ Some kind) }
{
    if !is_name(word) {
        return Err(BAD_NAME);
    }
    match str::from_utf8(word) {
        Ok(text) => Ok(text),
        Err(_) => unreachable!(),
    }
}

/// The text of a word that is the name of a mesh file; else the kind of its fault.
pub fn file_text(word: &[u8]) -> Result<&str, u8>
    ensures text { IfOk result (λ text. text.now ≡ word.now) }
    ensures file { OnOk result (file_name_fault word.now ≡ None) }
    ensures fault { IfErr result (λ kind. file_name_fault word.now ≡ Some kind) }
{
    match str::from_utf8(word) {
        Ok(text) if is_mesh_name(word) => Ok(text),
        _ => Err(BAD_SUFFIX),
    }
}

/// The number of a word in steps of the grid; else the kind of its fault.
pub fn number(word: &[u8], digits: u8) -> Result<i32, u8>
    requires { digits ≤ 6 }
    ensures value { IfOk result (λ z. z ≡ number_of digits word.now) }
    ensures on_grid { IfOk result (λ z. IsOnGrid z) }
    ensures sound { OnOk result (number_fault digits word.now ≡ None) }
    ensures fault { IfErr result (λ kind. number_fault digits word.now ≡ Some kind) }
{
    match read_grid(word, digits) {
        Ok(number) => Ok(number),
        Err(_) => Err(BAD_NUMBER),
    }
}

/// The numbers of three words; else the kind of the first fault.
pub fn three(x: &[u8], y: &[u8], z: &[u8], digits: u8) -> Result<[i32; 3], u8>
    requires { digits ≤ 6 }
    ensures value { IfOk result (λ p. p ≡ three_of digits x.now y.now z.now) }
    ensures on_grid { IfOk result (λ p. IsPoint p) }
    ensures x { OnOk result (number_fault digits x.now ≡ None) }
    ensures y { OnOk result (number_fault digits y.now ≡ None) }
    ensures z { OnOk result (number_fault digits z.now ≡ None) }
    ensures fault { IfErr result (λ kind. three_fault digits x.now y.now z.now ≡ Some kind) }
{
    Ok([number(x, digits)?, number(y, digits)?, number(z, digits)?])
}

/// The point of three words; else the kind of the first fault.
pub fn point(x: &[u8], y: &[u8], z: &[u8], digits: u8) -> Result<Point, u8>
    requires { digits ≤ 6 }
    ensures value { IfOk result (λ p. p ≡ three_of digits x.now y.now z.now) }
    ensures x { OnOk result (number_fault digits x.now ≡ None) }
    ensures y { OnOk result (number_fault digits y.now ≡ None) }
    ensures z { OnOk result (number_fault digits z.now ≡ None) }
    ensures fault { IfErr result (λ kind. three_fault digits x.now y.now z.now ≡ Some kind) }
{
    let [x, y, z] = three(x, y, z, digits)?;
    match Point::of(x, y, z) {
        Some(point) => Ok(point),
        None => unreachable!(),
    }
}

/// The value of one to seven digits from `low` to `high`; else the kind of the word's fault.
pub fn within(word: &[u8], low: u32, high: u32) -> Result<u32, u8>
    ensures value { IfOk result (λ n. n ≡ digits_value word.now) }
    ensures sound { OnOk result (within_fault low high word.now ≡ None) }
    ensures fault { IfErr result (λ kind. within_fault low high word.now ≡ Some kind) }
{
    match few_digits(word) {
        Some(value) if low <= value && value <= high => Ok(value),
        _ => Err(BAD_NUMBER),
    }
}

// The value of one to seven digits; none where a word has other bytes or none, or more.
fn few_digits(word: &[u8]) -> Option<u32>
    ensures { result ≡ few_digits word.now }
{
    if word.is_empty() || word.len() > MOST_DIGITS {
        return None;
    }
    let mut value = 0;
    for digit in word {
        if !digit.is_ascii_digit() {
            return None;
        }
        value = value * 10 + u32::from(*digit - b'0');
    }
    Some(value)
}

/// The axis of a word, 0 to 2 for `x` to `z`; else the kind of its fault.
pub fn axis(word: &[u8]) -> Result<u8, u8>
    ensures value { IfOk result (λ n. n ≡ unwrap_or (axis word.now) 0) }
    ensures sound { OnOk result (axis_fault word.now ≡ None) }
    ensures fault { IfErr result (λ kind. axis_fault word.now ≡ Some kind) }
{
    if word == b"x".as_slice() {
        Ok(0)
    } else if word == b"y".as_slice() {
        Ok(1)
    } else if word == b"z".as_slice() {
        Ok(2)
    } else {
        Err(BAD_NUMBER)
    }
}

/// The words of a line, where they are no more than a command has operands.
pub fn taken<'t>(words: Words<'t>) -> Option<ArrayVec<&'t [u8], MOST>>
    ensures words { IfSome result (λ taken. map (λ w. w.now) taken.items ≡ words.entry) }
    ensures more { IsNone result → most_operands < length words.entry }
{
    let mut taken = ArrayVec::new();
    for word in words {
        if taken.is_full() {
            return None;
        }
        taken.push(word);
    }
    Some(taken)
}
