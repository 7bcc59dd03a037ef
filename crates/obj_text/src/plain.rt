// Plain lines, as this program writes them: `f` and three numbers of digits, or `v` and three coordinates,
// with one space before each and an LF behind, or a CR and an LF. Where the answer is None nothing is said,
// and the line is read by its words.
//
// Nearly every line of a large OBJ file is `f a b c` or `v x y z` with one space before each word, and an LF or a CR
// and an LF behind. Such a plain line is read in one pass from the text, without a list of words and without
// division: indices of one to nine digits, and numbers of one to nine digits before the point with any digits behind
// it, rounded by the first that is dropped. Other words of plain bytes, as those with an exponent, are cut and given
// to `coordinate`. This way only adds a point or a triangle, or declines and leaves all as it was. Any fault, any
// limit that is passed and any other line is then read in the general way from the same place, so faults have one
// source. Its contract is that the lines from here give the same as those after it do to what was gathered
// (`obj_lines`), so the definitions know nothing of it. A sphere of a million triangles is read with a third of the
// instructions. `obj_text` stands on `format_laws` for the lemmas on words and lines that the round trip of written
// files needed already.
ghost use Rattle.std.specs.Prelude.{◌≡◌, ◌≤◌, [], ◌∷◌, not, IfSome};
ghost use Rattle.std.specs.List.{position_or_len};
ghost use Rattle.obj_text.specs.Plain.{is_plain, ends_plain, BeginsIndex, BeginsWord, BeginsCoordinate, EndsLine, BeginsFace, BeginsPoint};

use crate::decimals::{leading_digits, short_coordinate};
use grid_number::coordinate;

/// The vertices, from 0, that the line of a face at the front of a text names, and the text after it.
pub fn face_line(text: &[u8]) -> Option<(u64, u64, u64, &[u8])>
    ensures { IfSome result (λ r. BeginsFace text.now r.0 r.1 r.2 r.3.now) }
{
    let text = after_byte(text, b'f')?;
    let (first, text) = next_index(text)?;
    let (second, text) = next_index(text)?;
    let (third, text) = next_index(text)?;
    let text = after_line_end(text)?;
    Some((first, second, third, text))
}

/// The coordinates of the line of a point at the front of a text, and the text after it.
pub fn point_line(text: &[u8], digits: u8) -> Option<(i32, i32, i32, &[u8])>
    requires { digits ≤ 6 }
    ensures { IfSome result (λ r. BeginsPoint digits text.now (r.0 ∷ r.1 ∷ r.2 ∷ []) r.3.now) }
{
    let text = after_byte(text, b'v')?;
    let (x, text) = next_coordinate(text, digits)?;
    let (y, text) = next_coordinate(text, digits)?;
    let (z, text) = next_coordinate(text, digits)?;
    let text = after_line_end(text)?;
    Some((x, y, z, text))
}

/// The text after a byte at its front.
pub fn after_byte(text: &[u8], byte: u8) -> Option<&[u8]>
    ensures { IfSome result (λ rest. text.now ≡ byte ∷ rest.now) }
{
    match text.split_first() {
        Some((first, rest)) if *first == byte => Some(rest),
        _ => None,
    }
}

// The text after the end of a line at its front.
fn after_line_end(text: &[u8]) -> Option<&[u8]>
    ensures { IfSome result (λ rest. EndsLine text.now rest.now) }
{
    match after_byte(text, b'\n') {
        Some(rest) => Some(rest),
        None => after_cr_lf(text),
    }
}

// The text after a CR and an LF at its front.
fn after_cr_lf(text: &[u8]) -> Option<&[u8]>
    ensures { IfSome result (λ rest. text.now ≡ 13 ∷ 10 ∷ rest.now) }
{
    let text = after_byte(text, b'\r')?;
    after_byte(text, b'\n')
}

// The vertex, from 0, that the digits behind a space at the front of a text name, and the text after them.
fn next_index(text: &[u8]) -> Option<(u64, &[u8])>
    ensures { IfSome result (λ r. BeginsIndex text.now r.0 r.1.now) }
{
    let text = after_byte(text, b' ')?;
    let (number, count) = leading_digits(text, 0, 9);
    if number == 0 {
        return None;
    }
    let (_, rest) = text.split_at(count);
    Some((number - 1, rest))
}

// The coordinate of the word behind a space at the front of a text, and the text after it.
fn next_coordinate(text: &[u8], digits: u8) -> Option<(i32, &[u8])>
    requires { digits ≤ 6 }
    ensures { IfSome result (λ r. BeginsCoordinate digits text.now r.0 r.1.now) }
{
    let text = after_byte(text, b' ')?;
    front_coordinate(text, digits)
}

// The coordinate of the word at the front of a text, and the text after it.
fn front_coordinate(text: &[u8], digits: u8) -> Option<(i32, &[u8])>
    requires { digits ≤ 6 }
    ensures { IfSome result (λ r. BeginsWord digits text.now r.0 r.1.now) }
{
    match short_coordinate(text, digits) {
        Some((value, rest)) if ends_plain(rest) => Some((value, rest)),
        _ => word_coordinate(text, digits),
    }
}

// The coordinate of the plain word at the front of a text, and the text after it.
fn word_coordinate(text: &[u8], digits: u8) -> Option<(i32, &[u8])>
    requires { digits ≤ 6 }
    ensures { IfSome result (λ r. BeginsWord digits text.now r.0 r.1.now) }
{
    let (word, rest) = text.split_at(plain_len(text));
    if word.is_empty() {
        return None;
    }
    match coordinate(word, digits) {
        Ok(value) => Some((value, rest)),
        Err(_) => None,
    }
}

// Whether no byte of a plain word stands at the front.
fn ends_plain(text: &[u8]) -> bool
    ensures { result ≡ ends_plain text.now }
{
    match text.split_first() {
        Some((byte, _)) => !is_plain(*byte),
        None => true,
    }
}

// How many bytes of a plain word stand at the front.
fn plain_len(text: &[u8]) -> usize
    ensures { result ≡ position_or_len (λ c. not (is_plain c)) text.now }
{
    text.iter()
        .position(|byte| !is_plain(*byte))
        .unwrap_or(text.len())
}

// Whether a byte stands in a plain word.
fn is_plain(byte: u8) -> bool
    ensures { result ≡ is_plain byte }
{
    byte > b' ' && byte != b'#' && byte != b'\\'
}
