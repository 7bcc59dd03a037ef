// What single words of a command line are worth: the digits, and the grid numbers of operands.
ghost use Rattle.std.specs.Prelude.{◌≡◌, ◌≤◌, ◌∷◌, [], IfSome};
ghost use Rattle.std.specs.Option.{option_map};
ghost use Rattle.mesh_terms.specs.Points.{IsOnGrid};
ghost use Rattle.play_terms.specs.Words.{digits_of, grid_operand};
ghost use Rattle.command_words.specs.Values.{listed};

use grid_number::read_grid;

/// The digits after the point of a file's numbers, where none are given.
const DIGITS: u8 = 4;

// The number of one character from 0 to 6.
fn digit(text: &[u8]) -> Option<u8>
    ensures value { result ≡ digits_of (text.now ∷ []) }
    ensures few { IfSome result (λ k. k ≤ 6) }
{
    match text {
        [c] if b'0' <= *c && *c <= b'6' => Some(*c - b'0'),
        _ => None,
    }
}

/// The digits of the value of `--digits`, or 4 where none is given. None where the value is not one character from 0 to 6.
pub fn digits_from(value: Option<&str>) -> Option<u8>
    ensures value { result ≡ digits_of (listed (option_map (λ w. w.now) value.entry)) }
    ensures few { IfSome result (λ k. k ≤ 6) }
{
    match value {
        Some(text) => digit(text.as_bytes()),
        None => Some(DIGITS),
    }
}

/// The grid number of an operand under so many digits, in grid steps. None where the word is no decimal number, or one whose value is off the grid.
pub fn coordinate(word: &str, digits: u8) -> Option<i32>
    requires { digits ≤ 6 }
    ensures value { result ≡ grid_operand digits word.now }
    ensures on_grid { IfSome result (λ z. IsOnGrid z) }
{
    read_grid(word.as_bytes(), digits).ok()
}
