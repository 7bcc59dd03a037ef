// The lines of a text.
ghost use Rattle.std.specs.Prelude.{◌≡◌, ◌+◌, ◌<◌, ◌∷◌, length};
ghost use Rattle.text_terms.specs.Lines.{lines_of, numbered, raw_lines, without_cr, without_mark};

use memchr::memchr;
use std::marker::Model;

/// The lines of a text from the first to the last, each with its number, from 1. A line ends at its LF or at the end
/// of the text, and one CR at its end is dropped.
#[derive(Drop)]
pub struct Lines<'t> {
    text: &'t [u8],
    number: u64,
}

impl<'t> Model for Lines<'t> {
    ghost use Rattle.std.specs.Prelude.{◌+◌, ◌≤◌, ◌^◌, ℕ, List, length};
    ghost use Rattle.text_terms.specs.Lines.{lines_of, numbered};

    ghost Value = { List (ℕ × List ℕ) };

    ghost view = { λ l. numbered l.number (lines_of l.text.now) };

    ghost invariant = { λ l. l.number + length l.text.now ≤ 2 ^ 63 };
}

impl<'t> Lines<'t> {
    /// The lines of this text.
    pub fn of(text: &'t [u8]) -> Lines<'t>
        ensures { result ≡ numbered 1 (lines_of text.now) }
    {
        Lines { text, number: 1 }
    }
}

impl<'t> Iterator for Lines<'t> {
    type Item = (u64, &'t [u8]);

    ghost use Rattle.std.specs.Iterator.{YieldsFirstBy, item_count};

    ghost next_gives = { YieldsFirstBy (λ line. (line.0, line.1.now)) (λ lines. lines) };

    ghost remaining = { item_count (λ lines. lines) };

    fn next(&mut self) -> Option<(u64, &'t [u8])> {
        if self.text.is_empty() {
            return None;
        }
        let number = self.number;
        let (line, after) = first_line(self.text);
        self.text = after;
        self.number = number + 1;
        Some((number, line))
    }
}

/// A text without the mark EF BB BF at its start, if there is one.
pub fn without_mark(bytes: &[u8]) -> &[u8]
    ensures { result.now ≡ without_mark bytes.now }
{
    match bytes {
        [0xef, 0xbb, 0xbf, rest @ ..] => rest,
        _ => bytes,
    }
}

/// The first line of a text, without its end, and the text after it.
pub fn first_line(text: &[u8]) -> (&[u8], &[u8])
    requires { 0 < length text.now }
    ensures lines { lines_of text.now ≡ result.0.now ∷ lines_of result.1.now }
    ensures less { length result.1.now < length text.now }
{
    let (line, after) = cut_line(text);
    (without_cr(line), after)
}

// The first line of a text without its LF, and the text after it.
fn cut_line(text: &[u8]) -> (&[u8], &[u8])
    requires { 0 < length text.now }
    ensures lines { raw_lines text.now ≡ result.0.now ∷ raw_lines result.1.now }
    ensures less { length result.1.now < length text.now }
{
    match memchr(b'\n', text) {
        None => text.split_at(text.len()),
        Some(end) => {
            let (line, _) = text.split_at(end);
            let (_, rest) = text.split_at(end + 1);
            (line, rest)
        }
    }
}

// A line without the CR at its end, if there is one.
fn without_cr(line: &[u8]) -> &[u8]
    ensures { result.now ≡ without_cr line.now }
{
    let Some((last, front)) = line.split_last() else {
        return line;
    };
    if *last == b'\r' { front } else { line }
}
