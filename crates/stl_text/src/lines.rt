// The words of a line, and the number of the last line.
ghost use Rattle.std.specs.Prelude.{◌≡◌, ◌+◌};
ghost use Rattle.text_terms.specs.Lines.{words_of};
ghost use Rattle.format_terms.specs.Stl.{last_line};

use grid_number::first_word;
use std::marker::Model;

/// The words of a line from the first to the last.
#[derive(Drop)]
pub struct StlWords<'t> {
    text: &'t [u8],
}

impl<'t> Model for StlWords<'t> {
    ghost use Rattle.std.specs.Prelude.{ℕ, List};
    ghost use Rattle.text_terms.specs.Lines.{words_of};

    ghost Value = { List (List ℕ) };

    ghost view = { λ w. words_of w.text.now };
}

impl<'t> StlWords<'t> {
    /// The words of this line.
    pub fn of(line: &'t [u8]) -> StlWords<'t>
        ensures { result ≡ words_of line.now }
    {
        StlWords { text: line }
    }
}

impl<'t> Iterator for StlWords<'t> {
    type Item = &'t [u8];

    ghost use Rattle.std.specs.Iterator.{YieldsFirstRef, item_count};

    ghost next_gives = { YieldsFirstRef (λ words. words) };

    ghost remaining = { item_count (λ words. words) };

    fn next(&mut self) -> Option<&'t [u8]> {
        let (word, rest) = first_word(self.text)?;
        self.text = rest;
        Some(word)
    }
}

/// The number of the last line of a text: 1 and the number of LFs.
pub fn last_line(text: &[u8]) -> u64
    ensures { result ≡ last_line text.now }
{
    1 + text.iter().filter(|byte| **byte == b'\n').count() as u64
}
