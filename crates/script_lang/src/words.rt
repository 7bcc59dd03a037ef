// The words of a line.
ghost use Rattle.std.specs.Prelude.{◌≡◌};
ghost use Rattle.text_terms.specs.Lines.{before_comment, words_of};

use grid_number::{first_word, is_comment};
use std::marker::Model;

/// The words of a line from the first to the last: longest runs of bytes that are neither a space nor a tab. A
/// word that begins with `#` ends the line.
#[derive(Drop)]
pub struct Words<'t> {
    text: &'t [u8],
}

impl<'t> Model for Words<'t> {
    ghost use Rattle.std.specs.Prelude.{ℕ, List};
    ghost use Rattle.text_terms.specs.Lines.{before_comment, words_of};

    ghost Value = { List (List ℕ) };

    ghost view = { λ w. before_comment (words_of w.text.now) };
}

impl<'t> Words<'t> {
    /// The words of this line.
    pub fn of(line: &'t [u8]) -> Words<'t>
        ensures { result ≡ before_comment (words_of line.now) }
    {
        Words { text: line }
    }
}

impl<'t> Iterator for Words<'t> {
    type Item = &'t [u8];

    ghost use Rattle.std.specs.Iterator.{YieldsFirstRef, item_count};

    ghost next_gives = { YieldsFirstRef (λ words. words) };

    ghost remaining = { item_count (λ words. words) };

    fn next(&mut self) -> Option<&'t [u8]> {
        let (word, rest) = first_word(self.text)?;
        if is_comment(word) {
            return None;
        }
        self.text = rest;
        Some(word)
    }
}
