// The words of a line.
ghost use Rattle.std.specs.Prelude.{◌≡◌, ◌<◌, ◌≤◌, ◌⊎◌, [], ◌∷◌, length, take, IsTrue, IfSome, IfNone};
ghost use Rattle.text_terms.specs.Lines.{is_continued, begins_word, before_comment, words_of, lines_of, begins_comment};
ghost use Rattle.std.specs.List.{All};
ghost use Rattle.format_laws.specs.ReadWords.{IsReadWord};
ghost use Rattle.obj_text.specs.Lines.{first_words, words_left};

use grid_number::{after_blanks, first_blank, first_line, is_comment};
use std::marker::Model;

/// The words of a line from the first to the last: longest runs of bytes that are neither a space nor a
/// tab. A word that begins with `#` ends the line.
#[derive(Drop)]
pub struct ObjWords<'t> {
    part: &'t [u8],
    later: &'t [u8],
}

impl<'t> Model for ObjWords<'t> {
    ghost use Rattle.std.specs.Prelude.{ℕ, List};
    ghost use Rattle.text_terms.specs.Lines.{before_comment};
    ghost use Rattle.obj_text.specs.Lines.{words_left};

    ghost Value = { List (List ℕ) };

    ghost view = { λ w. before_comment (words_left w.part.now w.later.now) };
}

impl<'t> ObjWords<'t> {
    /// The words of a line, as far as it goes on in the text after it.
    pub fn of(line: &'t [u8], after: &'t [u8]) -> ObjWords<'t>
        ensures { result ≡ before_comment (first_words (line.now ∷ lines_of after.now)) }
    {
        let (part, later) = part_of(line, after);
        ObjWords { part, later }
    }

    /// Each word has some bytes, and none begins with `#`.
    pub fn are_read(&self)
        ensures { All IsReadWord self.now }
    {
        // Read so that what is left of the line is known here.
        let _part = self.part;
    }

    /// The next three words, where there are so many.
    pub fn three(&mut self) -> Option<(&'t [u8], &'t [u8], &'t [u8])>
        ensures three { IfSome result (λ w. self.old ≡ w.0.now ∷ w.1.now ∷ w.2.now ∷ self.new) }
        ensures fewer { IfNone result (length self.old < 3) }
    {
        let first = self.next()?;
        let second = self.next()?;
        let third = self.next()?;
        Some((first, second, third))
    }

    /// The first three of the words that are left, where these are three to seven.
    pub fn three_of_few(mut self) -> Option<(&'t [u8], &'t [u8], &'t [u8])>
        ensures three { IfSome result (λ w. take 3 self.entry ≡ w.0.now ∷ w.1.now ∷ w.2.now ∷ []) }
        ensures few { IfSome result (λ w. (3 ≤ length self.entry) × (length self.entry ≤ 7)) }
        ensures other { IfNone result ((length self.entry < 3) ⊎ (7 < length self.entry)) }
    {
        let words = self.three()?;
        match self.nth(4) {
            None => Some(words),
            Some(_) => None,
        }
    }
}

impl<'t> Iterator for ObjWords<'t> {
    type Item = &'t [u8];

    ghost use Rattle.std.specs.Iterator.{YieldsFirstRef, item_count};

    ghost next_gives = { YieldsFirstRef (λ words. words) };

    ghost remaining = { item_count (λ words. words) };

    fn next(&mut self) -> Option<&'t [u8]> {
        let (text, later) = next_word(self.part, self.later);
        if text.is_empty() || text[0] == b'#' {
            return None;
        }
        let (word, rest) = text.split_at(first_blank(text));
        self.part = rest;
        self.later = later;
        Some(word)
    }
}

/// Whether a line goes on in the next: its last byte is `\`, and its first word does not begin with `#`.
pub fn is_continued(line: &[u8]) -> bool
    ensures { result ≡ is_continued line.now }
{
    let Some((last, _)) = line.split_last() else {
        return false;
    };
    *last == b'\\' && !begins_comment(line)
}

// Whether the first word of a line begins with `#`.
fn begins_comment(line: &[u8]) -> bool
    ensures { result ≡ begins_comment (words_of line.now) }
{
    is_comment(after_blanks(line))
}

// What is to be read of a line for its words: the line itself, or the line up to its `\` and the text
// in which it goes on.
fn part_of<'t>(line: &'t [u8], after: &'t [u8]) -> (&'t [u8], &'t [u8])
    ensures words { words_left result.0.now result.1.now ≡ first_words (line.entry.now ∷ lines_of after.entry.now) }
    ensures less { length result.1.now ≤ length after.entry.now }
{
    if is_continued(line) {
        let (part, _) = line.split_at(line.len() - 1);
        (part, after)
    } else {
        (line, &[])
    }
}

// What is left of a line from its next word on, over the ends of its parts; nothing where no word is left.
fn next_word<'t>(part: &'t [u8], more: &'t [u8]) -> (&'t [u8], &'t [u8])
    ensures words { words_left result.0.now result.1.now ≡ words_left part.entry.now more.entry.now }
    ensures word { 0 < length result.0.now → IsTrue (begins_word result.0.now) }
    ensures none { length result.0.now ≡ 0 → words_left part.entry.now more.entry.now ≡ [] }
{
    let mut text = after_blanks(part);
    let mut later = more;
    while text.is_empty() && !later.is_empty() {
        let (line, after) = first_line(later);
        let (next, rest) = part_of(line, after);
        text = after_blanks(next);
        later = rest;
    }
    (text, later)
}
