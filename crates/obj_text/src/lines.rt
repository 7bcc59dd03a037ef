// The lines of a text, joined where they go on.
ghost use Rattle.std.specs.Prelude.{◌≡◌, ◌<◌, ◌≤◌, ◌+◌, [], ◌∷◌, ◌^◌, length, IfSome};
ghost use Rattle.text_terms.specs.Lines.{lines_of, joined_lines};
ghost use Rattle.format_terms.specs.Obj.{word_lines};
ghost use Rattle.obj_text.specs.Lines.{lines_past};
ghost use Rattle.obj_text.specs.Plain.{IsFaceFirst, IsPointFirst};

use crate::plain::{face_line, point_line};
use crate::words::{ObjWords, is_continued};
use grid_number::first_line;
use std::marker::Model;

/// The lines of a text from the first to the last, each with its number, from 1, and its words. A line
/// ends at its LF or at the end of the text, and one CR at its end is dropped. Where it goes on in the
/// next line, both are one, with the number of its first part.
#[derive(Drop)]
pub struct Lines<'t> {
    text: &'t [u8],
    number: u64,
}

impl<'t> Model for Lines<'t> {
    ghost use Rattle.std.specs.Prelude.{◌+◌, ◌≤◌, ◌^◌, ℕ, List, length};
    ghost use Rattle.text_terms.specs.Lines.{lines_of, joined_from};
    ghost use Rattle.format_terms.specs.Obj.{word_lines};

    ghost Value = { List (ℕ × List (List ℕ)) };

    ghost view = { λ l. word_lines (joined_from l.number (lines_of l.text.now)) };

    ghost invariant = { λ l. l.number + length l.text.now ≤ 2 ^ 63 };
}

impl<'t> Lines<'t> {
    /// The lines of this text.
    pub fn of(text: &'t [u8]) -> Lines<'t>
        ensures { result ≡ word_lines (joined_lines text.now) }
    {
        Lines { text, number: 1 }
    }

    /// The vertices, from 0, that a face names, where its plain line comes next, and the lines after it.
    pub fn face(&self) -> Option<(u64, u64, u64, Lines<'t>)>
        ensures { IfSome result (λ r. IsFaceFirst self.now r.0 r.1 r.2 r.3) }
    {
        let (a, b, c, text) = face_line(self.text)?;
        let number = self.number + 1;
        Some((a, b, c, Lines { text, number }))
    }

    /// The coordinates of a point, where its plain line comes next, and the lines after it.
    pub fn point(&self, digits: u8) -> Option<(i32, i32, i32, Lines<'t>)>
        requires { digits ≤ 6 }
        ensures { IfSome result (λ r. IsPointFirst digits self.now (r.0 ∷ r.1 ∷ r.2 ∷ []) r.3) }
    {
        let (x, y, z, text) = point_line(self.text, digits)?;
        let number = self.number + 1;
        Some((x, y, z, Lines { text, number }))
    }
}

impl<'t> Iterator for Lines<'t> {
    type Item = (u64, ObjWords<'t>);

    ghost use Rattle.std.specs.Iterator.{YieldsFirst, item_count};

    ghost next_gives = { YieldsFirst (λ lines. lines) };

    ghost remaining = { item_count (λ lines. lines) };

    fn next(&mut self) -> Option<(u64, ObjWords<'t>)> {
        if self.text.is_empty() {
            return None;
        }
        let number = self.number;
        let (line, after) = first_line(self.text);
        let (next, text) = past_line(line, after, number);
        self.text = text;
        self.number = next;
        Some((number, ObjWords::of(line, after)))
    }
}

// What comes after a line with this number, as far as it goes on in the text after it: the number of
// the next line, and the text from there.
fn past_line<'t>(line: &'t [u8], after: &'t [u8], number: u64) -> (u64, &'t [u8])
    requires { number + length after.now < 2 ^ 63 }
    ensures past { lines_past number (line.entry.now ∷ lines_of after.entry.now) ≡ (result.0, lines_of result.1.now) }
    ensures few { result.0 + length result.1.now ≤ number + 1 + length after.entry.now }
{
    let mut line = line;
    let mut after = after;
    let mut number = number;
    while is_continued(line) && !after.is_empty() {
        (line, after) = first_line(after);
        number += 1;
    }
    (number + 1, after)
}
