// What the words of an STL file give, one after the other.
ghost use Rattle.std.specs.Prelude.{◌≡◌, ◌<◌, ◌≤◌, ◌++◌, ◌∷◌, [], Ok, Err, OnOk, IfOk, IfErr, length};
ghost use Rattle.text_terms.specs.Coordinates.{coordinate};
ghost use Rattle.text_terms.specs.FirstFault.{then_read, on_line};
ghost use Rattle.text_terms.specs.Lines.{without_mark, lines_of, numbered};
ghost use Rattle.mesh_terms.specs.Meshes.{triple_of, soup_of};
ghost use Rattle.mesh_terms.specs.Points.{IsOnGrid};
ghost use Rattle.format_terms.specs.StlGrammar as terms;
ghost use Rattle.format_terms.specs.Stl.{at_end, end_facet, last_line, nothing_gathered, repeats, stl_line, stl_lines, stl_word, welded, with_corner_at, with_number, word_lines};
ghost use Rattle.grid_number.specs.TextFaults.{IsFaultOf};

use crate::grammar::{Place, after_turn, after_word};
use crate::lines::{StlWords, last_line};
use crate::welded::Welded;
use arrayvec::ArrayVec;
use grid_number::{Lines, bad, coordinate, without_mark};
use mb_base::{Counted, Limits, NoMemory, Point, Soup, TextFault, TextKind};
use std::alloc::Global;
use std::marker::Model;
use unused_points::without_unused;

/// The points and the triangles that the words so far gave, and of the present facet the corners so far and
/// the numbers of the next.
#[derive(Drop)]
pub struct StlReader {
    points: Welded,
    triples: Vec<[u32; 3]>,
    corners: ArrayVec<u32, 3>,
    numbers: ArrayVec<i32, 2>,
    place: Place,
}

impl Model for StlReader {
    ghost use Rattle.std.specs.Prelude.{◌<◌, length};
    ghost use Rattle.std.specs.List.{All};
    ghost use Rattle.mesh_terms.specs.Meshes.{triples_of};
    ghost use Rattle.mesh_terms.specs.Points.{IsOnGrid};
    ghost use Rattle.format_terms.specs.Stl.{Gathered};
    ghost use Rattle.unused_points.specs.Used.{IsSound};
    ghost use Rattle.stl_text.specs.Places.{HasCorners, place_of};

    ghost Value = { Gathered };

    ghost view = { λ r. record {
      points = r.points;
      triples = triples_of r.triples.items;
      corners = r.corners.items;
      numbers = r.numbers.items;
      place = place_of r.place;
    } };

    ghost invariant = { λ r. IsSound (length r.points) (triples_of r.triples.items) ×
        All (λ v. v < length r.points) r.corners.items × All IsOnGrid r.numbers.items × HasCorners (place_of r.place) (length r.corners.items) };
}

impl StlReader {
    // Nothing so far.
    fn new(alloc: Global) -> StlReader
        ensures { result ≡ nothing_gathered }
    {
        StlReader {
            points: Welded::new(alloc),
            triples: Vec::new(alloc),
            corners: ArrayVec::new(),
            numbers: ArrayVec::new(),
            place: Place::BeforeSolid,
        }
    }

    /// Reads the lines of a text until the first fault.
    pub fn of(
        alloc: Global,
        bytes: &[u8],
        digits: u8,
        limits: &Limits,
    ) -> Result<StlReader, TextFault>
        requires { digits ≤ 6 }
        ensures read { IfOk result (λ r. stl_lines digits limits.now (word_lines (numbered 1 (lines_of (without_mark bytes.now)))) nothing_gathered ≡ Ok r) }
        ensures fault { IfErr result (IsFaultOf (stl_lines digits limits.now (word_lines (numbered 1 (lines_of (without_mark bytes.now)))) nothing_gathered)) }
    {
        let mut reading = StlReader::new(alloc);
        for (number, line) in Lines::of(without_mark(bytes)) {
            reading.read_line(StlWords::of(line), number, digits, limits)?;
        }
        Ok(reading)
    }

    /// The points and triangles after the last word of a text, without the points that no triangle uses.
    pub fn into_soup(self, alloc: Global, bytes: &[u8]) -> Result<Soup, TextFault>
        ensures soup { IfOk result (λ soup. at_end (last_line bytes.now) self self.place ≡ Ok soup) }
        ensures fault { IfErr result (IsFaultOf (at_end (last_line bytes.now) self self.place)) }
    {
        let StlReader {
            points,
            triples,
            corners: _,
            numbers: _,
            place,
        } = self;
        match place {
            Place::AfterSolid => {}
            _ => return Err(bad(last_line(bytes), TextKind::NotStl)),
        }
        let points = points.into_points(alloc)?;
        match without_unused(alloc, points, triples) {
            Ok(soup) => Ok(soup),
            Err(NoMemory) => Err(TextFault::NoMemory),
        }
    }

    // Reads the words of the line with this number.
    fn read_line(
        &mut self,
        words: StlWords<'_>,
        line: u64,
        digits: u8,
        limits: &Limits,
    ) -> Result<(), TextFault>
        requires { digits ≤ 6 }
        ensures read { OnOk result (stl_line digits limits.now line words.entry self.old ≡ Ok self.new) }
        ensures fault { IfErr result (IsFaultOf (stl_line digits limits.now line words.entry self.old)) }
    {
        for word in words {
            if let Some(place) = after_turn(self.place, word) {
                self.place = place;
                return Ok(());
            }
            self.read_word(word, line, digits, limits)?;
        }
        Ok(())
    }

    // Reads a word on this line.
    fn read_word(
        &mut self,
        word: &[u8],
        line: u64,
        digits: u8,
        limits: &Limits,
    ) -> Result<(), TextFault>
        requires { digits ≤ 6 }
        ensures read { OnOk result (stl_word digits limits.now line word.now self.old self.old.place ≡ Ok self.new) }
        ensures fault { IfErr result (IsFaultOf (stl_word digits limits.now line word.now self.old self.old.place)) }
    {
        if self.place == Place::Number {
            return match coordinate(word, digits) {
                Ok(number) => self.add_number(number, limits),
                Err(kind) => Err(bad(line, kind)),
            };
        }
        let Some(next) = after_word(self.place, word) else {
            return Err(bad(line, TextKind::NotStl));
        };
        if self.place == Place::EndFacet {
            return self.end_facet(limits);
        }
        self.place = next;
        Ok(())
    }

    // Adds a number of a corner, and with the third the corner.
    fn add_number(&mut self, number: i32, limits: &Limits) -> Result<(), TextFault>
        requires place { self.old.place ≡ terms.Number }
        requires on_grid { IsOnGrid number }
        ensures added { OnOk result (with_number limits.now self.old number ≡ Ok self.new) }
        ensures fault { IfErr result (IsFaultOf (with_number limits.now self.old number)) }
    {
        if !self.numbers.is_full() {
            self.numbers.push(number);
            return Ok(());
        }
        match Point::of(self.numbers[0], self.numbers[1], number) {
            Some(point) => self.add_corner(point, limits),
            None => unreachable!(),
        }
    }

    // Adds a corner at a point, where the limit allows it.
    fn add_corner(&mut self, point: Point, limits: &Limits) -> Result<(), TextFault>
        requires { self.old.place ≡ terms.Number }
        ensures added { OnOk result (with_corner_at self.old (welded limits.now self.old.points point) ≡ Ok self.new) }
        ensures fault { IfErr result (IsFaultOf (welded limits.now self.old.points point)) }
    {
        let vertex = self.points.number(point, limits)?;
        self.numbers.clear();
        self.corners.push(vertex);
        self.place = if self.corners.is_full() {
            Place::EndLoop
        } else {
            Place::Vertex
        };
        Ok(())
    }

    // Ends a facet: its triangle is added where it has three points and the limit allows it.
    fn end_facet(&mut self, limits: &Limits) -> Result<(), TextFault>
        requires { self.old.place ≡ terms.EndFacet }
        ensures added { OnOk result (end_facet limits.now self.old ≡ Ok self.new) }
        ensures fault { IfErr result (IsFaultOf (end_facet limits.now self.old)) }
    {
        let triple = [self.corners[0], self.corners[1], self.corners[2]];
        if !repeats(&triple) {
            let seen = self.triples.len() as u64 + 1;
            if seen > u64::from(limits.triangles()) {
                return Err(TextFault::Over {
                    what: Counted::Triangles,
                    seen,
                });
            }
            self.triples.push(triple)?;
        }
        self.corners.clear();
        self.place = Place::InSolid;
        Ok(())
    }
}

// Whether a triangle has some point twice.
fn repeats(triple: &[u32; 3]) -> bool
    ensures { result ≡ repeats (triple_of triple.now) }
{
    let [a, b, c] = *triple;
    a == b || b == c || c == a
}
