// What the lines of an OBJ file give, one after the other.
ghost use Rattle.std.specs.Prelude.{◌≡◌, ◌<◌, ◌≤◌, [], ◌∷◌, ◌++◌, ℕ, false, Ok, OnOk, OnErr, IfOk, IfErr, IsTrue, IsFalse, All, length, bytes_eq};
ghost use Rattle.std.specs.List.{list_any};
ghost use Rattle.text_terms.specs.Lines.{joined_lines};
ghost use Rattle.mesh_terms.specs.Labels.{labels_for, no_labels};
ghost use Rattle.mesh_terms.specs.Limits.{most_points, most_triangles};
ghost use Rattle.mesh_terms.specs.Meshes.{HasThree, IsBelow, triples_of, soup_of};
ghost use Rattle.format_terms.specs.ObjFaces.{face_fan, has_repeat};
ghost use Rattle.format_terms.specs.Obj.{nothing_gathered, with_point, with_triples, obj_point, obj_face, obj_line, obj_lines, passed_over, word_lines};
ghost use Rattle.grid_number.specs.TextFaults.{IsFaultOf};
ghost use Rattle.obj_text.specs.Plain.{ReadsLine};

use crate::groups::Groups;
use crate::items::{point_of, read_vertices};
use crate::lines::Lines;
use crate::repeats::has_repeat;
use crate::words::ObjWords;
use grid_number::bad;
use mb_base::{Counted, Labels, Limits, NoMemory, Point, Soup, TextFault, TextKind};
use std::alloc::{AllocError, Global};
use std::marker::Model;
use unused_points::without_unused;

/// The points and the triangles that the lines so far gave, and their groups.
#[derive(Drop)]
pub struct Gathered {
    points: Vec<Point>,
    triples: Vec<[u32; 3]>,
    groups: Groups,
}

impl Model for Gathered {
    ghost use Rattle.std.specs.Prelude.{length};
    ghost use Rattle.mesh_terms.specs.Labels.{labels_for};
    ghost use Rattle.mesh_terms.specs.Meshes.{triples_of};
    ghost use Rattle.format_terms.specs.Obj.{Gathered as TheGathered};
    ghost use Rattle.obj_text.specs.Groups.{IsGathering};

    ghost Value = { TheGathered };

    ghost view = { λ g. record {
      points = g.points.items;
      triples = triples_of g.triples.items;
      labels = labels_for (triples_of g.triples.items) g.groups.labels;
      label = g.groups.label;
    } };

    ghost invariant = { λ g. IsGathering (length g.points.items) (triples_of g.triples.items) g.groups.labels };
}

impl Gathered {
    // Nothing so far.
    fn new(alloc: Global) -> Gathered
        ensures { result ≡ nothing_gathered }
    {
        Gathered {
            points: Vec::new(alloc),
            triples: Vec::new(alloc),
            groups: Groups::new(alloc),
        }
    }

    // How many points there are.
    fn count(&self) -> u32
        ensures { result ≡ length self.now.points }
    {
        self.points.len() as u32
    }

    // The soup of the points and the triangles with their labels.
    fn into_soup(self, alloc: Global) -> Result<Soup, TextFault>
        ensures soup { IfOk result (λ soup. soup ≡ soup_of self.points self.triples self.labels) }
        ensures fault { IfErr result (λ e. e ≡ TextFault.NoMemory) }
    {
        let Gathered {
            points,
            triples,
            groups,
        } = self;
        match without_unused(alloc, points, triples) {
            Ok(soup) => Ok(with_labels(soup, groups.into_labels())),
            Err(NoMemory) => Err(TextFault::NoMemory),
        }
    }

    // Adds a point, where the limit allows it.
    fn add_point(&mut self, point: Point, limits: &Limits) -> Result<(), TextFault>
        ensures added { OnOk result (with_point limits.now self.old point ≡ Ok self.new) }
        ensures fault { IfErr result (IsFaultOf (with_point limits.now self.old point)) }
    {
        let seen = self.points.len() as u64 + 1;
        if seen > u64::from(limits.points()) {
            return Err(TextFault::Over {
                what: Counted::Points,
                seen,
            });
        }
        self.points.push(point)?;
        Ok(())
    }

    // Adds the triangles of a face of these vertices, where the limit allows it.
    fn add_face(&mut self, vertices: &[u32], limits: &Limits) -> Result<(), TextFault>
        requires three { 3 ≤ length vertices.now }
        requires below { All (λ v. v < length self.old.points) vertices.now }
        requires apart { has_repeat vertices.now ≡ false }
        ensures added { OnOk result (with_triples limits.now self.old (face_fan vertices.now) ≡ Ok self.new) }
        ensures fault { IfErr result (IsFaultOf (with_triples limits.now self.old (face_fan vertices.now))) }
    {
        let seen = self.triples.len() as u64 + (vertices.len() as u64 - 2);
        if seen > u64::from(limits.triangles()) {
            return Err(TextFault::Over {
                what: Counted::Triangles,
                seen,
            });
        }
        let before = self.triples.len();
        push_fan(&mut self.triples, vertices)?;
        self.groups.extend(before, self.triples.len())?;
        Ok(())
    }

    // Reads the next line where it is plain and has no fault, and tells whether it did.
    fn read_plain(
        &mut self,
        lines: &mut Lines<'_>,
        digits: u8,
        limits: &Limits,
    ) -> Result<bool, NoMemory>
        requires { digits ≤ 6 }
        ensures { IfOk result (ReadsLine digits limits.now (lines.old, self.old) (lines.new, self.new)) }
    {
        if self.read_plain_face(lines, limits)? {
            return Ok(true);
        }
        self.read_plain_point(lines, digits, limits)
    }

    // The same for the line of a face.
    fn read_plain_face(&mut self, lines: &mut Lines<'_>, limits: &Limits) -> Result<bool, NoMemory>
        ensures { IfOk result (λ more. (k : ℕ) → ReadsLine k limits.now (lines.old, self.old) (lines.new, self.new) more) }
    {
        let Some((a, b, c, after)) = lines.face() else {
            return Ok(false);
        };
        if !self.may_add(a, b, c, limits) {
            return Ok(false);
        }
        self.push_triangle(a, b, c)?;
        *lines = after;
        Ok(true)
    }

    // The same for the line of a point.
    fn read_plain_point(
        &mut self,
        lines: &mut Lines<'_>,
        digits: u8,
        limits: &Limits,
    ) -> Result<bool, NoMemory>
        requires { digits ≤ 6 }
        ensures { IfOk result (ReadsLine digits limits.now (lines.old, self.old) (lines.new, self.new)) }
    {
        if self.count() >= limits.points() {
            return Ok(false);
        }
        let Some((x, y, z, after)) = lines.point(digits) else {
            return Ok(false);
        };
        let Some(point) = Point::of(x, y, z) else {
            return Ok(false);
        };
        self.push_point(point)?;
        *lines = after;
        Ok(true)
    }

    // Says yes only where a triangle of these vertices may be added: they are three different ones of the
    // points so far, and one more triangle is allowed.
    fn may_add(&self, a: u64, b: u64, c: u64, limits: &Limits) -> bool
        ensures below { IsTrue result → IsBelow (length self.now.points) (a, b, c) }
        ensures apart { IsTrue result → HasThree (a, b, c) }
        ensures room { IsTrue result → length self.now.triples < limits.now.triangles }
        ensures few { IsTrue result → limits.now.triangles ≤ most_triangles }
    {
        let count = u64::from(self.count());
        let below = a < count && b < count && c < count;
        let apart = a != b && b != c && c != a;
        below && apart && (self.triples.len() as u64) < u64::from(limits.triangles())
    }

    // Adds a triangle.
    fn push_triangle(&mut self, a: u64, b: u64, c: u64) -> Result<(), NoMemory>
        requires below { IsBelow (length self.old.points) (a, b, c) }
        requires apart { HasThree (a, b, c) }
        requires room { length self.old.triples < most_triangles }
        ensures { OnOk result (self.new ≡ record {
          points = self.old.points;
          triples = self.old.triples ++ (a, b, c) ∷ [];
          labels = self.old.labels ++ self.old.label ∷ [];
          label = self.old.label;
        }) }
    {
        let before = self.triples.len();
        self.triples.push([a as u32, b as u32, c as u32])?;
        self.groups.extend(before, before + 1)?;
        Ok(())
    }

    // Adds a point.
    fn push_point(&mut self, point: Point) -> Result<(), AllocError>
        requires { length self.old.points < most_points }
        ensures { OnOk result (self.new ≡ record { points = self.old.points ++ point ∷ []; triples = self.old.triples; labels = self.old.labels; label = self.old.label }) }
    {
        self.points.push(point)?;
        Ok(())
    }
}

// The soup with these labels.
fn with_labels(soup: Soup, labels: Labels) -> Soup
    requires few { length labels ≤ length soup.triples }
    requires none { soup.labels ≡ no_labels soup.triples }
    ensures points { result.points ≡ soup.points }
    ensures triples { result.triples ≡ soup.triples }
    ensures labels { result.labels ≡ labels_for soup.triples labels }
    ensures unused { result.unused ≡ soup.unused }
{
    if labels.len() == 0 {
        return soup;
    }
    let unused = soup.unused();
    let (points, triples, _) = soup.into_parts();
    Soup::labelled(points, triples, labels, unused)
}

// Adds the triangles of a face of these vertices: the first with each two that follow one another. Where
// there is no memory nothing is added.
fn push_fan(triples: &mut Vec<[u32; 3]>, vertices: &[u32]) -> Result<(), AllocError>
    requires { 3 ≤ length vertices.now }
    ensures added { OnOk result (triples_of triples.new.items ≡ triples_of triples.old.items ++ face_fan vertices.now) }
    ensures same { OnErr result (triples.new.items ≡ triples.old.items) }
{
    let last = vertices.len() - 1;
    triples.reserve(last)?;
    for place in 1..last {
        let triple = [vertices[0], vertices[place], vertices[place + 1]];
        match triples.push(triple) {
            Ok(()) => {}
            Err(_) => unreachable!(),
        }
    }
    Ok(())
}

/// What the lines so far gave, and room for the vertices of a face.
#[derive(Drop)]
pub struct ObjReader {
    pub gathered: Gathered,
    vertices: Vec<u32>,
    sorted: Vec<u32>,
}

impl ObjReader {
    /// Reads the lines of a text until the first fault.
    pub fn of(
        alloc: Global,
        text: &[u8],
        digits: u8,
        limits: &Limits,
    ) -> Result<ObjReader, TextFault>
        requires { digits ≤ 6 }
        ensures read { IfOk result (λ r. obj_lines digits limits.now (word_lines (joined_lines text.now)) nothing_gathered ≡ Ok r.gathered) }
        ensures fault { IfErr result (IsFaultOf (obj_lines digits limits.now (word_lines (joined_lines text.now)) nothing_gathered)) }
    {
        let mut reading = ObjReader {
            gathered: Gathered::new(alloc),
            vertices: Vec::new(alloc),
            sorted: Vec::new(alloc),
        };
        let mut lines = Lines::of(text);
        while reading.read_next(&mut lines, digits, limits)? {}
        Ok(reading)
    }

    // Reads the next line, and tells whether there was one.
    fn read_next(
        &mut self,
        lines: &mut Lines<'_>,
        digits: u8,
        limits: &Limits,
    ) -> Result<bool, TextFault>
        requires { digits ≤ 6 }
        ensures read { IfOk result (λ _. obj_lines digits limits.now lines.old self.old.gathered ≡ obj_lines digits limits.now lines.new self.new.gathered) }
        ensures more { IfOk result (λ more. IsTrue more → length lines.new < length lines.old) }
        ensures end { IfOk result (λ more. IsFalse more → lines.new ≡ []) }
        ensures fault { IfErr result (IsFaultOf (obj_lines digits limits.now lines.old self.old.gathered)) }
    {
        if self.gathered.read_plain(lines, digits, limits)? {
            return Ok(true);
        }
        let Some((number, words)) = lines.next() else {
            return Ok(false);
        };
        self.read_line(words, number, digits, limits)?;
        Ok(true)
    }

    /// The points and triangles with their labels, without the points that no triangle uses.
    pub fn into_soup(self, alloc: Global) -> Result<Soup, TextFault>
        ensures soup { IfOk result (λ soup. soup ≡ soup_of self.gathered.points self.gathered.triples self.gathered.labels) }
        ensures fault { IfErr result (λ e. e ≡ TextFault.NoMemory) }
    {
        let ObjReader {
            gathered,
            vertices: _,
            sorted: _,
        } = self;
        gathered.into_soup(alloc)
    }

    // Reads the words of the line with this number.
    fn read_line(
        &mut self,
        mut words: ObjWords<'_>,
        number: u64,
        digits: u8,
        limits: &Limits,
    ) -> Result<(), TextFault>
        requires { digits ≤ 6 }
        ensures read { OnOk result (obj_line digits limits.now number words.entry self.old.gathered ≡ Ok self.new.gathered) }
        ensures fault { IfErr result (IsFaultOf (obj_line digits limits.now number words.entry self.old.gathered)) }
    {
        let Some(word) = words.next() else {
            return Ok(());
        };
        if word == b"v".as_slice() {
            self.read_point(words, number, digits, limits)
        } else if word == b"f".as_slice() {
            self.read_face(words, number, limits)
        } else if word == b"g".as_slice() {
            self.gathered.groups.set(words);
            Ok(())
        } else if is_passed_over(word) {
            Ok(())
        } else {
            Err(bad(number, TextKind::UnknownLine))
        }
    }

    // Reads the words after `v`.
    fn read_point(
        &mut self,
        words: ObjWords<'_>,
        number: u64,
        digits: u8,
        limits: &Limits,
    ) -> Result<(), TextFault>
        requires { digits ≤ 6 }
        ensures read { OnOk result (obj_point digits limits.now number self.old.gathered words.entry ≡ Ok self.new.gathered) }
        ensures fault { IfErr result (IsFaultOf (obj_point digits limits.now number self.old.gathered words.entry)) }
    {
        let point = point_of(words, number, digits)?;
        self.gathered.add_point(point, limits)
    }

    // Reads the words after `f`.
    fn read_face(
        &mut self,
        words: ObjWords<'_>,
        number: u64,
        limits: &Limits,
    ) -> Result<(), TextFault>
        ensures read { OnOk result (obj_face limits.now number self.old.gathered words.entry ≡ Ok self.new.gathered) }
        ensures fault { IfErr result (IsFaultOf (obj_face limits.now number self.old.gathered words.entry)) }
    {
        let count = self.gathered.count();
        read_vertices(words, number, count, &mut self.vertices)?;
        if has_repeat(&self.vertices, &mut self.sorted)? {
            return Err(bad(number, TextKind::FaceRepeatsVertex));
        }
        self.gathered.add_face(&self.vertices, limits)
    }
}

// Whether a line with this first word is passed over.
fn is_passed_over(word: &[u8]) -> bool
    ensures { result ≡ list_any (bytes_eq word.now) passed_over }
{
    let short = word == b"o".as_slice()
        || word == b"s".as_slice()
        || word == b"l".as_slice()
        || word == b"p".as_slice();
    short
        || word == b"vt".as_slice()
        || word == b"vn".as_slice()
        || word == b"usemtl".as_slice()
        || word == b"mtllib".as_slice()
}
