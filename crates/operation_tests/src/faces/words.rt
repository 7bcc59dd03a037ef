// The segments and the loops of all source faces, as the table writes them.
ghost use Rattle.std.specs.Prelude.{◌≡◌, ◌+◌, ◌<◌, ◌≤◌, IfOk, length};
ghost use Rattle.source_faces.specs.Groups.{earlier};
ghost use Rattle.source_faces.specs.ListParts.{AreRuns};
ghost use Rattle.source_faces.specs.Given.{AreGiven};
ghost use Rattle.source_faces.specs.Parts.{CanBePart, HaveParts};

use face_loops::loops;
use lean::Surface;
use mb_base::{Hits, Op, Point, Windings};
use retained_verts::{Operand, Prescribed};
use source_faces::given::given_have_parts;
use source_faces::{CopyRange, Stand, group_end, runs_of, segments_of_face, stands_of};
use std::alloc::Global;
use test_tables::{NoRow, push_digit};

/// Adds a word for each face, those of the first side before those of the second.
pub fn push_faces(
    alloc: Global,
    text: &mut String,
    op: Op,
    p: &Surface,
    q: &Surface,
    windings: &Windings,
    hits: &Hits,
    prescribed: &Prescribed,
) -> Result<(), NoRow>
    requires { AreGiven op p.now q.now windings.now hits.now prescribed.now }
{
    given_have_parts(op, p, q, windings, hits, prescribed);
    let [p_kept, q_kept] = prescribed.kept;
    let p_runs = runs_of(alloc, op, Operand::P, &windings.w03, 0)?;
    let q_runs = runs_of(alloc, op, Operand::Q, &windings.w30, p_kept as u32)?;
    let stands = stands_of(alloc, op, p, q, hits, (p_kept + q_kept) as u32)?;
    push_both(
        alloc,
        text,
        p,
        q,
        &p_runs,
        &q_runs,
        &stands,
        &prescribed.points,
    )
}

// Adds those of both sides, from the runs of their vertices and all records.
fn push_both(
    alloc: Global,
    text: &mut String,
    p: &Surface,
    q: &Surface,
    p_runs: &[CopyRange],
    q_runs: &[CopyRange],
    stands: &[Stand],
    points: &[Point],
) -> Result<(), NoRow>
    requires p_parts { HaveParts p.now p_runs.now points.now 0 stands.now }
    requires q_parts { HaveParts q.now q_runs.now points.now (length p.now.triples) stands.now }
{
    let first = p.triples().len() as u32;
    let begin = push_side(alloc, text, p, p_runs, 0, stands, 0, points)?;
    push_side(alloc, text, q, q_runs, first, stands, begin, points)?;
    Ok(())
}

// Adds those of a side, of which the first face is the source face with this number and has its records from this place on,
// and tells where the records of the last one end.
fn push_side(
    alloc: Global,
    text: &mut String,
    side: &Surface,
    runs: &[CopyRange],
    first: u32,
    stands: &[Stand],
    begin: usize,
    points: &[Point],
) -> Result<usize, NoRow>
    requires first { first ≤ 100000000 }
    requires parts { HaveParts side.now runs.now points.now first stands.now }
    requires begin { begin ≡ earlier stands.now first }
    ensures { IfOk result (λ place. place ≡ earlier stands.now (first + length side.now.triples)) }
{
    let mut begin = begin;
    for face in 0..side.triples().len() as u32 {
        let end = group_end(stands, begin, first + face);
        let records = &stands[begin..end];
        push_face(alloc, text, side, runs, face, records, points)?;
        begin = end;
    }
    Ok(begin)
}

// Adds the word of one face: the ends of each segment, then the vertices of each loop after a stroke.
fn push_face(
    alloc: Global,
    text: &mut String,
    side: &Surface,
    runs: &[CopyRange],
    face: u32,
    stands: &[Stand],
    points: &[Point],
) -> Result<(), NoRow>
    requires face { face < length side.now.triples }
    requires runs { AreRuns side.now (length points.now) runs.now }
    requires part { CanBePart side.now runs.now points.now face stands.now }
{
    let segments = segments_of_face(alloc, side, runs, face, stands, points)?;
    text.push_str(if segments.is_empty() { " ." } else { " " })?;
    for segment in &segments {
        push_digit(text, segment.from)?;
        push_digit(text, segment.to)?;
    }
    for found in &loops(alloc, &segments)? {
        text.push('/')?;
        push_digits(text, found.vertices())?;
    }
    Ok(())
}

fn push_digits(text: &mut String, numbers: &[u32]) -> Result<(), NoRow> {
    for number in numbers {
        push_digit(text, *number)?;
    }
    Ok(())
}
