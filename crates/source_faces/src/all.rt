// The triangles of all source faces.
ghost use Rattle.std.specs.Prelude.{◌≡◌, ◌+◌, ◌≤◌, IfOk, OnOk, length};
ghost use Rattle.mesh_terms.specs.Meshes.{triples_of};
ghost use Rattle.retained_verts.specs.Handed.{copies};
ghost use Rattle.source_face_terms.specs.Filled.{all_filled, all_triples, forced_of, sources_of};
ghost use Rattle.source_faces.specs.Groups.{earlier};
ghost use Rattle.source_faces.specs.Given.{AreGiven};
ghost use Rattle.source_faces.specs.Parts.{AreAdded, AreAll, HaveParts, both_parts, parts_of};

use crate::face::push_face;
use crate::given::given_have_parts;
use crate::triangles::SourceTriangles;
use crate::{CopyRange, Stand, group_end, runs_of, stands_of};
use lean::Surface;
use mb_base::{Hits, NoMemory, Op, Point, Windings};
use retained_verts::{Operand, Prescribed};
use std::alloc::Global;

/// The triangles of all source faces, those of the first side's faces and then those of the second's, from the numbers and
/// from the vertices that these prescribe, as `prescribe` gave them for the same numbers. `NoMemory` may come for any. Without
/// the fillings it takes time in proportion to the faces, and to the crossings that of a sort.
pub fn triangles_of(
    alloc: Global,
    op: Op,
    p: &Surface,
    q: &Surface,
    windings: &Windings,
    hits: &Hits,
    prescribed: &Prescribed,
) -> Result<SourceTriangles, NoMemory>
    requires { AreGiven op p.now q.now windings.now hits.now prescribed.now }
    ensures triples { IfOk result (λ r. triples_of r.triples.items ≡
        all_triples (all_filled p.now q.now (copies op p.now q.now windings.now hits.now))) }
    ensures source { IfOk result (λ r. r.source.items ≡ sources_of 0 (all_filled p.now q.now (copies op p.now q.now windings.now hits.now))) }
    ensures forced { IfOk result (λ r. r.forced ≡ forced_of (all_filled p.now q.now (copies op p.now q.now windings.now hits.now))) }
{
    given_have_parts(op, p, q, windings, hits, prescribed);
    let [p_kept, q_kept] = prescribed.kept;
    let p_runs = runs_of(alloc, op, Operand::P, &windings.w03, 0)?;
    let q_runs = runs_of(alloc, op, Operand::Q, &windings.w30, p_kept as u32)?;
    let stands = stands_of(alloc, op, p, q, hits, (p_kept + q_kept) as u32)?;
    // Room for a triangle to two half-edges: as a rule there are fewer.
    let room = prescribed.halfedges as usize / 2;
    filled_of(
        alloc,
        room,
        p,
        q,
        &p_runs,
        &q_runs,
        &stands,
        &prescribed.points,
    )
}

// The triangles of both sides' faces, from the runs of their vertices and all records. Room for so many is taken at the start.
fn filled_of(
    alloc: Global,
    room: usize,
    p: &Surface,
    q: &Surface,
    p_runs: &[CopyRange],
    q_runs: &[CopyRange],
    stands: &[Stand],
    points: &[Point],
) -> Result<SourceTriangles, NoMemory>
    requires p_parts { HaveParts p.now p_runs.now points.now 0 stands.now }
    requires q_parts { HaveParts q.now q_runs.now points.now (length p.now.triples) stands.now }
    ensures { IfOk result (AreAll (both_parts p.now q.now p_runs.now q_runs.now points.now stands.now)) }
{
    let first = p.triples().len() as u32;
    let mut all = SourceTriangles::with_capacity(alloc, room)?;
    let begin = push_faces(alloc, &mut all, p, p_runs, 0, stands, 0, points)?;
    push_faces(alloc, &mut all, q, q_runs, first, stands, begin, points)?;
    Ok(all)
}

// Adds the triangles of a side's faces, of which the first one is the source face with this number and has its records from
// this place on, and tells where the records of the last one end.
fn push_faces(
    alloc: Global,
    all: &mut SourceTriangles,
    side: &Surface,
    runs: &[CopyRange],
    first: u32,
    stands: &[Stand],
    begin: usize,
    points: &[Point],
) -> Result<usize, NoMemory>
    requires first { first ≤ 100000000 }
    requires parts { HaveParts side.now runs.now points.now first stands.now }
    requires begin { begin ≡ earlier stands.now first }
    requires few { all.old.forced ≤ length all.old.triples.items }
    ensures added { OnOk result (AreAdded first (parts_of side.now runs.now points.now first stands.now (length side.now.triples)) all.old all.new) }
    ensures follow { IfOk result (λ place. place ≡ earlier stands.now (first + length side.now.triples)) }
    ensures few { OnOk result (all.new.forced ≤ length all.new.triples.items) }
{
    let mut begin = begin;
    for face in 0..side.triples().len() as u32 {
        let source = first + face;
        let end = group_end(stands, begin, source);
        let records = &stands[begin..end];
        push_face(alloc, all, side, runs, face, source, records, points)?;
        begin = end;
    }
    Ok(begin)
}
