// The triangles of all source faces against the segments of these.
ghost use Rattle.std.specs.Prelude.{◌≡◌, ◌↔◌, ◌+◌, ◌<◌, ◌≤◌, IfOk, IfSome, IsSome, IsTrue, length};
ghost use Rattle.std.specs.List.{All};
ghost use Rattle.source_faces.specs.Groups.{earlier};
ghost use Rattle.mesh_terms.specs.Limits.{most_triangles};
ghost use Rattle.mesh_terms.specs.Meshes.{triples_of};
ghost use Rattle.retained_verts.specs.Handed.{copies};
ghost use Rattle.source_face_terms.specs.Segments.{source_count};
ghost use Rattle.mesh_boolean.specs.Bounded.{HaveBoundaries};
ghost use Rattle.mesh_boolean.specs.BoundedFaces.{HaveBoundariesFrom, HaveSegments, chosen};
ghost use Rattle.mesh_boolean.specs.GivenSegments.{AreGiven};

use crate::bounded::face::is_bounded;
use crate::bounded::given::given_have_segments;
use lean::Surface;
use mb_base::{Hits, NoMemory, Op, Point, Windings};
use places_by_key::Buckets;
use retained_verts::{Operand, Prescribed};
use source_faces::{CopyRange, Stand, group_end, runs_of, stands_of};
use std::alloc::Global;

/// Whether the triangles of each source face have the boundary of its segments. The vertices are those that the numbers of two
/// sides prescribe, and each triangle has its source face. `NoMemory` may come for any. It takes time and memory in
/// proportion to the faces and triangles, a sort of the crossings and one of the segments and triangles of each face whose
/// triangles are not just copies of it in their order.
pub fn are_bounded(
    alloc: Global,
    op: Op,
    p: &Surface,
    q: &Surface,
    windings: &Windings,
    hits: &Hits,
    prescribed: &Prescribed,
    source: &[u32],
    triples: &[[u32; 3]],
) -> Result<bool, NoMemory>
    requires given { AreGiven op p.now q.now windings.now hits.now prescribed.now }
    requires faces { All (λ x. x < source_count p.now q.now) source.now }
    requires each { length source.now ≡ length triples.now }
    requires few { length triples.now ≤ most_triangles }
    ensures { IfOk result (λ yes. IsTrue yes ↔
        HaveBoundaries p.now q.now (copies op p.now q.now windings.now hits.now) source.now (triples_of triples.now)) }
{
    given_have_segments(op, p, q, windings, hits, prescribed);
    let [p_kept, q_kept] = prescribed.kept;
    let p_runs = runs_of(alloc, op, Operand::P, &windings.w03, 0)?;
    let q_runs = runs_of(alloc, op, Operand::Q, &windings.w30, p_kept as u32)?;
    let stands = stands_of(alloc, op, p, q, hits, (p_kept + q_kept) as u32)?;
    let places = Buckets::by_key(alloc, source, p.triples().len() + q.triples().len())?;
    both_are_bounded(
        alloc,
        p,
        q,
        &p_runs,
        &q_runs,
        &stands,
        &prescribed.points,
        triples,
        &places,
    )
}

// The same, from the runs of vertices and all records, where the places of each source face's triangles are known.
fn both_are_bounded(
    alloc: Global,
    p: &Surface,
    q: &Surface,
    p_runs: &[CopyRange],
    q_runs: &[CopyRange],
    stands: &[Stand],
    points: &[Point],
    triples: &[[u32; 3]],
    places: &Buckets,
) -> Result<bool, NoMemory>
    requires p_faces { HaveSegments p.now p_runs.now points.now 0 stands.now }
    requires q_faces { HaveSegments q.now q_runs.now points.now (length p.now.triples) stands.now }
    requires full { length p.now.triples + length q.now.triples ≤ length places.now }
    requires within { All (All (λ t. t < length triples.now)) places.now }
    ensures { IfOk result (λ yes. IsTrue yes ↔
        (HaveBoundariesFrom p.now p_runs.now points.now 0 stands.now (triples_of triples.now) places.now (length p.now.triples)
        × HaveBoundariesFrom q.now q_runs.now points.now (length p.now.triples) stands.now (triples_of triples.now) places.now (length q.now.triples))) }
{
    let first = p.triples().len() as u32;
    let begin = end_of_bounded(alloc, p, p_runs, 0, stands, 0, points, triples, places)?;
    let Some(begin) = begin else {
        return Ok(false);
    };
    let end = end_of_bounded(
        alloc, q, q_runs, first, stands, begin, points, triples, places,
    )?;
    Ok(end.is_some())
}

// Where the records of a side's last face end, if the triangles of each of its faces have the boundary of its segments. The
// first face is the source face with this number and has its records from this place on.
fn end_of_bounded(
    alloc: Global,
    side: &Surface,
    runs: &[CopyRange],
    first: u32,
    stands: &[Stand],
    begin: usize,
    points: &[Point],
    triples: &[[u32; 3]],
    places: &Buckets,
) -> Result<Option<usize>, NoMemory>
    requires first { first ≤ most_triangles }
    requires faces { HaveSegments side.now runs.now points.now first stands.now }
    requires begin { begin ≡ earlier stands.now first }
    requires full { first + length side.now.triples ≤ length places.now }
    requires within { All (All (λ t. t < length triples.now)) places.now }
    ensures bounded { IfOk result (λ end. IsSome end ↔
        HaveBoundariesFrom side.now runs.now points.now first stands.now (triples_of triples.now) places.now (length side.now.triples)) }
    ensures follow { IfOk result (λ end. IfSome end (λ place. place ≡ earlier stands.now (first + length side.now.triples))) }
{
    let mut begin = begin;
    for face in 0..side.triples().len() as u32 {
        let source = first + face;
        let end = group_end(stands, begin, source);
        let records = &stands[begin..end];
        let part = chosen(alloc, triples, places.bucket(source as usize))?;
        if !is_bounded(alloc, side, runs, face, records, points, &part)? {
            return Ok(None);
        }
        begin = end;
    }
    Ok(Some(begin))
}

// The triangles at these places.
fn chosen(alloc: Global, triples: &[[u32; 3]], places: &[u32]) -> Result<Vec<[u32; 3]>, NoMemory>
    requires { All (λ t. t < length triples.now) places.now }
    ensures { IfOk result (λ part. triples_of part.items ≡ chosen (triples_of triples.now) places.now) }
{
    let mut part = Vec::new(alloc);
    for place in places {
        part.push(triples[*place as usize])?;
    }
    Ok(part)
}
