// The triangles of one source face.
ghost use Rattle.std.specs.Prelude.{◌≡◌, ◌<◌, ◌≤◌, IfOk, OnOk, length};
ghost use Rattle.source_faces.specs.ListParts.{AreRuns};
ghost use Rattle.source_faces.specs.Adding.{IsAdded, filled_by};
ghost use Rattle.source_faces.specs.Parts.{CanBePart, HaveCopies};

use crate::plain::{are_equal, push_copies};
use crate::triangles::SourceTriangles;
use crate::{CopyRange, Stand, plane_of, segments_of_face};
use face_loops::loops;
use lean::Surface;
use mb_base::{NoMemory, Point};
use ring_cutting::Filled;
use std::alloc::Global;
use triangulate::fill;

/// Adds the triangles of a face with these records. Where it has none, and its three vertices are prescribed one number of
/// times, they are copies of the face.
pub fn push_face(
    alloc: Global,
    all: &mut SourceTriangles,
    side: &Surface,
    runs: &[CopyRange],
    face: u32,
    source: u32,
    stands: &[Stand],
    points: &[Point],
) -> Result<(), NoMemory>
    requires face { face < length side.now.triples }
    requires copies { HaveCopies side.now runs.now points.now }
    requires part { CanBePart side.now runs.now points.now face stands.now }
    requires few { all.old.forced ≤ length all.old.triples.items }
    ensures added { OnOk result (IsAdded source (filled_by side.now runs.now points.now face stands.now) all.old all.new) }
    ensures few { OnOk result (all.new.forced ≤ length all.new.triples.items) }
{
    if stands.is_empty() && are_equal(runs, side.triples()[face as usize]) {
        return push_copies(all, side, runs, face, source);
    }
    let filled = filled_face(alloc, side, runs, face, stands, points)?;
    all.push_filled(&filled, source)
}

// The filling of the loops of a face.
fn filled_face(
    alloc: Global,
    side: &Surface,
    runs: &[CopyRange],
    face: u32,
    stands: &[Stand],
    points: &[Point],
) -> Result<Filled, NoMemory>
    requires face { face < length side.now.triples }
    requires runs { AreRuns side.now (length points.now) runs.now }
    requires part { CanBePart side.now runs.now points.now face stands.now }
    ensures value { IfOk result (λ filled. filled ≡ filled_by side.now runs.now points.now face stands.now) }
    ensures most { IfOk result (λ filled. filled.forced ≤ length filled.triples) }
    ensures few { IfOk result (λ filled. length filled.triples ≤ 100000000) }
{
    let segments = segments_of_face(alloc, side, runs, face, stands, points)?;
    let loops = loops(alloc, &segments)?;
    fill(alloc, plane_of(side, face), &loops, points)
}
