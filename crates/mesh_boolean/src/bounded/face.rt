// The triangles of one source face against its segments.
ghost use Rattle.std.specs.Prelude.{◌≡◌, ◌↔◌, ◌<◌, IfOk, IsTrue, length, map};
ghost use Rattle.mesh_boolean.specs.Boundaries.{HaveOneBoundary};
ghost use Rattle.chain_terms.specs.Chains.{all_edges};
ghost use Rattle.edge_pairing.specs.Entries.{edge_of};
ghost use Rattle.source_faces.specs.ListParts.{CanBeSegments, segments_by};
ghost use Rattle.mesh_terms.specs.Meshes.{triples_of};
ghost use Rattle.source_faces.specs.Parts.{HaveCopies};

use crate::boundary::have_one_boundary;
use crate::bounded::plain::are_copies;
use lean::Surface;
use mb_base::{NoMemory, Point, Segment};
use source_faces::{CopyRange, Stand, segments_of_face};
use std::alloc::Global;

/// Whether triangles have the boundary of the segments of a face with these records. Where it has none, and they are just
/// the copies of the face, no segment is looked at.
pub fn is_bounded(
    alloc: Global,
    side: &Surface,
    runs: &[CopyRange],
    face: u32,
    stands: &[Stand],
    points: &[Point],
    part: &[[u32; 3]],
) -> Result<bool, NoMemory>
    requires face { face < length side.now.triples }
    requires copies { HaveCopies side.now runs.now points.now }
    requires paired { CanBeSegments side.now runs.now points.now face stands.now }
    ensures { IfOk result (λ yes. IsTrue yes ↔
        HaveOneBoundary (all_edges (triples_of part.now)) (segments_by side.now runs.now points.now face stands.now)) }
{
    // Read so that what a side keeps is known here.
    let _ = side.triples();
    if stands.is_empty() && are_copies(side, runs, face, part) {
        return Ok(true);
    }
    let segments = segments_of_face(alloc, side, runs, face, stands, points)?;
    let edges = edges_of(alloc, part)?;
    have_one_boundary(alloc, &edges, &segments)
}

// The edges of triangles.
fn edges_of(alloc: Global, part: &[[u32; 3]]) -> Result<Vec<Segment>, NoMemory>
    ensures { IfOk result (λ edges. map edge_of edges.items ≡ all_edges (triples_of part.now)) }
{
    let mut edges = Vec::new(alloc);
    for [a, b, c] in part {
        edges.push(Segment { from: *a, to: *b })?;
        edges.push(Segment { from: *b, to: *c })?;
        edges.push(Segment { from: *c, to: *a })?;
    }
    Ok(edges)
}
