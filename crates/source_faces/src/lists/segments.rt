// The segments of one source face.
ghost use Rattle.std.specs.Prelude.{◌≡◌, ◌+◌, ◌*◌, ◌<◌, ◌^◌, ◌++◌, IfOk, OnOk, length, map};
ghost use Rattle.std.specs.List.{All};
ghost use Rattle.chain_terms.specs.Chains.{all_edges};
ghost use Rattle.mesh_terms.specs.Limits.{most_points};
ghost use Rattle.edge_pairing.specs.Entries.{edge_of};
ghost use Rattle.source_faces.specs.Entries.{entry_of};
ghost use Rattle.source_faces.specs.ListParts.{AreRuns, CanBePaired, CanBeSegments, front, groups, rest};
ghost use Rattle.source_faces.specs.ListParts.{half_entries, half_segments, pair_segments, pairs_segments, segments_by};

use crate::lists::entries::{list_end, push_run, push_stands};
use crate::lists::places::edge_ends;
use crate::lists::runs::CopyRange;
use crate::lists::stands::Stand;
use edge_pairing::{segments_of_edge, segments_of_pair};
use lean::Surface;
use mb_base::{Entry, NoMemory, Point, Segment};
use std::alloc::Global;

/// The segments of a face of a side. Its half-edges come first; the faces of the other side that it crosses follow by their
/// numbers. The runs are those of the side's vertices, and the records those of this face; the points are where the copies
/// lie. `NoMemory` may come for any. The cost is that of sorting the face's copies.
pub fn segments_of_face(
    alloc: Global,
    side: &Surface,
    runs: &[CopyRange],
    face: u32,
    stands: &[Stand],
    points: &[Point],
) -> Result<Vec<Segment>, NoMemory>
    requires face { face < length side.now.triples }
    requires runs { AreRuns side.now (length points.now) runs.now }
    requires paired { CanBeSegments side.now runs.now points.now face stands.now }
    ensures { IfOk result (λ segments. map edge_of segments.items ≡ segments_by side.now runs.now points.now face stands.now) }
{
    let mut segments = Vec::new(alloc);
    let half = first_half(side, face);
    let first = list_end(stands, 0, 0);
    let part = &stands[..first];
    push_half(alloc, &mut segments, side, runs, half, part, points)?;
    let second = list_end(stands, first, 1);
    let part = &stands[first..second];
    push_half(alloc, &mut segments, side, runs, half + 1, part, points)?;
    let third = list_end(stands, second, 2);
    let part = &stands[second..third];
    push_half(alloc, &mut segments, side, runs, half + 2, part, points)?;
    push_pairs(alloc, &mut segments, &stands[third..], points)?;
    Ok(segments)
}

// The first half-edge of a face.
fn first_half(side: &Surface, face: u32) -> u32
    requires { face < length side.now.triples }
    ensures value { result ≡ 3 * face }
    ensures below { result + 2 < 3 * length side.now.triples }
    ensures fits { result + 2 < 2 ^ 32 }
{
    // Read so that what a side keeps is known here: so few triangles that the product fits.
    let _ = side.triples();
    3 * face
}

// Adds the segments of a half-edge with these records.
fn push_half(
    alloc: Global,
    segments: &mut Vec<Segment>,
    side: &Surface,
    runs: &[CopyRange],
    half: u32,
    stands: &[Stand],
    points: &[Point],
) -> Result<(), NoMemory>
    requires half { half < 3 * length side.now.triples }
    requires runs { AreRuns side.now (length points.now) runs.now }
    requires paired { CanBePaired points.now (half_entries side.now runs.now half stands.now) }
    ensures { OnOk result (map edge_of segments.new.items ≡ map edge_of segments.old.items ++
        half_segments side.now runs.now points.now half stands.now) }
{
    let entries = half_entries(alloc, side, runs, half, stands)?;
    let (a, b) = edge_ends(side, half);
    let more = segments_of_edge(alloc, a, b, &entries, points)?;
    Ok(segments.extend_from_slice(&more)?)
}

// The entries of a half-edge's list, by their numbers.
fn half_entries(
    alloc: Global,
    side: &Surface,
    runs: &[CopyRange],
    half: u32,
    stands: &[Stand],
) -> Result<Vec<Entry>, NoMemory>
    requires half { half < 3 * length side.now.triples }
    requires runs { AreRuns side.now most_points runs.now }
    ensures { IfOk result (λ entries. entries.items ≡ half_entries side.now runs.now half stands.now) }
{
    let a = side.start(half);
    let b = side.start(side.twins().next(half));
    let mut entries = Vec::new(alloc);
    if a < b {
        push_run(&mut entries, runs[a as usize], true)?;
        push_run(&mut entries, runs[b as usize], false)?;
    } else {
        push_run(&mut entries, runs[b as usize], false)?;
        push_run(&mut entries, runs[a as usize], true)?;
    }
    push_stands(&mut entries, stands)?;
    Ok(entries)
}

// Adds the segments of the pairs whose records these are.
fn push_pairs(
    alloc: Global,
    segments: &mut Vec<Segment>,
    stands: &[Stand],
    points: &[Point],
) -> Result<(), NoMemory>
    requires { All (λ g. CanBePaired points.now (map entry_of g)) (groups stands.now) }
    ensures { OnOk result (map edge_of segments.new.items ≡ map edge_of segments.old.items ++ pairs_segments points.now stands.now) }
{
    let mut begin = 0;
    while begin < stands.len() {
        let end = list_end(stands, begin, stands[begin].list);
        push_pair(alloc, segments, &stands[begin..end], points)?;
        begin = end;
    }
    Ok(())
}

// Adds the segments of one pair.
fn push_pair(
    alloc: Global,
    segments: &mut Vec<Segment>,
    stands: &[Stand],
    points: &[Point],
) -> Result<(), NoMemory>
    requires { CanBePaired points.now (map entry_of stands.now) }
    ensures { OnOk result (map edge_of segments.new.items ≡ map edge_of segments.old.items ++ pair_segments points.now stands.now) }
{
    let mut entries = Vec::with_capacity(alloc, stands.len())?;
    push_stands(&mut entries, stands)?;
    let more = segments_of_pair(alloc, &entries, points)?;
    Ok(segments.extend_from_slice(&more)?)
}
