// Where the segment from a vertex stands: by looking at each of a few, by halving a sorted list of many.
//
// `loops` looks at each of up to twelve segments; above that it halves a sorted list of vertices. A loop of one
// vertex is given as such: whether loops have three vertices is the caller's matter.
ghost use Rattle.std.specs.Prelude.{◌≡◌, ◌==◌, IfOk, position};
ghost use Rattle.face_loops.specs.Segments.{edges_of};
ghost use Rattle.face_loops.specs.Starts.{IsIndex, IsListed, IsStartOf, RiseByStart, starts_of};

use mb_base::{NoMemory, Segment};
use std::alloc::Global;

/// Up to so many segments it is faster to look at each.
const FEW: usize = 12;

/// Each segment's start and place, sorted; nothing for a few segments.
pub fn index_of(alloc: Global, segments: &[Segment]) -> Result<Vec<(u32, usize)>, NoMemory>
    ensures { IfOk result (λ index. IsIndex (edges_of segments.now) index.items) }
{
    if segments.len() <= FEW {
        return Ok(Vec::new(alloc));
    }
    let mut index = starts(alloc, segments)?;
    index.sort_unstable();
    Ok(index)
}

// Each segment's start and place, in order.
fn starts(alloc: Global, segments: &[Segment]) -> Result<Vec<(u32, usize)>, NoMemory>
    ensures { IfOk result (λ starts. starts.items ≡ starts_of (edges_of segments.now)) }
{
    let mut starts = Vec::with_capacity(alloc, segments.len())?;
    for (place, segment) in segments.iter().enumerate() {
        starts.push((segment.from, place))?;
    }
    Ok(starts)
}

/// The place of the segment that starts at the vertex.
pub fn place_from(segments: &[Segment], index: &[(u32, usize)], vertex: u32) -> Option<usize>
    requires { IsIndex (edges_of segments.now) index.now }
    ensures { IsStartOf (edges_of segments.now) vertex result }
{
    if segments.len() <= FEW {
        return looked_up(segments, vertex);
    }
    halved(index, vertex)
}

// The first place at which a segment from the vertex stands.
fn looked_up(segments: &[Segment], vertex: u32) -> Option<usize>
    ensures { result ≡ position (λ s. s.from == vertex) segments.now }
{
    segments.iter().position(|segment| segment.from == vertex)
}

// The place behind the vertex in the sorted list.
fn halved(index: &[(u32, usize)], vertex: u32) -> Option<usize>
    requires { RiseByStart index.now }
    ensures { IsListed index.now vertex result }
{
    let at = index.partition_point(|entry| entry.0 < vertex);
    if at < index.len() && index[at].0 == vertex {
        Some(index[at].1)
    } else {
        None
    }
}
