// The way from a segment back to it.
ghost use Rattle.std.specs.Prelude.{◌≡◌, ◌<◌, false, IfOk, length, get_or};
ghost use Rattle.face_loops.specs.Segments.{edges_of, IsOneToOne};
ghost use Rattle.face_loops.specs.Starts.{IsIndex};
ghost use Rattle.face_loops.specs.Trails.{IsNext, IsLoopFrom};

use crate::starts::place_from;
use crate::vertex_loop::Loop;
use mb_base::{NoMemory, Segment};
use std::alloc::Global;

/// The loop that begins with the segment at a place, which gets its mark first, and goes on with segments that have none;
/// each of them gets one.
pub fn loop_from(
    alloc: Global,
    segments: &[Segment],
    index: &[(u32, usize)],
    used: &mut [bool],
    first: usize,
) -> Result<Loop, NoMemory>
    requires one_to_one { IsOneToOne (edges_of segments.now) }
    requires index { IsIndex (edges_of segments.now) index.now }
    requires full { length used.old ≡ length segments.now }
    requires within { first < length segments.now }
    ensures { IfOk result (λ vertices. IsLoopFrom (edges_of segments.now) first used.old used.new vertices) }
{
    let mut vertices = Vec::new(alloc);
    vertices.push(segments[first].from)?;
    used[first] = true;
    let mut end = segments[first].to;
    while let Some(next) = next_from(segments, index, used, end) {
        vertices.push(end)?;
        used[next] = true;
        end = segments[next].to;
    }
    Ok(Loop::of(vertices))
}

// The place of the segment without a mark that starts at the vertex.
fn next_from(
    segments: &[Segment],
    index: &[(u32, usize)],
    used: &[bool],
    vertex: u32,
) -> Option<usize>
    requires one_to_one { IsOneToOne (edges_of segments.now) }
    requires index { IsIndex (edges_of segments.now) index.now }
    requires full { length used.now ≡ length segments.now }
    ensures { IsNext (edges_of segments.now) used.now vertex result }
{
    match place_from(segments, index, vertex) {
        Some(place) if !used[place] => Some(place),
        _ => None,
    }
}
