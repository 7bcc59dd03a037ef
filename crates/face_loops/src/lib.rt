//! The loops that the segments of a face form: from each segment to the one that starts where it ends,
//! until the first one is reached again.
#![tactic(auto)]

ghost use Rattle.std.specs.Prelude.{◌≡◌, ◌<◌, ℕ, false, replicate, IfOk, length};
ghost use Rattle.std.specs.List.{All, concat, flat_map};
ghost use Rattle.chain_terms.specs.Chains.{dir};
ghost use Rattle.chain_terms.specs.Cycles.{cycles};
ghost use Rattle.chain_terms.specs.Paths.{round_edges};
ghost use Rattle.face_loops.specs.Segments.{edges_of, IsOneToOne, AreDifferent, BeginInOrder};
ghost use Rattle.face_loops.specs.Starts.{IsIndex};
ghost use Rattle.face_loops.specs.StandingLaws.{LoopsAreLong, SegmentsAreOneToOne};

mod starts;
mod trail;
mod vertex_loop;

use mb_base::{NoMemory, Segment};
use starts::index_of;
use std::alloc::Global;
use trail::loop_from;
pub use vertex_loop::Loop;

/// The loops of the segments, of which each vertex that occurs starts one and ends one. Each segment is
/// in one loop. A loop begins with the first segment that no loop before it has, and goes on with the
/// segment that starts where the last one ended.
///
/// It takes memory for the loops, a mark for each segment and, for more than a dozen segments, a sorted
/// list of their starts, whose sort sets the time. `NoMemory` may come for any segments.
pub fn loops(alloc: Global, segments: &[Segment]) -> Result<Vec<Loop>, NoMemory>
    requires { IsOneToOne (edges_of segments.now) }
    ensures value { IfOk result (λ loops. loops.items ≡ cycles (edges_of segments.now)) }
    ensures edges { IfOk result (λ loops. (a b : ℕ) → dir (flat_map round_edges loops.items) a b ≡ dir (edges_of segments.now) a b) }
    ensures different { IfOk result (λ loops. AreDifferent (concat loops.items)) }
    ensures order { IfOk result (λ loops. BeginInOrder (edges_of segments.now) loops.items) }
    ensures not_empty { IfOk result (λ loops. All (λ vertices. 0 < length vertices) loops.items) }
{
    let index = index_of(alloc, segments)?;
    let mut used = vec![in alloc; false; segments.len()]?;
    all_loops(alloc, segments, &index, &mut used)
}

// The loops of all segments, of which none has a mark yet.
fn all_loops(
    alloc: Global,
    segments: &[Segment],
    index: &[(u32, usize)],
    used: &mut [bool],
) -> Result<Vec<Loop>, NoMemory>
    requires one_to_one { IsOneToOne (edges_of segments.now) }
    requires index { IsIndex (edges_of segments.now) index.now }
    requires unused { used.old ≡ replicate (length segments.now) false }
    ensures value { IfOk result (λ loops. loops.items ≡ cycles (edges_of segments.now)) }
    ensures order { IfOk result (λ loops. BeginInOrder (edges_of segments.now) loops.items) }
{
    let mut loops = Vec::new(alloc);
    for first in 0..segments.len() {
        if !used[first] {
            loops.push(loop_from(alloc, segments, index, used, first)?)?;
        }
    }
    Ok(loops)
}

/// Where each list has as many starts as ends, and each number is a start of as many lists as it is an end of, one at most, the
/// segments fall into loops. Where no two numbers stand in two lists the one as the other does not, no loop has fewer than three
/// vertices.
pub fn segments_form_loops()
    ensures once { SegmentsAreOneToOne }
    ensures long { LoopsAreLong }
{}
