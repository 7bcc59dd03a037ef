// Starts and ends in their order, and the segments from the ones to the others.
//
// The pairing does not ask that the vertices of the entries differ: the definition and the proof need only as many
// starts as ends and a point for each entry. One start and one end are paired without a sort and without memory.
ghost use Rattle.std.specs.Prelude.{◌≡◌, ◌<◌, Bool, IfOk, IsOk, length, map};
ghost use Rattle.std.specs.List.{All, zip};
ghost use Rattle.std.specs.List.Sorted.{IsPermutation};
ghost use Rattle.edge_pairing.specs.Directions.{IsShort};
ghost use Rattle.edge_pairing.specs.Entries.{edge_of, starts_of, ends_of, chosen, place_in};
ghost use Rattle.edge_pairing.specs.Keys.{key_along, sorted_along};
ghost use Rattle.edge_pairing.specs.Pairing.{pair_up};

use crate::direction::key;
use mb_base::{Entry, NoMemory, Point, Segment};
use smallvec::SmallVec;
use std::alloc::Global;

/// A vertex with how far along it lies. Such values compare by how far, and then by vertex.
#[derive(Clone, Copy, Debug, PartialEq, Eq, PartialOrd, Ord, Drop)]
pub struct Keyed {
    pub key: i64,
    pub vertex: u32,
}

/// The segments from each start to the end at its place, both ordered by how far along a direction they lie. One start and
/// one end take no memory.
pub fn in_turn(
    alloc: Global,
    along: &[i64; 3],
    entries: &[Entry],
    points: &[Point],
) -> Result<SmallVec<Segment, 4>, NoMemory>
    requires short { IsShort along.now }
    requires below { All (λ e. e.vertex < length points.now) entries.now }
    requires balanced { length (starts_of entries.now) ≡ length (ends_of entries.now) }
    ensures value { IfOk result (λ s. map edge_of s.items ≡ pair_up (key_along along.now (place_in points.now)) (starts_of entries.now) (ends_of entries.now)) }
    ensures starts { IfOk result (λ s. IsPermutation (starts_of entries.now) (map (λ x. x.from) s.items)) }
    ensures ends { IfOk result (λ s. IsPermutation (ends_of entries.now) (map (λ x. x.to) s.items)) }
    ensures two { length entries.now ≡ 2 → IsOk result }
{
    if entries.len() == 2 {
        return Ok(only_segment(alloc, entries));
    }
    let starts = in_order(alloc, along, entries, points, true)?;
    let ends = in_order(alloc, along, entries, points, false)?;
    joined(alloc, &starts, &ends)
}

// The segment from the only start to the only end. It takes no memory.
fn only_segment(alloc: Global, entries: &[Entry]) -> SmallVec<Segment, 4>
    requires two { length entries.now ≡ 2 }
    requires balanced { length (starts_of entries.now) ≡ length (ends_of entries.now) }
    ensures { map edge_of result.items ≡ zip (starts_of entries.now) (ends_of entries.now) }
{
    let mut segments = SmallVec::new(alloc);
    let (one, other) = (entries[0].vertex, entries[1].vertex);
    segments.push_reserved(if entries[0].start {
        Segment {
            from: one,
            to: other,
        }
    } else {
        Segment {
            from: other,
            to: one,
        }
    });
    segments
}

// The starts, or the ends, by how far along they lie.
fn in_order(
    alloc: Global,
    along: &[i64; 3],
    entries: &[Entry],
    points: &[Point],
    start: bool,
) -> Result<Vec<Keyed>, NoMemory>
    requires short { IsShort along.now }
    requires below { All (λ e. e.vertex < length points.now) entries.now }
    ensures { IfOk result (λ order. map (λ k. k.vertex) order.items ≡ sorted_along along.now (place_in points.now) (chosen start entries.now)) }
{
    let mut order = Vec::new(alloc);
    for entry in entries {
        if entry.start == start {
            let vertex = entry.vertex;
            order.push(Keyed {
                key: key(points[vertex as usize], along),
                vertex,
            })?;
        }
    }
    order.sort_unstable();
    Ok(order)
}

// The segments from each start to the end at its place.
fn joined(alloc: Global, starts: &[Keyed], ends: &[Keyed]) -> Result<SmallVec<Segment, 4>, NoMemory>
    requires { length starts.now ≡ length ends.now }
    ensures { IfOk result (λ s. map edge_of s.items ≡ zip (map (λ k. k.vertex) starts.now) (map (λ k. k.vertex) ends.now)) }
{
    let mut segments = SmallVec::new(alloc);
    for (i, start) in starts.iter().enumerate() {
        segments.push(Segment {
            from: start.vertex,
            to: ends[i].vertex,
        })?;
    }
    Ok(segments)
}
