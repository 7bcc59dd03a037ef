//! Pairing of the vertices that stand on an edge, or on the line in which two faces cross: each that starts
//! a segment goes to one that ends it, in their order along the line.
#![tactic(auto)]

ghost use Rattle.std.specs.Prelude.{◌≡◌, ◌<◌, IfOk, IsOk, length, map};
ghost use Rattle.std.specs.List.{All};
ghost use Rattle.std.specs.List.Sorted.{IsPermutation};
ghost use Rattle.edge_pairing.specs.Entries.{edge_of, starts_of, ends_of, place_in};
ghost use Rattle.edge_pairing.specs.Pairing.{paired_along, paired_across};
ghost use Rattle.edge_pairing.specs.Laws.{ExchangeReversesAlong, ExchangeReversesAcross};

mod direction;
mod pairs;
mod spread;

use direction::{axis_direction, direction};
use mb_base::{Entry, NoMemory, Point, Segment};
use pairs::in_turn;
use smallvec::SmallVec;
use spread::widest_axis;
use std::alloc::Global;

/// The segments on an edge whose lower half-edge runs from a to b. The entries that start a segment and
/// those that end one are ordered by the scalar product of their points with b - a, and by vertex where
/// it ties. The first start goes to the first end, the second to the second, and so on.
///
/// An entry's point is that of its vertex in the list of points. `NoMemory` may come for any entries but
/// one start and one end; two sorts set the time.
pub fn segments_of_edge(
    alloc: Global,
    a: Point,
    b: Point,
    entries: &[Entry],
    points: &[Point],
) -> Result<SmallVec<Segment, 4>, NoMemory>
    requires below { All (λ e. e.vertex < length points.now) entries.now }
    requires balanced { length (starts_of entries.now) ≡ length (ends_of entries.now) }
    ensures value { IfOk result (λ s. map edge_of s.items ≡ paired_along a b (place_in points.now) (starts_of entries.now) (ends_of entries.now)) }
    ensures starts { IfOk result (λ s. IsPermutation (starts_of entries.now) (map (λ x. x.from) s.items)) }
    ensures ends { IfOk result (λ s. IsPermutation (ends_of entries.now) (map (λ x. x.to) s.items)) }
    ensures two { length entries.now ≡ 2 → IsOk result }
{
    in_turn(alloc, &direction(a, b), entries, points)
}

/// The segments on the line in which two faces cross. The entries that start a segment and those that
/// end one are ordered by the coordinate of their points on the axis on which the points of all entries
/// spread most, the lowest such axis, and by vertex where it ties. The first start goes to the first end,
/// the second to the second, and so on.
///
/// An entry's point is that of its vertex in the list of points. `NoMemory` may come for any entries but
/// one start and one end; two sorts set the time.
pub fn segments_of_pair(
    alloc: Global,
    entries: &[Entry],
    points: &[Point],
) -> Result<SmallVec<Segment, 4>, NoMemory>
    requires below { All (λ e. e.vertex < length points.now) entries.now }
    requires balanced { length (starts_of entries.now) ≡ length (ends_of entries.now) }
    ensures value { IfOk result (λ s. map edge_of s.items ≡ paired_across (place_in points.now) (starts_of entries.now) (ends_of entries.now)) }
    ensures starts { IfOk result (λ s. IsPermutation (starts_of entries.now) (map (λ x. x.from) s.items)) }
    ensures ends { IfOk result (λ s. IsPermutation (ends_of entries.now) (map (λ x. x.to) s.items)) }
    ensures two { length entries.now ≡ 2 → IsOk result }
{
    in_turn(
        alloc,
        &axis_direction(widest_axis(entries, points)),
        entries,
        points,
    )
}

/// Where starts and ends are exchanged, each segment runs the other way.
pub fn exchange_reverses()
    ensures along { ExchangeReversesAlong }
    ensures across { ExchangeReversesAcross }
{}
