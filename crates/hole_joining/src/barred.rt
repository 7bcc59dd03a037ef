// Edges that bar a bridge.
ghost use Rattle.std.specs.Prelude.{◌≡◌, int_le};
ghost use Rattle.std.specs.List.{list_any};
ghost use Rattle.std.specs.Int.{int_min, int_max};
ghost use Rattle.hole_joining.specs.Seen.{plane_at, segment_of, is_end_of, bars_segment};
ghost use Rattle.hole_joining.specs.Cones.{overlap, on_both_sides, boxes_meet, lines_meet, segments_meet, bars};
ghost use Rattle.face_plane.specs.Planes.{turn};

use crate::flat::{BridgeLine, FlatPoints, FlatVertex};
use face_plane::FlatPoint;

// A closed interval, by its two ends in any order.
#[derive(Clone, Copy, Drop)]
struct Span {
    from: i64,
    to: i64,
}

// Whether an interval begins no later than another ends.
fn begins_by_the_end(one: Span, other: Span) -> bool
    ensures { result ≡ int_le (int_min one.from one.to) (int_max other.from other.to) }
{
    let low = one.from.min(one.to);
    let high = other.from.max(other.to);
    low <= high
}

// Whether two closed intervals have a number in common.
fn overlap(one: Span, other: Span) -> bool
    ensures { result ≡ overlap one.from one.to other.from other.to }
{
    begins_by_the_end(one, other) && begins_by_the_end(other, one)
}

// Whether c and d don't both lie left of the line from a to b, nor both right of it.
fn on_both_sides(a: FlatPoint, b: FlatPoint, c: FlatPoint, d: FlatPoint) -> bool
    ensures { result ≡ on_both_sides (turn a b c) (turn a b d) }
{
    !(FlatPoint::turns_left(a, b, c) && FlatPoint::turns_left(a, b, d))
        && !(FlatPoint::turns_right(a, b, c) && FlatPoint::turns_right(a, b, d))
}

// Whether two segments have a u in common.
fn overlap_u(a: FlatPoint, b: FlatPoint, c: FlatPoint, d: FlatPoint) -> bool
    ensures { result ≡ overlap a.0 b.0 c.0 d.0 }
{
    let one = Span {
        from: a.u(),
        to: b.u(),
    };
    let other = Span {
        from: c.u(),
        to: d.u(),
    };
    overlap(one, other)
}

// Whether they have a v in common.
fn overlap_v(a: FlatPoint, b: FlatPoint, c: FlatPoint, d: FlatPoint) -> bool
    ensures { result ≡ overlap a.1 b.1 c.1 d.1 }
{
    let one = Span {
        from: a.v(),
        to: b.v(),
    };
    let other = Span {
        from: c.v(),
        to: d.v(),
    };
    overlap(one, other)
}

// Whether the boxes of two segments have a point in common.
fn boxes_meet(a: FlatPoint, b: FlatPoint, c: FlatPoint, d: FlatPoint) -> bool
    ensures { result ≡ boxes_meet a b c d }
{
    overlap_u(a, b, c, d) && overlap_v(a, b, c, d)
}

// Whether neither segment lies strictly on one side of the other's line.
fn lines_meet(a: FlatPoint, b: FlatPoint, c: FlatPoint, d: FlatPoint) -> bool
    ensures { result ≡ lines_meet a b c d }
{
    on_both_sides(a, b, c, d) && on_both_sides(c, d, a, b)
}

// Whether two closed segments have a point in common.
fn segments_meet(a: FlatPoint, b: FlatPoint, c: FlatPoint, d: FlatPoint) -> bool
    ensures { result ≡ segments_meet a b c d }
{
    boxes_meet(a, b, c, d) && lines_meet(a, b, c, d)
}

// Whether the vertex is an end of the edge from c to d.
fn is_end_of(v: &FlatVertex, c: &FlatVertex, d: &FlatVertex) -> bool
    ensures { result ≡ is_end_of v.now c.now d.now }
{
    c.vertex == v.vertex || d.vertex == v.vertex
}

// Whether the edge from c to d bars the segment: they meet, and neither end of the segment is one of the edge.
fn bars(segment: &BridgeLine, c: &FlatVertex, d: &FlatVertex) -> bool
    ensures { result ≡ bars_segment segment.now c.now d.now }
{
    let ended = is_end_of(&segment.from, c, d) || is_end_of(&segment.to, c, d);
    !ended && segments_meet(segment.from.at, segment.to.at, c.at, d.at)
}

/// Whether an edge bars the segment between two vertices.
pub fn edge_bars(flat: &FlatPoints, segment: &BridgeLine, edge: (u32, u32)) -> bool
    requires { segment.now ≡ segment_of (plane_at flat.now) segment.now.from.vertex segment.now.to.vertex }
    ensures { result ≡ bars (plane_at flat.now) segment.now.from.vertex segment.now.to.vertex edge }
{
    let (from, to) = edge;
    bars(segment, &flat.vertex(from), &flat.vertex(to))
}

/// Whether one of the edges bars it.
pub fn any_bars(flat: &FlatPoints, segment: &BridgeLine, edges: &[(u32, u32)]) -> bool
    requires { segment.now ≡ segment_of (plane_at flat.now) segment.now.from.vertex segment.now.to.vertex }
    ensures { result ≡ list_any (bars (plane_at flat.now) segment.now.from.vertex segment.now.to.vertex) edges.now }
{
    for edge in edges {
        if edge_bars(flat, segment, *edge) {
            return true;
        }
    }
    false
}
