//! A vertex and an edge of the other side: their answer, and its shadow alone, with no spot handed out.

ghost use Rattle.std.specs.Prelude.{◌≡◌, ◌≤◌, pos, unsigned_abs, if◌then◌else◌};
ghost use Rattle.side_terms.specs.Corners.{axis, IsFineCorner};
ghost use Rattle.shadow_kernels.specs.Bounds.{IsFinePair};
ghost use Rattle.shadow_kernels.specs.Counts.{shadow_of};
ghost use Rattle.shadow_kernels.specs.Edges.{past, edge_meet, met_at};
ghost use Rattle.shadow_kernels.specs.Hulls.{IsAlong};
ghost use Rattle.shadow_kernels.specs.Rules.{spot_and_side};

use crate::spots::edge_spot;
use crate::{Edge, Meet, Rules, Sights};
use mb_base::Corner;

/// The answer of the vertex and the edge from c to d.
pub(crate) fn edge_meet<K: Rules>(
    kernel: &K,
    edge: Edge,
    vertex: &Corner,
    c: &Corner,
    d: &Corner,
) -> Option<Meet>
    requires vertex_fine { IsFineCorner vertex.now }
    requires c_fine { IsFineCorner c.now }
    requires d_fine { IsFineCorner d.now }
    ensures value { result ≡ edge_meet edge (K.rule_of kernel.now) (K.between_of kernel.now) vertex.now c.now d.now }
    ensures fine { IsFinePair result }
{
    let past_c = is_past(kernel, edge, vertex, c);
    let past_d = is_past(kernel, edge, vertex, d);
    if past_c == past_d {
        None
    } else if past_c {
        Some(meet_at_edge(kernel, 1, edge, vertex, c, d))
    } else {
        Some(meet_at_edge(kernel, -1, edge, vertex, d, c))
    }
}

/// The shadow of their answer. A value is placed by the rounding only where the boxes of the two leave that open.
#[inline(always)]
pub(crate) fn edge_shadow<K: Sights>(
    kernel: &K,
    edge: Edge,
    vertex: &Corner,
    c: &Corner,
    d: &Corner,
) -> i8
    requires vertex_fine { IsFineCorner vertex.now }
    requires c_fine { IsFineCorner c.now }
    requires d_fine { IsFineCorner d.now }
    ensures value { result ≡ shadow_of (edge_meet edge (K.rule_of kernel.now) (K.between_of kernel.now) vertex.now c.now d.now) }
    ensures small { unsigned_abs result ≤ 1 }
{
    let past_c = is_past(kernel, edge, vertex, c);
    let past_d = is_past(kernel, edge, vertex, d);
    if past_c == past_d {
        0
    } else if past_c {
        counted(1, kernel.is_over_edge(edge, vertex, c, d))
    } else {
        counted(-1, kernel.is_over_edge(edge, vertex, d, c))
    }
}

/// Whether the vertex counts as past an end of the edge in x.
#[inline(always)]
fn is_past<K: Rules>(kernel: &K, edge: Edge, vertex: &Corner, end: &Corner) -> bool
    ensures { result ≡ past edge (K.rule_of kernel.now) vertex.now end.now }
{
    match edge {
        Edge::OfP => !kernel.is_beyond(end, vertex),
        Edge::OfQ => kernel.is_beyond(vertex, end),
    }
}

/// The answer where vertex and edge overlap in x: the sign, the spot on the edge there, and whether P is beyond.
fn meet_at_edge<K: Rules>(
    kernel: &K,
    sign: i8,
    edge: Edge,
    vertex: &Corner,
    left: &Corner,
    right: &Corner,
) -> Meet
    requires along { IsAlong left.now right.now (axis 0 vertex.now) }
    requires vertex_fine { IsFineCorner vertex.now }
    ensures { result ≡ met_at sign (spot_and_side (K.rule_of kernel.now) (K.between_of kernel.now) edge vertex.now left.now right.now) }
{
    let spot = edge_spot(kernel, edge, vertex, left, right);
    let above = kernel.is_over_edge_at(edge, vertex, left, right, &spot);
    Meet {
        count: sign,
        above,
        spot,
    }
}

/// The shadow of a count: the count where P is beyond Q, else 0.
fn counted(count: i8, above: bool) -> i8
    ensures { result ≡ (if above then count else pos 0) }
{
    if above { count } else { 0 }
}
