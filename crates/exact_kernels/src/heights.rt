//! A vertex and an edge of the other side.

ghost use Rattle.std.specs.Prelude.{◌≡◌, ◌≤◌, ◌^◌, unsigned_abs};
ghost use Rattle.side_terms.specs.Corners.{IsFineCorner};
ghost use Rattle.plane_laws.specs.Decisions.{is_over};
ghost use Rattle.exact_kernels.specs.Exact.{exact_beyond, exact_edge, height};

use crate::signs::{less, plus, product, way};
use mb_base::Corner;
use shadow_kernels::Edge;

/// Whether a vertex of P is beyond one of Q in x.
pub(crate) fn is_beyond(p: &Corner, q: &Corner) -> bool
    ensures { result ≡ exact_beyond p.now q.now }
{
    q.at[0] <= p.at[0]
}

/// How far P is above Q in y where the two meet in x, times the length of the edge in x.
fn height(edge: Edge, vertex: &Corner, left: &Corner, right: &Corner) -> i128
    requires vertex_fine { IsFineCorner vertex.now }
    requires left_fine { IsFineCorner left.now }
    requires right_fine { IsFineCorner right.now }
    ensures value { result ≡ height edge vertex.now left.now right.now }
    ensures small { unsigned_abs result ≤ 2 ^ 79 }
{
    let length = way(0, left, right);
    let rise = way(1, left, right);
    let along = product(way(0, left, vertex), rise);
    match edge {
        Edge::OfP => plus(product(way(1, vertex, left), length), along),
        Edge::OfQ => less(product(way(1, left, vertex), length), along),
    }
}

/// Whether a height is above: more than 0, or 0 where the edge from left to right doesn't rise.
fn is_over(height: i128, left: i64, right: i64) -> bool
    ensures { result ≡ is_over height left right }
{
    0 < height || (height == 0 && right <= left)
}

/// Whether P is beyond Q in y.
pub(crate) fn is_over_edge(edge: Edge, vertex: &Corner, left: &Corner, right: &Corner) -> bool
    requires vertex_fine { IsFineCorner vertex.now }
    requires left_fine { IsFineCorner left.now }
    requires right_fine { IsFineCorner right.now }
    ensures { result ≡ exact_edge edge vertex.now left.now right.now }
{
    is_over(height(edge, vertex, left, right), left.at[1], right.at[1])
}
