//! Spots, and the comparisons at them.

ghost use Rattle.std.specs.Prelude.{◌≡◌, ◌<◌};
ghost use Rattle.side_terms.specs.Fine.{IsFine, IsWeight};
ghost use Rattle.side_terms.specs.Corners.{axis};
ghost use Rattle.shadow_kernels.specs.Spots.{beats, mark, marks, gap, edge_value, spot00, spot_between};
ghost use Rattle.shadow_kernels.specs.Bounds.{IsFineSpot, IsGapOf};
ghost use Rattle.shadow_kernels.specs.Rules.{edge_spot};
ghost use Rattle.shadow_kernels.specs.Entries.{spot_of};
ghost use Rattle.shadow_kernels.specs.Hulls.{IsAlong};

use crate::{Edge, Meet, Spot};
use mb_base::Corner;
use rounding::Rounding;

/// Whether a value of P is beyond one of Q: greater, or equal and up.
pub(crate) fn exceeds(p: i64, q: i64, up: bool) -> bool
    ensures { result ≡ beats p q up }
{
    q < p || (p == q && up)
}

/// A mark between two: the first at weight a = 0, the second at weight b = 0, else up where both are.
pub(crate) fn mark_between(a: i64, b: i64, first: bool, second: bool) -> bool
    ensures { result ≡ mark a b first second }
{
    if a == 0 {
        first
    } else if b == 0 {
        second
    } else {
        first && second
    }
}

/// The three marks between two times three.
fn marks_between(a: i64, b: i64, first: &[bool; 3], second: &[bool; 3]) -> [bool; 3]
    ensures { result ≡ marks a b first.now second.now }
{
    [
        mark_between(a, b, first[0], second[0]),
        mark_between(a, b, first[1], second[1]),
        mark_between(a, b, first[2], second[2]),
    ]
}

/// The difference of two fine values without its sign.
pub fn gap_of(p: i64, q: i64) -> i64
    requires p_fine { IsFine p }
    requires q_fine { IsFine q }
    ensures value { result ≡ gap p q }
    ensures weight { IsWeight result }
{
    (p - q).abs()
}

/// The spot of an answer; where there is none, one of zeros.
pub fn spot_of(meet: &Option<Meet>) -> Spot
    ensures { result ≡ spot_of meet.now }
{
    match meet {
        None => Spot {
            x: 0,
            py: 0,
            qy: 0,
            pz: 0,
            qz: 0,
            up: [false; 3],
        },
        Some(m) => m.spot,
    }
}

/// The spot of two vertices.
pub(crate) fn vertex_vertex_spot(p: &Corner, q: &Corner) -> Spot
    ensures { result ≡ spot00 p.now q.now }
{
    Spot {
        x: p.at[0],
        py: p.at[1],
        qy: q.at[1],
        pz: p.at[2],
        qz: q.at[2],
        up: p.up,
    }
}

/// The value on an axis, y or z, of the edge between its left and its right end, at x.
pub(crate) fn edge_value<R: Rounding>(
    rounding: &R,
    left: &Corner,
    right: &Corner,
    x: i64,
    axis: usize,
) -> i64
    requires along { IsAlong left.now right.now x }
    requires axis { axis < 3 }
    ensures { result ≡ edge_value (R.between_of rounding.now) axis left.now right.now x }
{
    rounding.between(
        left.at[axis],
        right.at[axis],
        x - left.at[0],
        right.at[0] - x,
    )
}

/// The spot of a vertex and an edge of the other side, where left is the end of the edge with the smaller x, or, where
/// both ends have the same x, the one that counts as left.
pub(crate) fn edge_spot<R: Rounding>(
    rounding: &R,
    edge: Edge,
    vertex: &Corner,
    left: &Corner,
    right: &Corner,
) -> Spot
    requires { IsAlong left.now right.now (axis 0 vertex.now) }
    ensures { result ≡ edge_spot edge (R.between_of rounding.now) vertex.now left.now right.now }
{
    let [x, y, z] = vertex.at;
    let edge_y = edge_value(rounding, left, right, x, 1);
    let edge_z = edge_value(rounding, left, right, x, 2);
    match edge {
        Edge::OfP => Spot {
            x,
            py: edge_y,
            qy: y,
            pz: edge_z,
            qz: z,
            up: marks_between(x - left.at[0], right.at[0] - x, &left.up, &right.up),
        },
        Edge::OfQ => Spot {
            x,
            py: y,
            qy: edge_y,
            pz: z,
            qz: edge_z,
            up: vertex.up,
        },
    }
}

/// The difference of P's y and Q's y at a spot, without its sign.
pub(crate) fn gap_in_y(spot: &Spot) -> i64
    requires { IsFineSpot spot.now }
    ensures { IsGapOf spot.now result }
{
    gap_of(spot.py, spot.qy)
}

/// The spot between one that is not above and one that is, weighted by their gaps in y.
pub(crate) fn spot_between_spots<R: Rounding>(rounding: &R, below: &Spot, above: &Spot) -> Spot
    requires below_fine { IsFineSpot below.now }
    requires above_fine { IsFineSpot above.now }
    ensures { result ≡ spot_between (R.between_of rounding.now) below.now above.now }
{
    let a = gap_in_y(below);
    let b = gap_in_y(above);
    Spot {
        x: rounding.between(below.x, above.x, a, b),
        py: rounding.between(below.py, above.py, a, b),
        qy: rounding.between(below.qy, above.qy, a, b),
        pz: rounding.between(below.pz, above.pz, a, b),
        qz: rounding.between(below.qz, above.qz, a, b),
        up: marks_between(a, b, &below.up, &above.up),
    }
}
