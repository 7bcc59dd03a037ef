//! The point of a crossing, between the spots of two boundary pairs, on the grid.

ghost use Rattle.std.specs.Prelude.{◌≡◌, Some};
ghost use Rattle.mesh_terms.specs.Points.{IsOnGrid};
ghost use Rattle.side_terms.specs.Fine.{IsFine, IsWeight};
ghost use Rattle.shadow_kernels.specs.Spots.{gap};
ghost use Rattle.shadow_kernels.specs.Bounds.{IsFineSpot};
ghost use Rattle.edge_face.specs.Crossings.{p_point};
ghost use Rattle.edge_face.specs.Sides.{place_on, mirrored};

use mb_base::Point;
use rounding::Rounding;
use shadow_kernels::{Edge, Spot, gap_of};

/// The point of an edge of P: P's values between a spot that is not above and one that is, weighted by their gaps in z.
fn p_point<R: Rounding>(rounding: &R, below: &Spot, above: &Spot) -> Option<Point>
    requires below_fine { IsFineSpot below.now }
    requires above_fine { IsFineSpot above.now }
    ensures { result ≡ Some (p_point (R.between_of rounding.now) (R.settle_of rounding.now) below.now above.now) }
{
    let a = gap_in_z(below);
    let b = gap_in_z(above);
    Point::of(
        settled(rounding, below.x, above.x, a, b),
        settled(rounding, below.py, above.py, a, b),
        settled(rounding, below.pz, above.pz, a, b),
    )
}

/// The point of an edge of either side: of an edge of Q by Q's values, likewise.
pub(crate) fn edge_point<R: Rounding>(
    rounding: &R,
    of: Edge,
    below: &Spot,
    above: &Spot,
) -> Option<Point>
    requires below_fine { IsFineSpot below.now }
    requires above_fine { IsFineSpot above.now }
    ensures { result ≡ Some (place_on of (R.between_of rounding.now) (R.settle_of rounding.now) below.now above.now) }
{
    match of {
        Edge::OfP => p_point(rounding, below, above),
        Edge::OfQ => p_point(rounding, &mirrored(below), &mirrored(above)),
    }
}

/// The spot with the values of P and of Q exchanged.
fn mirrored(spot: &Spot) -> Spot
    ensures { result ≡ mirrored spot.now }
{
    Spot {
        x: spot.x,
        py: spot.qy,
        qy: spot.py,
        pz: spot.qz,
        qz: spot.pz,
        up: spot.up,
    }
}

/// The difference of P's z and Q's z at a spot, without its sign.
fn gap_in_z(spot: &Spot) -> i64
    requires { IsFineSpot spot.now }
    ensures value { result ≡ gap spot.now.pz spot.now.qz }
    ensures weight { IsWeight result }
{
    gap_of(spot.pz, spot.qz)
}

/// The grid step of a value between two fine values.
fn settled<R: Rounding>(rounding: &R, u: i64, v: i64, a: i64, b: i64) -> i32
    requires u_fine { IsFine u }
    requires v_fine { IsFine v }
    requires a_weight { IsWeight a }
    requires b_weight { IsWeight b }
    ensures value { result ≡ R.settle_of rounding.now (R.between_of rounding.now u v a b) }
    ensures on_grid { IsOnGrid result }
{
    rounding.settle(rounding.between(u, v, a, b))
}
