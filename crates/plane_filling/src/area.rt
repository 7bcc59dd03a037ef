// The doubled area inside a walk.
ghost use Rattle.std.specs.Prelude.{◌≡◌, ◌+◌, ◌*◌, ◌^◌, ◌∷◌};
ghost use Rattle.chain_laws.specs.Sums.{IsWithin};
ghost use Rattle.face_plane.specs.Planes.{area, wedge};
ghost use Rattle.plane_filling.specs.Begun.{seen_in};

use crate::flat::FlatPoints;
use face_plane::FlatPoint;

// The doubled area of the origin and an edge.
fn edge_area(from: FlatPoint, to: FlatPoint) -> i128
    ensures value { result ≡ wedge from to }
    ensures small { IsWithin result (2 ^ 61) }
{
    i128::from(FlatPoint::wedge(from, to))
}

/// The doubled area inside a walk.
pub fn doubled_area(flat: &FlatPoints, walk: &[u32]) -> i128
    ensures { result ≡ area (seen_in flat.now) walk.now }
{
    match walk.split_first() {
        None => 0,
        Some((first, rest)) => area_from(flat, *first, rest),
    }
}

// That inside a walk of a first place and others.
fn area_from(flat: &FlatPoints, first: u32, rest: &[u32]) -> i128
    ensures { result ≡ area (seen_in flat.now) (first ∷ rest.now) }
{
    let mut sum = 0i128;
    let mut last = first;
    for place in rest {
        sum += edge_area(flat.at(last), flat.at(*place));
        last = *place;
    }
    sum + edge_area(flat.at(last), flat.at(first))
}
