// Which places block a triangle.
ghost use Rattle.std.specs.Prelude.{◌≡◌, ◌<◌, ◌≤◌, length};
ghost use Rattle.std.specs.List.{list_any};
ghost use Rattle.face_plane.specs.Rings.{vertex_at, vertex_before, vertex_after};
ghost use Rattle.ring_cutting.specs.Cuts.{covers};
ghost use Rattle.ring_cutting.specs.Placed.{place_blocks, vertices_of};

use crate::place::Place;
use face_plane::FlatPoint;

// Whether a point lies in a triangle that turns left, its rim included. With an ear's neighbours as a and c, most points of
// its ring lie beyond the side from c to a, so that side is asked first.
fn covers(a: FlatPoint, b: FlatPoint, c: FlatPoint, x: FlatPoint) -> bool
    ensures { result ≡ covers a b c x }
{
    FlatPoint::keeps_left(c, a, x)
        && FlatPoint::keeps_left(a, b, x)
        && FlatPoint::keeps_left(b, c, x)
}

// Whether a place has another vertex than the three, with its point in their triangle.
pub(crate) fn blocks(p: Place, x: Place, n: Place, place: Place) -> bool
    ensures { result ≡ place_blocks p x n place }
{
    covers(p.at, x.at, n.at, place.at)
        && place.vertex != p.vertex
        && place.vertex != x.vertex
        && place.vertex != n.vertex
}

// Whether some of these places blocks the triangle. The last places are cut last, so a place that blocks is looked for from
// the last to the first: what is found stays longest.
fn any_blocks(p: &Place, x: &Place, n: &Place, places: &[Place]) -> bool
    ensures { result ≡ list_any (place_blocks p.now x.now n.now) places.now }
{
    places.iter().rev().any(|place| blocks(*p, *x, *n, *place))
}

// Whether some place of the ring blocks the triangle of a place and its two neighbours. These three do not block it: at the
// first place, where an ear is sought first, the others alone are asked.
pub(crate) fn is_blocked(p: Place, x: Place, n: Place, places: &[Place], i: usize) -> bool
    requires long { 3 ≤ length places.now }
    requires within { i < length places.now }
    requires before { p.vertex ≡ vertex_before (vertices_of places.now) i }
    requires here { x.vertex ≡ vertex_at (vertices_of places.now) i }
    requires after { n.vertex ≡ vertex_after (vertices_of places.now) i }
    ensures { result ≡ list_any (place_blocks p x n) places.now }
{
    if i == 0 {
        any_blocks(&p, &x, &n, &places[2..places.len() - 1])
    } else {
        any_blocks(&p, &x, &n, places)
    }
}
