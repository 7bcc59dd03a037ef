// The place that is cut next.
//
// A ring is a vector of places each of which has its vertex and the vertex's point; the least ear is cut, else the
// least allowed place. What blocks a triangle is looked for from the last place to the first, since the last places
// are cut last. Three different vertices must stay: where the neighbours of a place differ, they do exactly where
// some other place has a third vertex, so the first such place is looked for. This asks every ear again after each
// cut, which is done for rings of fewer than 64 places. By a plain copy of both bodies flat rings, where most cuts
// are forced, gain by the other from some 40 places on, and spirals from about 100; stars of 128 places did not yet.
ghost use Rattle.std.specs.Prelude.{◌≡◌, ◌<◌, ◌≤◌, length, cond, IfSome, IsTrue};
ghost use Rattle.std.specs.List.{list_any, position};
ghost use Rattle.chain_terms.specs.Sums.{upto};
ghost use Rattle.face_plane.specs.Planes.{Plane};
ghost use Rattle.face_plane.specs.Rings.{IsRing};
ghost use Rattle.ring_cutting.specs.Cuts.{is_allowed, is_ear, first_allowed, cut_place, forced_here};
ghost use Rattle.ring_cutting.specs.Placed.{vertices_of, IsPlaced, is_third};

use crate::place::{Place, after, before, here};
use crate::triangle::is_blocked;
use face_plane::FlatPoint;

// The place that is cut next, and whether it is cut though it is no ear.
#[derive(Clone, Copy, Debug, Drop)]
pub(crate) struct Choice {
    pub(crate) place: usize,
    pub(crate) forced: bool,
}

// The least ear, and where there is none the least place that is allowed.
pub(crate) fn choose(places: &[Place]) -> Choice
    requires ringy { IsRing (vertices_of places.now) }
    requires more { 4 ≤ length places.now }
    ensures within { result.place < length places.now }
    ensures allowed { IsTrue (is_allowed (vertices_of places.now) result.place) }
    ensures place { (at : Plane) → IsPlaced at places.now → result.place ≡ cut_place at (vertices_of places.now) }
    ensures forced { (at : Plane) → IsPlaced at places.now → cond result.forced 1 0 ≡ forced_here at (vertices_of places.now) }
{
    match first_ear(places) {
        Some(place) => Choice {
            place,
            forced: false,
        },
        None => Choice {
            place: first_allowed(places),
            forced: true,
        },
    }
}

// The least ear.
fn first_ear(places: &[Place]) -> Option<usize>
    requires { 3 ≤ length places.now }
    ensures within { IfSome result (λ i. i < length places.now) }
    ensures allowed { IfSome result (λ i. IsTrue (is_allowed (vertices_of places.now) i)) }
    ensures value { (at : Plane) → IsPlaced at places.now → result ≡ position (is_ear at (vertices_of places.now)) (upto (length places.now)) }
{
    for i in 0..places.len() {
        if is_ear(places, i) {
            return Some(i);
        }
    }
    None
}

// The least place that is allowed.
fn first_allowed(places: &[Place]) -> usize
    requires ringy { IsRing (vertices_of places.now) }
    requires more { 4 ≤ length places.now }
    ensures within { result < length places.now }
    ensures allowed { IsTrue (is_allowed (vertices_of places.now) result) }
    ensures value { result ≡ first_allowed (vertices_of places.now) }
{
    for i in 0..places.len() {
        if is_allowed(places, i) {
            return i;
        }
    }
    // Some place is allowed, so this is never reached.
    0
}

// Whether a place is an ear.
fn is_ear(places: &[Place], i: usize) -> bool
    requires long { 3 ≤ length places.now }
    requires within { i < length places.now }
    ensures allowed { IsTrue result → IsTrue (is_allowed (vertices_of places.now) i) }
    ensures value { (at : Plane) → IsPlaced at places.now → result ≡ is_ear at (vertices_of places.now) i }
{
    let (p, x, n) = (before(places, i), here(places, i), after(places, i));
    FlatPoint::turns_left(p.at, x.at, n.at)
        && is_allowed(places, i)
        && !is_blocked(p, x, n, places, i)
}

// Whether a place may be cut: its neighbours differ, and some other place has a third vertex.
fn is_allowed(places: &[Place], i: usize) -> bool
    requires { i < length places.now }
    ensures { result ≡ is_allowed (vertices_of places.now) i }
{
    let (p, n) = (before(places, i).vertex, after(places, i).vertex);
    p != n && (has_third(&places[..i], p, n) || has_third(&places[i + 1..], p, n))
}

// Whether some place has a vertex that is neither of two.
fn has_third(places: &[Place], p: u32, n: u32) -> bool
    ensures { result ≡ list_any (is_third p n) (vertices_of places.now) }
{
    places
        .iter()
        .any(|place| place.vertex != p && place.vertex != n)
}
