// A ring is cut into triangles.
ghost use Rattle.std.specs.Prelude.{◌≡◌, ◌<◌, ◌≤◌, ◌+◌, ℕ, List, length, IfOk, IsTrue, pos, ◌<ℤ◌, int_lt};
ghost use Rattle.std.specs.List.{All};
ghost use Rattle.chain_terms.specs.Chains.{all_edges};
ghost use Rattle.chain_terms.specs.Paths.{round_edges};
ghost use Rattle.chain_terms.specs.Sums.{total};
ghost use Rattle.mesh_terms.specs.Meshes.{triple_of};
ghost use Rattle.face_plane.specs.Keeping.{AreProper, KeepsChain};
ghost use Rattle.face_plane.specs.Planes.{Plane, area, face_plane, orient};
ghost use Rattle.face_plane.specs.Rings.{IsRing};
ghost use Rattle.ring_cutting.specs.Cuts.{cut_ring, triple_at, is_allowed, first_allowed, turn_at};
ghost use Rattle.ring_cutting.specs.Laws.{CanBeCut};
ghost use Rattle.ring_cutting.specs.Placed.{vertices_of, IsPlaced};

use crate::Filled;
use crate::ears::choose;
use crate::long::cut_long;
use crate::place::{Place, after, before, here, placed};
use face_plane::{FacePlane, FlatPoint};
use loop_ring::Ring;
use mb_base::{NoMemory, Point};
use std::alloc::Global;

/// Cuts a ring of vertices, numbers of points, into triangles in the plane of its face; u and v of the plane are exchanged
/// where it is turned. The ring has three places or more and at most 100,000,000, neighbours that differ, the last and the
/// first too, and at least three different vertices, each with a point.
///
/// A place may be cut where its two neighbours have different vertices and the places that stay have at least three
/// different ones. It is an ear where it may be cut, turns left, and no vertex but those three lies in their triangle,
/// rim included. Each time the least ear is cut, and where there is none the least place that may be cut, which counts as
/// forced; the last three places are the last triangle, forced where it does not turn left. There always is a place that
/// may be cut. `NoMemory` may come for any ring.
///
/// A ring of n places takes memory in proportion to n. On all rings that were tried it took time in proportion to n log n
/// or little more, since a long ring's places are asked again only where what was found may have changed, but some two or
/// three times each; no bound below the cube of n is known for every ring.
///
/// The rule is this project's own; the Manifold library cuts ears too.
pub fn cut_ring(
    alloc: Global,
    plane: FacePlane,
    turned: bool,
    ring: Ring,
    points: &[Point],
) -> Result<Filled, NoMemory>
    requires ring { CanBeCut (length points.now) ring }
    requires axis { plane.drop < 3 }
    ensures value { IfOk result (λ f. f ≡ cut_ring (face_plane plane.drop turned points.now) ring) }
    ensures count { IfOk result (λ f. length f.triples + 2 ≡ length ring) }

    // The triangles have the boundary of the ring, and doubled areas whose sum is the ring's; and so has every odd function.
    ensures keeps { IfOk result (λ f. KeepsChain (all_edges f.triples) (round_edges ring)) }
    ensures areas { IfOk result (λ f. total (λ t. orient (face_plane plane.drop turned points.now) t.0 t.1 t.2) f.triples ≡
        area (face_plane plane.drop turned points.now) ring) }
    ensures proper { IfOk result (λ f. AreProper (length points.now) f.triples) }
    ensures most { IfOk result (λ f. f.forced ≤ length f.triples) }
    ensures left { IfOk result (λ f. f.forced ≡ 0 → All (λ t. pos 0 <ℤ orient (face_plane plane.drop turned points.now) t.0 t.1 t.2) f.triples) }
{
    cut_ring_long_from(alloc, plane, turned, ring, points, LONG)
}

// The number of places from which a ring is long.
const LONG: usize = 64;

/// The same, where a ring is long from this number of places on. A short ring's places are asked again for each cut; a long
/// one's only where what was found may have changed.
pub fn cut_ring_long_from(
    alloc: Global,
    plane: FacePlane,
    turned: bool,
    ring: Ring,
    points: &[Point],
    long: usize,
) -> Result<Filled, NoMemory>
    requires ring { CanBeCut (length points.now) ring }
    requires axis { plane.drop < 3 }
    ensures { IfOk result (λ f. f ≡ cut_ring (face_plane plane.drop turned points.now) ring) }
{
    let places = placed(alloc, plane, turned, ring, points)?;
    if places.len() < long {
        cut_down(alloc, places)
    } else {
        cut_long(alloc, &places)
    }
}

/// Every ring of four places or more has a place that may be cut.
pub fn some_place_may_be_cut()
    ensures { (r : List ℕ) → IsRing r → 4 ≤ length r → IsTrue (is_allowed r (first_allowed r)) }
{}

// Cuts the places of a ring, one after the other.
fn cut_down(alloc: Global, mut places: Vec<Place>) -> Result<Filled, NoMemory>
    requires ringy { IsRing (vertices_of places.items) }
    requires few { length places.items ≤ 100000000 }
    ensures { (at : Plane) → IsPlaced at places.items → IfOk result (λ f. f ≡ cut_ring at (vertices_of places.items)) }
{
    let mut triples = Vec::with_capacity(alloc, places.len() - 2)?;
    let mut forced = 0;
    while places.len() > 3 {
        let next = choose(&places);
        triples.push(triple_at(&places, next.place))?;
        if next.forced {
            forced += 1;
        }
        places.remove(next.place);
    }
    triples.push(triple_at(&places, 1))?;
    if !turns_left(&places, 1) {
        forced += 1;
    }
    Ok(Filled { triples, forced })
}

// The triangle of a place and its neighbours.
fn triple_at(places: &[Place], i: usize) -> [u32; 3]
    requires { i < length places.now }
    ensures { triple_of result ≡ triple_at (vertices_of places.now) i }
{
    [
        before(places, i).vertex,
        here(places, i).vertex,
        after(places, i).vertex,
    ]
}

// Whether a place and its neighbours turn left.
fn turns_left(places: &[Place], i: usize) -> bool
    requires { i < length places.now }
    ensures { (at : Plane) → IsPlaced at places.now → result ≡ int_lt (pos 0) (turn_at at (vertices_of places.now) i) }
{
    FlatPoint::turns_left(
        before(places, i).at,
        here(places, i).at,
        after(places, i).at,
    )
}
