// Rings against a table of hard ones.
ghost use Rattle.std.specs.Prelude.{◌≢◌, ◌<◌, ◌≤◌, IsTrue, length};
ghost use Rattle.std.specs.List.{All};
ghost use Rattle.chain_terms.specs.Paths.{round_edges};
ghost use Rattle.face_plane.specs.Rings.{Three};
ghost use Rattle.ring_cutting.specs.Laws.{CanBeCut};

mod table;

use crate::rows::{Kind, expect_rows};
use crate::words::{is_filling, number_of, parts_of, points_of, vertices_of};
use face_plane::FacePlane;
use loop_ring::Ring;
use mb_base::Point;
use ring_cutting::{Filled, cut_ring, cut_ring_long_from, some_place_may_be_cut};
use std::alloc::Global;
use std::process::Abort;
use table::ROWS;

// Whether neighbouring places have different vertices.
fn are_apart(ring: &[u32]) -> bool
    requires { 0 < length ring.now }
    ensures { IsTrue result → All (λ e. e.0 ≢ e.1) (round_edges ring.now) }
{
    for i in 1..ring.len() {
        if ring[i - 1] == ring[i] {
            return false;
        }
    }
    ring[ring.len() - 1] != ring[0]
}

// Whether some vertex is neither of the first two, which differ.
fn has_third(ring: &[u32]) -> bool
    requires { 2 ≤ length ring.now }
    ensures { IsTrue result → Three ring.now }
{
    let (a, b) = (ring[0], ring[1]);
    for v in ring {
        if *v != a && *v != b {
            return a != b;
        }
    }
    false
}

/// Whether each vertex is one of so many.
pub fn are_below(ring: &[u32], count: usize) -> bool
    ensures { IsTrue result → All (λ v. v < count) ring.now }
{
    for v in ring {
        if *v as usize >= count {
            return false;
        }
    }
    true
}

// Whether a ring can be cut.
fn can_be_cut(ring: &[u32], count: usize) -> bool
    ensures { IsTrue result → CanBeCut count ring.now }
{
    let some = ring.len() >= 3 && ring.len() <= 100_000_000;
    some && are_apart(ring) && has_third(ring) && are_below(ring, count)
}

// The triangles of a ring, cut in the plane as it is or turned, as a short ring or as a long one.
fn cut(
    rt: &impl Abort,
    alloc: Global,
    turned: bool,
    points: &[Point],
    places: &[u32],
    is_long: bool,
) -> Filled {
    assert!(rt; can_be_cut(places, points.len()));
    let plane = FacePlane { drop: 2 };
    let ring = Ring::of(alloc, places).expect(rt, "a ring");
    if is_long {
        cut_ring_long_from(alloc, plane, turned, ring, points, 3).expect(rt, "memory")
    } else {
        cut_ring(alloc, plane, turned, ring, points).expect(rt, "memory")
    }
}

/// Whether a ring is cut into the triangles of its line, as a short ring and as a long one.
pub fn agrees(rt: &impl Abort, alloc: Global, line: &str) -> bool {
    let parts = parts_of(rt, alloc, line);
    let [turned, points, ring, triples, forced] = parts.as_slice() else {
        return false;
    };
    let turned = number_of(rt, turned) == 1;
    let points = points_of(rt, alloc, points, 2);
    let places = vertices_of(rt, alloc, ring);
    let wanted = vertices_of(rt, alloc, triples);
    let forced = number_of(rt, forced) as u64;
    let short = cut(rt, alloc, turned, &points, &places, false);
    let long = cut(rt, alloc, turned, &points, &places, true);
    is_filling(rt, alloc, &short, &wanted, forced) && is_filling(rt, alloc, &long, &wanted, forced)
}

#[test]
fn hard_rings_are_cut_by_the_rule(rt: HostRuntime) {
    some_place_may_be_cut();
    expect_rows(&rt, rt.alloc(), &Kind::Cuts, ROWS, 29);
}
