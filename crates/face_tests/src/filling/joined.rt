// Rings after joining against two tables.
ghost use Rattle.std.specs.Prelude.{length};
ghost use Rattle.face_plane.specs.Keeping.{AreRings};

use super::joined_rows::{MANY_HOLES, RANDOM_ROWS, ROWS};
use super::{can_fill, loops_of};
use crate::rings::has;
use crate::rows::{Kind, expect_rows};
use crate::words::{number_of, parts_of, points_of};
use face_loops::Loop;
use mb_base::Point;
use std::alloc::Global;
use std::process::Abort;
use triangulate::{FacePlane, Joined, Ring, join_holes};

/// Loops that can be filled, joined.
pub(crate) fn joined(
    rt: &impl Abort,
    alloc: Global,
    drop: u32,
    loops: &[Loop],
    points: &[Point],
) -> Joined
    ensures { AreRings (length points.now) result.rings.items }
{
    assert!(rt; drop < 3 && can_fill(alloc, loops, points.len()).expect(rt, "memory"));
    join_holes(alloc, FacePlane { drop: drop as u8 }, loops, points).expect(rt, "memory")
}

// Whether the rings are these, in this order.
fn are_rings(rings: Vec<Ring>, wanted: &[Loop]) -> bool {
    let mut same = wanted.len() == rings.len();
    let mut place = 0usize;
    for mut ring in rings {
        same = same && place < wanted.len() && has(&mut ring, wanted[place].vertices());
        place = place.saturating_add(1);
    }
    same
}

/// Whether joining gives the rings of a line, in the plane turned as it tells.
pub fn agrees(rt: &impl Abort, alloc: Global, line: &str) -> bool {
    let parts = parts_of(rt, alloc, line);
    let [drop, points, loops, turned, rings] = parts.as_slice() else {
        return false;
    };
    let drop = number_of(rt, drop);
    let points = points_of(rt, alloc, points, 3);
    let loops = loops_of(rt, alloc, loops);
    let wanted = loops_of(rt, alloc, rings);
    let joined = joined(rt, alloc, drop, &loops, &points);
    joined.turned == (number_of(rt, turned) == 1) && are_rings(joined.rings, &wanted)
}

#[test]
fn holes_are_joined_to_the_rings_of_the_table(rt: HostRuntime) {
    expect_rows(&rt, rt.alloc(), &Kind::Rings, ROWS, 21);
}

#[test]
fn random_holes_are_joined_as_in_the_table(rt: HostRuntime) {
    expect_rows(&rt, rt.alloc(), &Kind::Rings, RANDOM_ROWS, 150);
}

#[test]
fn many_holes_are_joined_as_in_the_table(rt: HostRuntime) {
    expect_rows(&rt, rt.alloc(), &Kind::Rings, MANY_HOLES, 3);
}
