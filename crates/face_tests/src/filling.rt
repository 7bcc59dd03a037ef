// Fillings against two tables, and each public call with ample memory.
ghost use Rattle.std.specs.Prelude.{◌≡◌, ◌≢◌, ◌<◌, ℕ, IfOk, IsTrue, length, get_or};
ghost use Rattle.std.specs.List.{concat};
ghost use Rattle.face_loops.specs.Segments.{AreDifferent};
ghost use Rattle.hole_joining.specs.Laws.{AreFillable};
ghost use Rattle.ring_cutting.specs.Laws.{CanBeCut};

pub mod joined;
mod joined_rows;
mod rows;

use crate::cutting::are_below;
use crate::rings::has;
use crate::rows::{Kind, expect_rows};
use crate::words::{STROKE, is_filling, lists_of, number_of, parts_of, points_of, vertices_of};
use face_loops::Loop;
use mb_base::{NoMemory, Point};
use rows::{HARD, RANDOM};
use std::alloc::Global;
use std::process::Abort;
use triangulate::{FacePlane, Filled, Ring, cut_ring, fill};

// The vertices of all loops, one loop after the other.
fn all_vertices(alloc: Global, loops: &[Loop]) -> Result<Vec<u32>, NoMemory>
    ensures { IfOk result (λ vertices. vertices.items ≡ concat loops.now) }
{
    let mut vertices = Vec::new(alloc);
    for one in loops {
        vertices.extend_from_slice(one.vertices())?;
    }
    Ok(vertices)
}

// Whether a vertex stands at no place before its own.
fn is_new(vertices: &[u32], place: usize) -> bool
    requires { place < length vertices.now }
    ensures { IsTrue result → (i : ℕ) → i < place → get_or vertices.now i 0 ≢ get_or vertices.now place 0 }
{
    for i in 0..place {
        if vertices[i] == vertices[place] {
            return false;
        }
    }
    true
}

// Whether all are different.
fn are_different(vertices: &[u32]) -> bool
    ensures { IsTrue result → AreDifferent vertices.now }
{
    for place in 0..vertices.len() {
        if !is_new(vertices, place) {
            return false;
        }
    }
    true
}

// Whether the loops can be filled.
pub(crate) fn can_fill(alloc: Global, loops: &[Loop], points: usize) -> Result<bool, NoMemory>
    ensures { IfOk result (λ can. IsTrue can → AreFillable loops.now points) }
{
    let vertices = all_vertices(alloc, loops)?;
    let long = loops.iter().all(|one| one.vertices().len() >= 3);
    let below = are_below(&vertices, points);
    Ok(vertices.len() <= 60_000_000 && long && below && are_different(&vertices))
}

// The filling of loops that can be filled.
fn filled(rt: &impl Abort, alloc: Global, drop: u32, loops: &[Loop], points: &[Point]) -> Filled {
    assert!(rt; drop < 3 && can_fill(alloc, loops, points.len()).expect(rt, "memory"));
    fill(alloc, FacePlane { drop: drop as u8 }, loops, points).expect(rt, "memory")
}

// The loops of these numbers, with strokes between them.
fn loops_of(rt: &impl Abort, alloc: Global, numbers: &[u64]) -> Vec<Loop> {
    let mut loops = Vec::new(alloc);
    for list in &lists_of(rt, alloc, numbers) {
        loops
            .push(Loop::of(vertices_of(rt, alloc, list)))
            .expect(rt, "room for a loop");
    }
    loops
}

/// Whether the loops of a line are filled as it tells.
pub fn agrees(rt: &impl Abort, alloc: Global, line: &str) -> bool {
    let parts = parts_of(rt, alloc, line);
    let [drop, points, loops, triples, forced] = parts.as_slice() else {
        return false;
    };
    let drop = number_of(rt, drop);
    let forced = number_of(rt, forced) as u64;
    let points = points_of(rt, alloc, points, 3);
    let loops = loops_of(rt, alloc, loops);
    let wanted = vertices_of(rt, alloc, triples);
    let filled = filled(rt, alloc, drop, &loops, &points);
    is_filling(rt, alloc, &filled, &wanted, forced)
}

#[test]
fn hard_loops_are_filled_by_the_rule(rt: HostRuntime) {
    expect_rows(&rt, rt.alloc(), &Kind::Fillings, HARD, 25);
}

#[test]
fn random_loops_are_filled_by_the_rule(rt: HostRuntime) {
    expect_rows(&rt, rt.alloc(), &Kind::Fillings, RANDOM, 300);
}

// Whether a ring is cut into triangles with these corners in the plane that drops the last axis, none of them forced.
fn is_cut(rt: &impl Abort, alloc: Global, ring: Ring, points: &[Point], wanted: &[u32]) -> bool
    requires { CanBeCut (length points.now) ring }
{
    let plane = FacePlane { drop: 2 };
    let filled = cut_ring(alloc, plane, false, ring, points).expect(rt, "memory");
    is_filling(rt, alloc, &filled, wanted, 0)
}

// Joins loops to one ring, which has these vertices, and cuts it into triangles with these corners.
fn join_and_cut(
    rt: &impl Abort,
    alloc: Global,
    loops: &[Loop],
    points: &[Point],
    vertices: &[u32],
    corners: &[u32],
) {
    let joined = joined::joined(rt, alloc, 2, loops, points);
    assert!(rt; !joined.turned && joined.rings.len() == 1);
    for mut ring in joined.rings {
        assert!(rt; has(&mut ring, vertices) && ring.len() == 8);
        assert!(rt; is_cut(rt, alloc, ring, points, corners));
    }
}

// A triangle with a hole.
#[test]
fn a_hole_is_joined_and_the_ring_is_cut(rt: HostRuntime) {
    let numbers = [0, 0, 0, 10, 0, 0, 10, 10, 0, 5, 2, 0, 6, 4, 0, 7, 2, 0];
    let points = points_of(&rt, rt.alloc(), &numbers, 3);
    let loops = loops_of(&rt, rt.alloc(), &[0, 1, 2, STROKE, 3, 4, 5]);
    let ring = [0, 1, 5, 3, 4, 5, 1, 2];
    let corners = [0, 1, 5, 0, 5, 3, 0, 3, 4, 2, 0, 4, 2, 4, 5, 5, 1, 2];
    join_and_cut(&rt, rt.alloc(), &loops, &points, &ring, &corners);
}
