// Boxes, tetrahedra and prisms.
ghost use Rattle.std.specs.Prelude.{◌≡◌, ◌≤◌, ◌^◌, ◌||◌, List, IfOk, pos, int_le, unsigned_abs};
ghost use Rattle.mesh_terms.specs.Labels.{no_labels};
ghost use Rattle.mesh_terms.specs.Points.{IsPoint};
ghost use Rattle.made_terms.specs.Refusals.{box_fault, tetra_fault, prism_fault, is_flat_box};
ghost use Rattle.made_terms.specs.Solids.{
  box_points,
  box_triples,
  tetra_points,
  tetra_triples,
  prism_points,
  prism_triples,
};
ghost use Rattle.mesh_make.specs.Refused.{IsRefusedFor};

use crate::fault::MakeFault;
use crate::made::solid;
use crate::rows::{moved_row, row_of};
use mb_base::{Limits, Point};
use mesh_check::Mesh;
use std::alloc::Global;

/// The triangles of a box, two for each side, over its corners: those of its bottom, then those of its top; of each the
/// front ones, then the back ones; from left to right.
pub const BOX: [[u32; 3]; 12] = [
    [0, 3, 1],
    [0, 2, 3],
    [4, 5, 7],
    [4, 7, 6],
    [0, 1, 4],
    [1, 5, 4],
    [1, 3, 7],
    [1, 7, 5],
    [3, 2, 6],
    [3, 6, 7],
    [0, 4, 6],
    [0, 6, 2],
];

// The triangles of a tetrahedron over its corner and the ends of the edges there, along x, y and z.
const TETRA: [[u32; 3]; 4] = [[0, 2, 1], [0, 1, 3], [1, 2, 3], [2, 0, 3]];

// The triangles of a prism over the corners of its bottom and those of its top.
const PRISM: [[u32; 3]; 8] = [
    [0, 2, 1],
    [3, 4, 5],
    [0, 1, 4],
    [0, 4, 3],
    [1, 2, 5],
    [1, 5, 4],
    [2, 0, 3],
    [2, 3, 5],
];

/// The box along the axes between two opposite corners. It is flat where the low one is not below the high one on some
/// axis. Corners of the grid give corners of the grid.
pub fn make_box(alloc: Global, low: Point, high: Point, limits: &Limits) -> Result<Mesh, MakeFault>
    ensures refused { IsRefusedFor (box_fault limits.now low high) result }
    ensures points { IfOk result (λ m. m.points ≡ box_points low high) }
    ensures triples { IfOk result (λ m. m.triples ≡ box_triples) }
    ensures labels { IfOk result (λ m. m.labels ≡ no_labels box_triples) }
{
    let (low, high) = (row_of(low), row_of(high));
    solid(
        alloc,
        is_flat_box(&low, &high),
        &box_rows(&low, &high),
        &BOX,
        limits,
    )
}

/// The tetrahedron with three right angles at a corner, from which its edges go so far along x, y and z. It is flat where
/// the size is not above 0.
pub fn make_tetra(alloc: Global, at: Point, size: i32, limits: &Limits) -> Result<Mesh, MakeFault>
    ensures refused { IsRefusedFor (tetra_fault limits.now at size) result }
    ensures points { IfOk result (λ m. m.points ≡ tetra_points at size) }
    ensures triples { IfOk result (λ m. m.triples ≡ tetra_triples) }
    ensures labels { IfOk result (λ m. m.labels ≡ no_labels tetra_triples) }
{
    let rows = tetra_rows(&row_of(at), i64::from(size));
    solid(alloc, is_flat(size), &rows, &TETRA, limits)
}

/// The prism over a triangle with a right angle at a corner, from which the edges go so far along x and y, and so high
/// along z. It is flat where the size or the height is not above 0.
pub fn make_prism(
    alloc: Global,
    at: Point,
    size: i32,
    height: i32,
    limits: &Limits,
) -> Result<Mesh, MakeFault>
    ensures refused { IsRefusedFor (prism_fault limits.now at size height) result }
    ensures points { IfOk result (λ m. m.points ≡ prism_points at size height) }
    ensures triples { IfOk result (λ m. m.triples ≡ prism_triples) }
    ensures labels { IfOk result (λ m. m.labels ≡ no_labels prism_triples) }
{
    let rows = prism_rows(&row_of(at), i64::from(size), i64::from(height));
    solid(alloc, are_flat(size, height), &rows, &PRISM, limits)
}

// Whether the low corner is not below the high one on some axis.
fn is_flat_box(low: &[i64; 3], high: &[i64; 3]) -> bool
    ensures { result ≡ is_flat_box low.now high.now }
{
    high[0] <= low[0] || high[1] <= low[1] || high[2] <= low[2]
}

// Whether the size is not above 0.
fn is_flat(size: i32) -> bool
    ensures { result ≡ int_le size (pos 0) }
{
    size <= 0
}

// Whether the size or the height is not.
fn are_flat(size: i32, height: i32) -> bool
    ensures { result ≡ int_le size (pos 0) || int_le height (pos 0) }
{
    size <= 0 || height <= 0
}

/// The corners of the box between two opposite ones.
pub fn box_rows(low: &[i64; 3], high: &[i64; 3]) -> [[i64; 3]; 8]
    ensures { result ≡ box_points low.now high.now }
{
    let [x, y, z] = *low;
    let [u, v, w] = *high;
    [
        [x, y, z],
        [u, y, z],
        [x, v, z],
        [u, v, z],
        [x, y, w],
        [u, y, w],
        [x, v, w],
        [u, v, w],
    ]
}

// The corner of a tetrahedron, and the ends of its edges.
fn tetra_rows(at: &[i64; 3], size: i64) -> [[i64; 3]; 4]
    requires on_grid { IsPoint at.now }
    requires small { unsigned_abs size ≤ 2 ^ 31 }
    ensures { result ≡ tetra_points at.now size }
{
    [
        moved_row(at, 0, 0, 0),
        moved_row(at, size, 0, 0),
        moved_row(at, 0, size, 0),
        moved_row(at, 0, 0, size),
    ]
}

// The corners of a prism at its bottom, then those at its top.
fn prism_rows(at: &[i64; 3], size: i64, height: i64) -> [[i64; 3]; 6]
    requires on_grid { IsPoint at.now }
    requires small { unsigned_abs size ≤ 2 ^ 31 }
    requires low { unsigned_abs height ≤ 2 ^ 31 }
    ensures { result ≡ prism_points at.now size height }
{
    [
        moved_row(at, 0, 0, 0),
        moved_row(at, size, 0, 0),
        moved_row(at, 0, size, 0),
        moved_row(at, 0, 0, height),
        moved_row(at, size, 0, height),
        moved_row(at, 0, size, height),
    ]
}
