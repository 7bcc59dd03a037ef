// Motions of meshes.
ghost use Rattle.std.specs.Prelude.{◌≡◌, ◌≤◌, ◌<◌, IfOk, length, map, pos};
ghost use Rattle.mesh_terms.specs.Labels.{no_labels};
ghost use Rattle.made_terms.specs.Motions.{
  IsMotion,
  motion_fault,
  moved_mesh,
  shifted,
  scaled,
  mirrored,
  quarter_turned,
  turned_over,
};
ghost use Rattle.made_terms.specs.Refusals.{moved_fault};
ghost use Rattle.mesh_make.specs.Moves.{moves, IsSmall};
ghost use Rattle.mesh_make.specs.Refused.{IsRefusedFor};

mod grid;
mod rigid;

use crate::fault::MakeFault;
use crate::made::mesh_of;
use grid::{GridMotion, moved_points, stay};
use made_terms::Motion;
use mb_base::{NoMemory, Point};
use mesh_check::Mesh;
use rigid::{mirrored_points, turned_points, turned_triples};
use std::alloc::Global;

/// The mesh with `by` added to each point, and the same labels. `OutOfGrid` comes exactly where a coordinate would leave the grid, and then
/// before anything is made.
pub fn shift(alloc: Global, mesh: &Mesh, by: [i32; 3]) -> Result<Mesh, MakeFault>
    ensures refused { IsRefusedFor (moved_fault (map (shifted by) mesh.now.points)) result }
    ensures points { IfOk result (λ m. m.points ≡ map (shifted by) mesh.now.points) }
    ensures triples { IfOk result (λ m. m.triples ≡ mesh.now.triples) }
    ensures labels { IfOk result (λ m. m.labels ≡ mesh.now.labels) }
{
    moved(alloc, mesh, &GridMotion::Shift(by))
}

/// The mesh with each coordinate multiplied by the factor, and the same labels. `OutOfGrid` comes exactly where a coordinate would leave the
/// grid, and then before anything is made.
pub fn scale(alloc: Global, mesh: &Mesh, factor: u32) -> Result<Mesh, MakeFault>
    requires some { 1 ≤ factor }
    requires few { factor ≤ 1000000 }
    ensures refused { IsRefusedFor (moved_fault (map (scaled (pos factor)) mesh.now.points)) result }
    ensures points { IfOk result (λ m. m.points ≡ map (scaled (pos factor)) mesh.now.points) }
    ensures triples { IfOk result (λ m. m.triples ≡ mesh.now.triples) }
    ensures labels { IfOk result (λ m. m.labels ≡ mesh.now.labels) }
{
    moved(alloc, mesh, &GridMotion::Scale(factor))
}

/// The mesh with the other sign on one coordinate of each point, 0 to 2 for x to z, and with the last two vertices of each
/// triangle exchanged, so that the outside stays outside. The triangles keep their labels.
pub fn mirror(alloc: Global, mesh: &Mesh, axis: u8) -> Result<Mesh, NoMemory>
    requires { axis < 3 }
    ensures points { IfOk result (λ m. m.points ≡ map (mirrored axis) mesh.now.points) }
    ensures triples { IfOk result (λ m. m.triples ≡ map turned_over mesh.now.triples) }
    ensures labels { IfOk result (λ m. m.labels ≡ mesh.now.labels) }
{
    let points = mirrored_points(alloc, mesh.points(), axis)?;
    let triples = turned_triples(alloc, mesh.triples())?;
    with_labels_of(alloc, mesh, mesh_of(alloc, points, triples)?)
}

/// The mesh after a quarter turn about the axis x, y or z, 0 to 2: of (x, y, z) these make (x, -z, y), (z, y, -x) and
/// (-y, x, z). The triangles keep their labels.
pub fn quarter_turn(alloc: Global, mesh: &Mesh, axis: u8) -> Result<Mesh, NoMemory>
    requires { axis < 3 }
    ensures points { IfOk result (λ m. m.points ≡ map (quarter_turned axis) mesh.now.points) }
    ensures triples { IfOk result (λ m. m.triples ≡ mesh.now.triples) }
    ensures labels { IfOk result (λ m. m.labels ≡ mesh.now.labels) }
{
    let points = turned_points(alloc, mesh.points(), axis)?;
    with_points(alloc, mesh, points)
}

/// The mesh after a motion.
pub fn move_by(alloc: Global, mesh: &Mesh, motion: Motion) -> Result<Mesh, MakeFault>
    requires { IsMotion motion }
    ensures refused { IsRefusedFor (motion_fault motion mesh.now.points) result }
    ensures mesh { IfOk result (λ moved. moved ≡ moved_mesh motion mesh.now) }
{
    match motion {
        Motion::Shift(by) => shift(alloc, mesh, by),
        Motion::Scale(factor) => scale(alloc, mesh, factor),
        Motion::Mirror(axis) => Ok(mirror(alloc, mesh, axis)?),
        Motion::Turn(axis) => Ok(quarter_turn(alloc, mesh, axis)?),
    }
}

// The mesh after a motion that may leave the grid.
fn moved(alloc: Global, mesh: &Mesh, motion: &GridMotion) -> Result<Mesh, MakeFault>
    requires { IsSmall motion.now }
    ensures refused { IsRefusedFor (moved_fault (map (moves motion.now) mesh.now.points)) result }
    ensures points { IfOk result (λ m. m.points ≡ map (moves motion.now) mesh.now.points) }
    ensures triples { IfOk result (λ m. m.triples ≡ mesh.now.triples) }
    ensures labels { IfOk result (λ m. m.labels ≡ mesh.now.labels) }
{
    if !stay(mesh.points(), motion) {
        return Err(MakeFault::OutOfGrid);
    }
    let points = moved_points(alloc, mesh.points(), motion)?;
    Ok(with_points(alloc, mesh, points)?)
}

// The same triangles, with their twins and labels, over as many other points.
fn with_points(alloc: Global, mesh: &Mesh, points: Vec<Point>) -> Result<Mesh, NoMemory>
    requires { length points.items ≡ length mesh.now.points }
    ensures points { IfOk result (λ m. m.points ≡ points.items) }
    ensures triples { IfOk result (λ m. m.triples ≡ mesh.now.triples) }
    ensures labels { IfOk result (λ m. m.labels ≡ mesh.now.labels) }
{
    let twins = mesh.twins().clone()?;
    with_labels_of(alloc, mesh, Mesh::of_twins(points, twins))
}

// A mesh of empty labels with those of another with as many triangles, which both then share.
fn with_labels_of(alloc: Global, mesh: &Mesh, moved: Mesh) -> Result<Mesh, NoMemory>
    requires count { length moved.triples ≡ length mesh.now.triples }
    requires empty { moved.labels ≡ no_labels moved.triples }
    ensures points { IfOk result (λ m. m.points ≡ moved.points) }
    ensures triples { IfOk result (λ m. m.triples ≡ moved.triples) }
    ensures labels { IfOk result (λ m. m.labels ≡ mesh.now.labels) }
{
    match mesh.labels() {
        Some(labels) => Ok(moved.with_labels(labels.copy(alloc)?)),
        None => Ok(moved),
    }
}
