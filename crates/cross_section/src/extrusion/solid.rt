// The solid over an outline, of its filling.
ghost use Rattle.std.specs.Prelude.{◌≡◌, ◌≤◌, IfOk, length};
ghost use Rattle.std.specs.List.{All};
ghost use Rattle.mesh_terms.specs.Labels.{no_labels};
ghost use Rattle.mesh_terms.specs.Meshes.{IsAccepted, IsBelow, triples_of};
ghost use Rattle.mesh_terms.specs.Points.{IsOnGrid};
ghost use Rattle.outline_terms.specs.Extrusion.{extruded_points, extruded_triples};
ghost use Rattle.outline_terms.specs.Outlines.{IsBetween, most_vertices};

use crate::extrusion::heights::push_at;
use crate::extrusion::walls::{push_bottom, push_top, push_walls};
use halfedge::{TwinFault, Twins};
use mb_base::{NoMemory, Point};
use mesh_check::Mesh;
use std::alloc::Global;

/// The outline's points at the low height, then at the high one.
pub fn points_at(
    alloc: Global,
    points: &[Point],
    low: i32,
    high: i32,
) -> Result<Vec<Point>, NoMemory>
    requires low { IsOnGrid low }
    requires high { IsOnGrid high }
    ensures { IfOk result (λ all. all.items ≡ extruded_points low high points.now) }
{
    let mut all = Vec::new(alloc);
    push_at(&mut all, points, low)?;
    push_at(&mut all, points, high)?;
    Ok(all)
}

/// The filling turned over, the filling so many vertices later, and the walls.
pub fn triples_over(
    alloc: Global,
    fill: &[[u32; 3]],
    edges: &[(u32, u32)],
    count: u32,
) -> Result<Vec<[u32; 3]>, NoMemory>
    requires fill_below { All (IsBelow count) (triples_of fill.now) }
    requires between { All (IsBetween count) edges.now }
    requires few { count ≤ most_vertices }
    ensures { IfOk result (λ all. triples_of all.items ≡ extruded_triples count (triples_of fill.now) edges.now) }
{
    let mut all = Vec::new(alloc);
    push_bottom(&mut all, fill)?;
    push_top(&mut all, fill, count)?;
    push_walls(&mut all, edges, count)?;
    Ok(all)
}

/// The mesh of these points and triangles, with empty labels.
pub fn mesh_of(alloc: Global, points: Vec<Point>, triples: &[[u32; 3]]) -> Result<Mesh, NoMemory>
    requires { IsAccepted (length points.items) (triples_of triples.now) }
    ensures points { IfOk result (λ m. m.points ≡ points.items) }
    ensures triples { IfOk result (λ m. m.triples ≡ triples_of triples.now) }
    ensures labels { IfOk result (λ m. m.labels ≡ no_labels (triples_of triples.now)) }
{
    match Twins::of(alloc, triples) {
        Ok(twins) => Ok(Mesh::of_twins(points, twins)),
        Err(TwinFault::NoMemory) => Err(NoMemory),
        // The triangles are closed.
        Err(TwinFault::Open { .. }) => unreachable!(),
    }
}
