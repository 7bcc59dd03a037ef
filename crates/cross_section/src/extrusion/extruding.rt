// Extruding an outline.
ghost use Rattle.std.specs.Prelude.{◌≡◌, ◌≤◌, ◌+◌, ◌*◌, ◌*ℤ◌, ◌-ℤ◌, pos, IfOk, IfSome, IsErrOf, None, length};
ghost use Rattle.mesh_terms.specs.Labels.{no_labels};
ghost use Rattle.mesh_terms.specs.Limits.{most_triangles};
ghost use Rattle.mesh_terms.specs.Points.{IsOnGrid};
ghost use Rattle.mesh_terms.specs.Volume.{volume6_of};
ghost use Rattle.outline_terms.specs.Extrusion.{extruded_points, extruded_triples};
ghost use Rattle.outline_terms.specs.Outlines.{outline_edges};
ghost use Rattle.cross_section.specs.Extruded.{AreOver, IsRefusedFor, doubled_area, extruded, extrusion_fault, filling_of, flat_or_over, over};

use crate::extrusion::fault::ExtrudeFault;
use crate::extrusion::solid::{mesh_of, points_at, triples_over};
use mb_base::{Counted, Limits, NoMemory};
use mesh_check::Mesh;
use outlines::Outline;
use std::alloc::Global;
use triangulate::{FacePlane, Filled, fill};

/// A solid, and how many triangles its filling was forced to make.
#[derive(Drop)]
pub struct Extruded {
    pub mesh: Mesh,
    pub forced: u64,
}

/// The solid between the outline at a low height and at a high one, in grid steps: its filling at the low height, turned
/// over, then at the high one, then two triangles over each edge, all with empty labels. Its points are the outline's at
/// the low height, then at the high one.
///
/// `FlatSolid` comes exactly where the low height is not below the high one, and `Over` only where that does not stand and
/// the solid exceeds a limit, points asked first: of points always, of triangles where there is memory to fill the outline.
/// `NoMemory` may come for any outline otherwise. Besides that of `fill` and of the twins the time is linear in the points.
pub fn extrude(
    alloc: Global,
    outline: &Outline,
    low: i32,
    high: i32,
    limits: &Limits,
) -> Result<Extruded, ExtrudeFault>
    requires low { IsOnGrid low }
    requires high { IsOnGrid high }
    ensures refused { IsRefusedFor (extrusion_fault limits.now outline.now low high) result }
    ensures at_once { IfSome (flat_or_over limits.now low high (2 * length outline.now.points)) (λ why. IsErrOf result why) }
    ensures mesh { IfOk result (λ e. e.mesh ≡ extruded outline.now low high) }
    ensures forced { IfOk result (λ e. e.forced ≡ (filling_of outline.now).forced) }
    ensures volume { IfOk result (λ e. volume6_of e.mesh.points e.mesh.triples ≡ pos 3 *ℤ ((high -ℤ low) *ℤ doubled_area outline.now)) }
{
    let count = outline.points().len() as u64;
    if let Some(fault) = flat_or_over(limits, low, high, 2 * count) {
        return Err(fault);
    }
    let filled = filled_loops(alloc, outline)?;
    let triangles = 2 * (filled.triples.len() as u64 + count);
    if let Some(fault) = over(Counted::Triangles, limits.triangles(), triangles) {
        return Err(fault);
    }
    let mesh = solid(alloc, outline, low, high, &filled)?;
    let forced = filled.forced;
    Ok(Extruded { mesh, forced })
}

// Why there is no solid of so many points between two heights.
fn flat_or_over(limits: &Limits, low: i32, high: i32, points: u64) -> Option<ExtrudeFault>
    ensures { result ≡ flat_or_over limits.now low high points }
{
    if low >= high {
        return Some(ExtrudeFault::FlatSolid);
    }
    over(Counted::Points, limits.points(), points)
}

// A count that exceeds its limit.
fn over(what: Counted, most: u32, seen: u64) -> Option<ExtrudeFault>
    ensures value { result ≡ over what most seen }
    ensures few { result ≡ None → seen ≤ most }
{
    if seen > u64::from(most) {
        return Some(ExtrudeFault::Over { what, seen });
    }
    None
}

// The filling of the outline's loops.
fn filled_loops(alloc: Global, outline: &Outline) -> Result<Filled, NoMemory>
    ensures value { IfOk result (λ f. f ≡ filling_of outline.now) }
    ensures over { IfOk result (λ f. AreOver outline.now f.triples) }
    ensures few { IfOk result (λ f. length f.triples ≤ 3 * length outline.now.points) }
{
    let filled = fill(
        alloc,
        FacePlane { drop: 2 },
        outline.loops(),
        outline.points(),
    )?;
    Ok(filled)
}

// The solid of the filling.
fn solid(
    alloc: Global,
    outline: &Outline,
    low: i32,
    high: i32,
    filled: &Filled,
) -> Result<Mesh, NoMemory>
    requires low { IsOnGrid low }
    requires high { IsOnGrid high }
    requires over { AreOver outline.now filled.now.triples }
    requires few { 2 * (length filled.now.triples + length outline.now.points) ≤ most_triangles }
    ensures points { IfOk result (λ m. m.points ≡ extruded_points low high outline.now.points) }
    ensures triples { IfOk result (λ m. m.triples ≡ extruded_triples (length outline.now.points) filled.now.triples (outline_edges outline.now)) }
    ensures labels { IfOk result (λ m. m.labels ≡ no_labels m.triples) }
    ensures volume { IfOk result (λ m. volume6_of m.points m.triples ≡ pos 3 *ℤ ((high -ℤ low) *ℤ doubled_area outline.now)) }
{
    let count = outline.points().len() as u32;
    let edges = outline.edges(alloc)?;
    let points = points_at(alloc, outline.points(), low, high)?;
    let triples = triples_over(alloc, &filled.triples, &edges, count)?;
    mesh_of(alloc, points, &triples)
}
