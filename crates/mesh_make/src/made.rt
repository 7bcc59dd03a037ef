// Meshes of made points and triangles.
ghost use Rattle.std.specs.Prelude.{◌≡◌, Bool, IfOk, None, length};
ghost use Rattle.mesh_terms.specs.Labels.{no_labels};
ghost use Rattle.mesh_terms.specs.Meshes.{IsAccepted, triples_of};
ghost use Rattle.made_terms.specs.Refusals.{excess, solid_fault};
ghost use Rattle.mesh_make.specs.Refused.{IsRefusedFor, refusal};
ghost use Rattle.made_laws.specs.Solids.{IsSolid, AreFew, AreFine};

use crate::fault::MakeFault;
use crate::rows::{all_on_grid, push_points};
use halfedge::{TwinFault, Twins};
use mb_base::{Counted, Limits, NoMemory, Point, copied};
use mesh_check::Mesh;
use std::alloc::Global;

/// The mesh of these rows as points and of these triangles, which are closed: none where it would be flat, where a row
/// leaves the grid, or where there are more points or triangles than the limits allow, in this order.
pub fn solid(
    alloc: Global,
    flat: bool,
    rows: &[[i64; 3]],
    triples: &[[u32; 3]],
    limits: &Limits,
) -> Result<Mesh, MakeFault>
    requires { IsSolid (length rows.now) (triples_of triples.now) }
    ensures refused { IsRefusedFor (solid_fault flat limits.now rows.now (length triples.now)) result }
    ensures points { IfOk result (λ m. m.points ≡ rows.now) }
    ensures triples { IfOk result (λ m. m.triples ≡ triples_of triples.now) }
    ensures labels { IfOk result (λ m. m.labels ≡ no_labels (triples_of triples.now)) }
{
    if let Some(fault) = solid_fault(flat, rows, triples.len() as u64, limits) {
        return Err(fault);
    }
    Ok(solid_of(alloc, rows, triples)?)
}

// The mesh of these rows as points and of these triangles.
fn solid_of(alloc: Global, rows: &[[i64; 3]], triples: &[[u32; 3]]) -> Result<Mesh, NoMemory>
    requires solid { IsSolid (length rows.now) (triples_of triples.now) }
    requires fine { AreFine rows.now (length triples.now) }
    ensures points { IfOk result (λ m. m.points ≡ rows.now) }
    ensures triples { IfOk result (λ m. m.triples ≡ triples_of triples.now) }
    ensures labels { IfOk result (λ m. m.labels ≡ no_labels (triples_of triples.now)) }
{
    let mut points = Vec::with_capacity(alloc, rows.len())?;
    push_points(&mut points, rows)?;
    let triples = copied(alloc, triples)?;
    mesh_of(alloc, points, triples)
}

// Why these rows as points and so many triangles make no solid, which may be flat.
fn solid_fault(flat: bool, rows: &[[i64; 3]], triangles: u64, limits: &Limits) -> Option<MakeFault>
    ensures value { result ≡ refusal (solid_fault flat limits.now rows.now triangles) }
    ensures fine { result ≡ None → AreFine rows.now triangles }
{
    if flat {
        return Some(MakeFault::FlatSolid);
    }
    if !all_on_grid(rows) {
        return Some(MakeFault::OutOfGrid);
    }
    excess(limits, rows.len() as u64, triangles)
}

/// Which limit so many points and triangles exceed.
pub fn excess(limits: &Limits, points: u64, triangles: u64) -> Option<MakeFault>
    ensures value { result ≡ refusal (excess limits.now points triangles) }
    ensures few { result ≡ None → AreFew points triangles }
{
    if points > u64::from(limits.points()) {
        let what = Counted::Points;
        return Some(MakeFault::Over { what, seen: points });
    }
    if triangles > u64::from(limits.triangles()) {
        let what = Counted::Triangles;
        let seen = triangles;
        return Some(MakeFault::Over { what, seen });
    }
    None
}

/// The mesh of these points and triangles, which are closed.
pub fn mesh_of(alloc: Global, points: Vec<Point>, triples: Vec<[u32; 3]>) -> Result<Mesh, NoMemory>
    requires { IsAccepted (length points.items) (triples_of triples.items) }
    ensures points { IfOk result (λ m. m.points ≡ points.items) }
    ensures triples { IfOk result (λ m. m.triples ≡ triples_of triples.items) }
    ensures labels { IfOk result (λ m. m.labels ≡ no_labels (triples_of triples.items)) }
{
    match Twins::over(alloc, triples) {
        Ok(twins) => Ok(Mesh::of_twins(points, twins)),
        Err(TwinFault::NoMemory) => Err(NoMemory),
        // The triangles are closed.
        Err(TwinFault::Open { .. }) => unreachable!(),
    }
}
