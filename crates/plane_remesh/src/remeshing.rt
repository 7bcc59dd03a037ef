// Remeshing.
ghost use Rattle.std.specs.Prelude.{◌≡◌, ℕ, ℤ, List, IfOk, IsErrOf, MatchOption, None, Some, false, length, true};
ghost use Rattle.made_terms.specs.Refusals.{Exceeds, excess};
ghost use Rattle.mb_base.specs.Faults.{counted_of};
ghost use Rattle.mb_base.specs.declared.fault.Counted.{Counted};
ghost use Rattle.mesh_terms.specs.Meshes.{IsAccepted};
ghost use Rattle.sheet_terms.specs.Remesh.{remeshed, with_points};
ghost use Rattle.plane_remesh.specs.declared.outcome.RemeshFault.{RemeshFault};
ghost use Rattle.plan_laws.specs.Placed.{placed_faces};
ghost use Rattle.plane_remesh.specs.Plans.{HasFilled, IsPlan, fills};
ghost use Rattle.plane_remesh.specs.Rules.{IsMade, IsRemeshed, makes};
ghost use Rattle.plane_remesh.specs.Surfaces.{IsSurface};

use crate::crossing_points::sorted_points;
use crate::labelling::{sources_of, with_labels_of};
use crate::made::fanned;
use crate::outcome::{RemeshFault, Remeshed, over};
use crate::plan::Plan;
use crate::surface::CutSurface;
use mb_base::{Limits, NoMemory};
use mesh_check::Mesh;
use plane_filling::Filled;
use std::alloc::Global;

/// The remeshed mesh, how many planes had triangles, and how many triangles were kept.
///
/// Points at one place are one; triangles that then repeat a place go. Each edge is cut at each place inside it. In each plane the triangles that face one side, less
/// those that face the other, say at each point how many sheets lie there, label by label: sheets that face each other go in pairs, and what stays of a stack is of the
/// label that came first. Each region of sheets is filled anew within its own boundary by the rule by which operations fill faces. So flat triangles, folds and
/// membranes go, and flush parts become one. Where edges of a plane cross in a point of the grid, edges are cut there first; where they cross beside it, the triangles
/// that have them are kept, each filled by itself, and counted. Places that all planes pass straight go. Where an edge has more than two triangles twins are told by the
/// angle round it, and each fan has its vertex, so that each directed edge is there once.
///
/// Where a filling were forced, a boundary didn't stay, or the new triangles weren't closed, which is nowhere seen, the answer is the mesh itself, with all its triangles
/// kept. `Over` comes only where the answer exceeds a limit, points asked first, and says which and how many there are; `NoMemory` for any mesh, and where more than
/// 60,000,000 places lie inside edges. Besides filling, the time is that of sorting points, edges and triangles, of searches in trees over places and over the edges of a
/// plane, and of the pairs of edges of a plane whose boxes meet.
pub fn remesh(alloc: Global, mesh: &Mesh, limits: &Limits) -> Result<Remeshed, RemeshFault>
    // The definition's mesh and numbers, within the limits; or what is over them.
    ensures remeshed { IfOk result (λ r. IsRemeshed r (remeshed mesh.now)) }
    ensures within { IfOk result (λ r. excess limits.now (length (remeshed mesh.now).mesh.points) (length (remeshed mesh.now).mesh.triples) ≡ None) }
    ensures over { (what : Counted) (seen : ℕ) → IsErrOf result (RemeshFault.Over what seen) →
        excess limits.now (length (remeshed mesh.now).mesh.points) (length (remeshed mesh.now).mesh.triples) ≡ Some (Exceeds (counted_of what) seen) }

    // What every mesh keeps.
    ensures accepted { IfOk result (λ r. IsAccepted (length r.mesh.points) r.mesh.triples) }
{
    let remeshed = remeshed(alloc, mesh)?;
    let points = remeshed.mesh.points().len() as u64;
    let triangles = remeshed.mesh.triples().len() as u64;
    if let Some(fault) = over(limits, points, triangles) {
        return Err(fault);
    }
    Ok(remeshed)
}

// The same, whatever the limits.
fn remeshed(alloc: Global, mesh: &Mesh) -> Result<Remeshed, NoMemory>
    ensures { IfOk result (λ r. IsRemeshed r (remeshed mesh.now)) }
{
    let surface = CutSurface::of(alloc, mesh, &[])?;
    let plan = Plan::of(alloc, &surface)?;
    if plan.found.is_empty() {
        return outcome(alloc, mesh, &surface, &plan);
    }
    let more = sorted_points(alloc, plan.found)?;
    let surface = CutSurface::of(alloc, mesh, &more)?;
    let plan = Plan::of(alloc, &surface)?;
    outcome(alloc, mesh, &surface, &plan)
}

// What the plan of a surface gives.
fn outcome(
    alloc: Global,
    mesh: &Mesh,
    surface: &CutSurface,
    plan: &Plan,
) -> Result<Remeshed, NoMemory>
    requires { (points : List (List ℤ)) × IsSurface points (placed_faces points mesh.now) surface.now × IsPlan points (placed_faces points mesh.now) plan.now }
    ensures { (points : List (List ℤ)) → IsSurface points (placed_faces points mesh.now) surface.now → IsPlan points (placed_faces points mesh.now) plan.now →
        IfOk result (λ r. IsRemeshed r (with_points mesh.now points)) }
{
    let planes = surface.planes.count as u64;
    match planned(alloc, mesh, surface, plan)? {
        Some(new) => Ok(Remeshed {
            mesh: new,
            planes,
            kept: plan.kept,
        }),
        None => as_it_was(mesh, planes),
    }
}

// The mesh as it was.
fn as_it_was(mesh: &Mesh, planes: u64) -> Result<Remeshed, NoMemory>
    ensures mesh { IfOk result (λ r. r.mesh ≡ mesh.now) }
    ensures planes { IfOk result (λ r. r.planes ≡ planes) }
    ensures kept { IfOk result (λ r. r.kept ≡ length mesh.now.triples) }
{
    let kept = mesh.triples().len() as u64;
    match mesh.clone() {
        Ok(mesh) => Ok(Remeshed { mesh, planes, kept }),
        Err(_) => Err(NoMemory),
    }
}

// The mesh that a plan gives. None where it isn't sound.
fn planned(
    alloc: Global,
    mesh: &Mesh,
    surface: &CutSurface,
    plan: &Plan,
) -> Result<Option<Mesh>, NoMemory>
    requires { (points : List (List ℤ)) × IsSurface points (placed_faces points mesh.now) surface.now × IsPlan points (placed_faces points mesh.now) plan.now }
    ensures { (points : List (List ℤ)) → IsSurface points (placed_faces points mesh.now) surface.now → IsPlan points (placed_faces points mesh.now) plan.now →
        IfOk result (λ made. MatchOption made (makes points mesh.now ≡ false) (λ new. (makes points mesh.now ≡ true) × IsMade points mesh.now new)) }
{
    match plan.filled(alloc, surface)? {
        Some(filled) => made_of(alloc, mesh, surface, filled),
        None => Ok(None),
    }
}

// The mesh of the triangles with which planes are filled. None where they aren't closed.
fn made_of(
    alloc: Global,
    mesh: &Mesh,
    surface: &CutSurface,
    filled: Filled,
) -> Result<Option<Mesh>, NoMemory>
    requires { (points : List (List ℤ)) × IsSurface points (placed_faces points mesh.now) surface.now × HasFilled points (placed_faces points mesh.now) filled
        × (fills points (placed_faces points mesh.now) ≡ true) }
    ensures { (points : List (List ℤ)) → IsSurface points (placed_faces points mesh.now) surface.now → HasFilled points (placed_faces points mesh.now) filled →
        fills points (placed_faces points mesh.now) ≡ true →
        IfOk result (λ made. MatchOption made (makes points mesh.now ≡ false) (λ new. (makes points mesh.now ≡ true) × IsMade points mesh.now new)) }
{
    let sources = sources_of(alloc, &surface.over.sources, &filled.labels)?;
    match fanned(alloc, &surface.over.points, filled.triples)? {
        Some(made) => Ok(Some(with_labels_of(alloc, made, mesh, &sources)?)),
        None => Ok(None),
    }
}
