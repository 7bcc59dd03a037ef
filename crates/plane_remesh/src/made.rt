// Meshes of new triangles.
ghost use Rattle.std.specs.Prelude.{◌≡◌, ◌≤◌, IfOk, MatchOption, false, length, true};
ghost use Rattle.std.specs.List.{All};
ghost use Rattle.chain_terms.specs.Chains.{all_edges};
ghost use Rattle.mesh_terms.specs.Limits.{most_points};
ghost use Rattle.mesh_terms.specs.Meshes.{HasThree, IsBelow, triples_of};
ghost use Rattle.sheet_terms.specs.Remesh.{is_closed};
ghost use Rattle.unused_points.specs.Used.{IsSound};
ghost use Rattle.plane_remesh.specs.Rules.{IsFanned, IsOfUsed, IsParted};

use angle_pairing::{Parted, part_fans};
use mb_base::{MOST_TRIANGLES, NoMemory, Point};
use mesh_check::{Mesh, MeshFault};
use std::alloc::Global;
use unused_points::without_unused;

/// The mesh of triangles over places with one vertex for each fan, and empty labels. None where the triangles aren't closed. `NoMemory` also comes where there are more
/// triangles than any mesh has.
pub fn fanned(
    alloc: Global,
    points: &[Point],
    triples: Vec<[u32; 3]>,
) -> Result<Option<Mesh>, NoMemory>
    requires points { length points.now ≤ most_points }
    requires three { All HasThree (triples_of triples.items) }
    requires below { All (IsBelow (length points.now)) (triples_of triples.items) }
    ensures { let closed = is_closed (all_edges (triples_of triples.items)) in
        IfOk result (λ made. MatchOption made (closed ≡ false) (λ m. (closed ≡ true) × IsFanned points.now (triples_of triples.items) m)) }
{
    if triples.len() > MOST_TRIANGLES as usize {
        return Err(NoMemory);
    }
    match closed_mesh(alloc, points, triples)? {
        Some(closed) => Ok(Some(with_fans(alloc, &closed)?)),
        None => Ok(None),
    }
}

// The mesh of triangles over the points that they use. None where they aren't closed.
fn closed_mesh(
    alloc: Global,
    points: &[Point],
    triples: Vec<[u32; 3]>,
) -> Result<Option<Mesh>, NoMemory>
    requires { IsSound (length points.now) (triples_of triples.items) }
    ensures { let closed = is_closed (all_edges (triples_of triples.items)) in
        IfOk result (λ made. MatchOption made (closed ≡ false) (λ m. (closed ≡ true) × IsOfUsed points.now (triples_of triples.items) m)) }
{
    let points = points.to_vec(alloc)?;
    let soup = without_unused(alloc, points, triples)?;
    match Mesh::check(alloc, soup) {
        Ok(mesh) => Ok(Some(mesh)),
        Err(MeshFault::OpenEdge { .. }) => Ok(None),
        Err(MeshFault::NoMemory) => Err(NoMemory),
    }
}

// A mesh with one vertex for each fan, whose twins are told by the angle round their edge, and empty labels.
fn with_fans(alloc: Global, made: &Mesh) -> Result<Mesh, NoMemory>
    ensures { IfOk result (IsParted made.now.points made.now.triples) }
{
    let Parted { points, triples } = part_fans(alloc, made.points(), made.triples())?;
    match closed_mesh(alloc, &points, triples)? {
        Some(mesh) => Ok(mesh),
        None => unreachable!(),
    }
}
