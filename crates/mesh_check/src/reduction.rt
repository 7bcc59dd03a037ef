// Reduced meshes.
//
// `reduce` looks for opposite triangles only where two half-edges run the same way or a half-edge's twin has the same
// third vertex; else there is nothing to remove, and the mesh is cloned. The triangles lie in buckets by their least
// vertices, as half-edges do by their lesser ends. Read from the least vertex on, those of a bucket whose second
// vertex is below the third make one list, and the rest, turned over, another. Both are sorted, and one walk along
// both takes away opposite triangles pair by pair. An operation asks by itself whether a mesh is plainly reduced
// (`is_plainly_reduced`), and then takes it as it is, without a copy. That test may say no of a mesh from which
// nothing goes, which costs time and a copy; so no clause says when it says yes.
ghost use Rattle.std.specs.Prelude.{◌≡◌, ◌≤◌, [], IfOk, IsTrue, length};
ghost use Rattle.mesh_terms.specs.Labels.{no_labels};
ghost use Rattle.mesh_terms.specs.Limits.{most_triangles};
ghost use Rattle.mesh_terms.specs.Meshes.{renumbered, triples_of};
ghost use Rattle.mesh_check.specs.Reduced.{kept_marks, kept_places, kept_triples, members_at, reduced, NoOpposite, picked};

use crate::cancel::uncancelled;
use crate::marks::{marked, marked_places, mesh_of_used, with_marked_labels};
use crate::mesh::Mesh;
use crate::opposites::has_no_opposites;
use mb_base::NoMemory;
use std::alloc::Global;

/// The mesh without the triangles that cancel: for each three vertices, those of the rarer orientation
/// are removed, and as many of the other, the first in order. Two triangles on the same vertices have
/// one orientation where one is a rotation of the other. Points that no triangle uses any more are
/// then dropped. The triangles and points that stay keep their order, and the triangles their labels.
/// `NoMemory` may come for any mesh.
/// Where no two half-edges run the same way and nothing is removed, it takes one pass over the
/// triangles and a copy. Otherwise it gathers the triangles by their least vertices and sorts those
/// gathered together: the time is linear where each vertex has few triangles, and at most that of
/// sorting them all.
pub fn reduce(alloc: Global, mesh: &Mesh) -> Result<Mesh, NoMemory>
    ensures points { IfOk result (λ m. m.points ≡ (reduced mesh.now.points mesh.now.triples mesh.now.labels).points) }
    ensures triples { IfOk result (λ m. m.triples ≡ (reduced mesh.now.points mesh.now.triples mesh.now.labels).triples) }
    ensures labels { IfOk result (λ m. m.labels ≡ (reduced mesh.now.points mesh.now.triples mesh.now.labels).labels) }
    ensures apart { IfOk result (λ m. NoOpposite m.triples) }
{
    if is_plainly_reduced(mesh) {
        return Ok(mesh.clone()?);
    }
    // Read so that what the type of the mesh keeps of them is known here.
    let _ = mesh.labels();
    let marks = uncancelled(alloc, mesh.triples())?;
    let triples = kept_triples(alloc, mesh, &marks)?;
    if triples.len() == mesh.triples().len() {
        return Ok(mesh.clone()?);
    }
    let kept = mesh_of_kept(alloc, mesh, triples)?;
    with_kept_labels(alloc, mesh, &marks, kept)
}

/// Whether one pass over the triangles shows that `reduce` removes nothing, so that the mesh can be taken as it is. Where two
/// half-edges run the same way the answer is false, even if nothing would be removed.
pub fn is_plainly_reduced(mesh: &Mesh) -> bool
    ensures points { IsTrue result → mesh.now.points ≡ (reduced mesh.now.points mesh.now.triples mesh.now.labels).points }
    ensures triples { IsTrue result → mesh.now.triples ≡ (reduced mesh.now.points mesh.now.triples mesh.now.labels).triples }
    ensures labels { IsTrue result → mesh.now.labels ≡ (reduced mesh.now.points mesh.now.triples mesh.now.labels).labels }
    ensures apart { IsTrue result → NoOpposite mesh.now.triples }
{
    // Read so that what the type of the mesh keeps of them is known here.
    let _ = mesh.labels();
    has_no_opposites(mesh.twins())
}

/// The places in a mesh of the triangles that `reduce` keeps, ascending, so that triangle k of the reduced mesh is the one at the
/// k-th of them, with its label; only the numbers of its points may be others. They are all places where nothing is removed.
/// `NoMemory` may come for any mesh. The time is that of `reduce`, whose marks they are.
pub fn kept_places(alloc: Global, mesh: &Mesh) -> Result<Vec<u32>, NoMemory>
    ensures places { IfOk result (λ places. places.items ≡ kept_places mesh.now.triples) }
    ensures triples { IfOk result (λ places. (reduced mesh.now.points mesh.now.triples mesh.now.labels).triples ≡
        renumbered (members_at (0, 0, 0) mesh.now.triples places.items)) }
    ensures labels { IfOk result (λ places. (reduced mesh.now.points mesh.now.triples mesh.now.labels).labels ≡ members_at [] mesh.now.labels places.items) }
{
    // Read so that what the type of the mesh keeps of them is known here.
    let _ = mesh.labels();
    if is_plainly_reduced(mesh) {
        return places_of_all(alloc, mesh);
    }
    let marks = uncancelled(alloc, mesh.triples())?;
    marked_places(alloc, &marks)
}

// The places of the kept triangles where none is removed: all of them.
fn places_of_all(alloc: Global, mesh: &Mesh) -> Result<Vec<u32>, NoMemory>
    requires { mesh.now.triples ≡ (reduced mesh.now.points mesh.now.triples mesh.now.labels).triples }
    ensures { IfOk result (λ places. places.items ≡ kept_places mesh.now.triples) }
{
    let marks = vec![in alloc; true; mesh.triples().len()]?;
    marked_places(alloc, &marks)
}

// The triangles that stay.
fn kept_triples(alloc: Global, mesh: &Mesh, marks: &[bool]) -> Result<Vec<[u32; 3]>, NoMemory>
    requires { marks.now ≡ kept_marks mesh.now.triples }
    ensures { IfOk result (λ kept. triples_of kept.items ≡ kept_triples mesh.now.triples) }
{
    marked(alloc, mesh.triples(), marks)
}

// The reduced mesh of the triples that stay, with empty labels.
fn mesh_of_kept(alloc: Global, mesh: &Mesh, triples: Vec<[u32; 3]>) -> Result<Mesh, NoMemory>
    requires { triples_of triples.items ≡ kept_triples mesh.now.triples }
    ensures points { IfOk result (λ m. m.points ≡ (reduced mesh.now.points mesh.now.triples mesh.now.labels).points) }
    ensures triples { IfOk result (λ m. m.triples ≡ (reduced mesh.now.points mesh.now.triples mesh.now.labels).triples) }
    ensures labels { IfOk result (λ m. m.labels ≡ no_labels (kept_triples mesh.now.triples)) }
{
    mesh_of_used(alloc, mesh.points(), triples)
}

// The reduced mesh, which has empty labels, with the labels of the triples that stay.
fn with_kept_labels(
    alloc: Global,
    mesh: &Mesh,
    marks: &[bool],
    kept: Mesh,
) -> Result<Mesh, NoMemory>
    requires marks { marks.now ≡ kept_marks mesh.now.triples }
    requires known { length marks.now ≤ most_triangles }
    requires count { length kept.triples ≡ length (kept_triples mesh.now.triples) }
    requires empty { kept.labels ≡ no_labels (kept_triples mesh.now.triples) }
    ensures points { IfOk result (λ m. m.points ≡ kept.points) }
    ensures triples { IfOk result (λ m. m.triples ≡ kept.triples) }
    ensures labels { IfOk result (λ m. m.labels ≡ picked (kept_marks mesh.now.triples) mesh.now.labels) }
{
    with_marked_labels(alloc, mesh, marks, kept)
}
