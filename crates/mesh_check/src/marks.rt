// Meshes of some of a mesh's triangles, each of which has a mark.
ghost use Rattle.std.specs.Prelude.{◌≡◌, ◌≤◌, IfOk, length};
ghost use Rattle.chain_terms.specs.Chains.{all_edges, IsClosed};
ghost use Rattle.chain_terms.specs.Sums.{upto};
ghost use Rattle.mesh_terms.specs.Labels.{no_labels};
ghost use Rattle.mesh_terms.specs.Limits.{most_triangles};
ghost use Rattle.mesh_terms.specs.Meshes.{renumbered, triples_of, used_from};
ghost use Rattle.mesh_check.specs.Reduced.{picked};
ghost use Rattle.unused_points.specs.Used.{IsSound};

use crate::mesh::{Mesh, MeshFault};
use mb_base::{Labels, NoMemory, Point};
use std::alloc::Global;
use unused_points::without_unused;

/// The mesh of these points and triples, with empty labels: the points that no triple uses are dropped. `NoMemory` may come for
/// any.
pub fn mesh_of_used(
    alloc: Global,
    points: &[Point],
    triples: Vec<[u32; 3]>,
) -> Result<Mesh, NoMemory>
    requires sound { IsSound (length points.now) (triples_of triples.items) }
    requires closed { IsClosed (all_edges (triples_of triples.items)) }
    ensures points { IfOk result (λ m. m.points ≡ used_from (triples_of triples.items) 0 points.now) }
    ensures triples { IfOk result (λ m. m.triples ≡ renumbered (triples_of triples.items)) }
    ensures labels { IfOk result (λ m. m.labels ≡ no_labels (triples_of triples.items)) }
{
    let points = points.to_vec(alloc)?;
    let soup = without_unused(alloc, points, triples)?;
    match Mesh::check(alloc, soup) {
        Ok(mesh) => Ok(mesh),
        Err(MeshFault::NoMemory) => Err(NoMemory),
        Err(MeshFault::OpenEdge { .. }) => unreachable!(),
    }
}

/// A mesh of the triangles with a mark, which has empty labels, with the labels that they have in the whole mesh. `NoMemory`
/// may come for any.
pub fn with_marked_labels(
    alloc: Global,
    whole: &Mesh,
    marks: &[bool],
    kept: Mesh,
) -> Result<Mesh, NoMemory>
    requires marks { length marks.now ≡ length whole.now.triples }
    requires known { length marks.now ≤ most_triangles }
    requires count { length kept.triples ≡ length (picked marks.now whole.now.triples) }
    requires empty { kept.labels ≡ no_labels (picked marks.now whole.now.triples) }
    ensures points { IfOk result (λ m. m.points ≡ kept.points) }
    ensures triples { IfOk result (λ m. m.triples ≡ kept.triples) }
    ensures labels { IfOk result (λ m. m.labels ≡ picked marks.now whole.now.labels) }
{
    match whole.labels() {
        Some(labels) => Ok(kept.with_labels(marked_labels(alloc, labels, marks)?)),
        None => Ok(kept),
    }
}

/// The triples with a mark, in their order. `NoMemory` may come for any.
pub fn marked(
    alloc: Global,
    triples: &[[u32; 3]],
    marks: &[bool],
) -> Result<Vec<[u32; 3]>, NoMemory>
    requires { length marks.now ≡ length triples.now }
    ensures { IfOk result (λ kept. triples_of kept.items ≡ picked marks.now (triples_of triples.now)) }
{
    let mut kept = Vec::new(alloc);
    for (place, triple) in triples.iter().enumerate() {
        if marks[place] {
            kept.push(*triple)?;
        }
    }
    Ok(kept)
}

/// The places with a mark, ascending. `NoMemory` may come for any.
pub fn marked_places(alloc: Global, marks: &[bool]) -> Result<Vec<u32>, NoMemory>
    requires { length marks.now ≤ most_triangles }
    ensures { IfOk result (λ places. places.items ≡ picked marks.now (upto (length marks.now))) }
{
    let mut places = Vec::new(alloc);
    for place in 0..marks.len() {
        if marks[place] {
            places.push(place as u32)?;
        }
    }
    Ok(places)
}

// The labels with a mark. Those past the end of the list, which are empty, end the new list too.
fn marked_labels(alloc: Global, labels: &Labels, marks: &[bool]) -> Result<Labels, NoMemory>
    requires few { length labels.now ≤ length marks.now }
    requires known { length marks.now ≤ most_triangles }
    ensures { IfOk result (λ kept. kept ≡ picked marks.now labels.now) }
{
    let mut kept = Labels::start(alloc);
    for place in 0..labels.len() {
        if marks[place] {
            kept.push(labels.get(place as u32))?;
        }
    }
    Ok(kept)
}
