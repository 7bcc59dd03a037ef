// Whether a mesh has one fan at each vertex, and the twins that its half-edges have over other vertices.
ghost use Rattle.std.specs.Prelude.{◌≡◌, ◌↔◌, ◌≤◌, IfOk, IsTrue, length, map};
ghost use Rattle.std.specs.List.{All};
ghost use Rattle.chain_terms.specs.Chains.{IsClosed, all_edges};
ghost use Rattle.mesh_boolean.specs.Results.{IsCleanOver};
ghost use Rattle.mesh_terms.specs.Limits.{most_triangles};
ghost use Rattle.mesh_terms.specs.Meshes.{HasThree, triples_of};
ghost use Rattle.mesh_terms.specs.Twins.{twins_of};
ghost use Rattle.pinch_split.specs.Back.{named_by};

use halfedge::{TwinFault, Twins};
use mb_base::NoMemory;
use mesh_check::Mesh;
use std::alloc::Global;

/// Whether each vertex of a mesh has one fan, and each half-edge the twin that it has in these triangles, which are its own with
/// their vertices named by other numbers.
pub fn is_clean_over(
    alloc: Global,
    mesh: &Mesh,
    from: &[u32],
    triples: &[[u32; 3]],
) -> Result<bool, NoMemory>
    requires named { triples_of triples.now ≡ map (named_by from.now) mesh.now.triples }
    requires three { All HasThree (triples_of triples.now) }
    ensures { IfOk result (λ yes. IsTrue yes ↔ IsCleanOver from.now mesh.now.triples) }
{
    if !mesh.twins().are_clean(alloc, mesh.points().len())? {
        return Ok(false);
    }
    let twins = closed_twins(alloc, triples)?;
    Ok(twins.twins() == mesh.twins().twins())
}

// The twins of closed triangles.
fn closed_twins(alloc: Global, triples: &[[u32; 3]]) -> Result<Twins, NoMemory>
    requires three { All HasThree (triples_of triples.now) }
    requires few { length triples.now ≤ most_triangles }
    requires closed { IsClosed (all_edges (triples_of triples.now)) }
    ensures { IfOk result (λ twins. twins.twins ≡ twins_of (triples_of triples.now)) }
{
    match Twins::of(alloc, triples) {
        Ok(twins) => Ok(twins),
        Err(TwinFault::NoMemory) => Err(NoMemory),
        Err(TwinFault::Open { .. }) => unreachable!(),
    }
}
