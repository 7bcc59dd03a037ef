// The components of a mesh, counted by the roots of a spanning forest.
ghost use Rattle.std.specs.Prelude.{◌≡◌, IfOk, length};
ghost use Rattle.chain_terms.specs.Chains.{all_edges};
ghost use Rattle.component_terms.specs.Components.{HasComponents};
ghost use Rattle.component_terms.specs.Counts.{component_count};
ghost use Rattle.spanning_forest.specs.Forests.{roots_of};

use mb_base::NoMemory;
use mesh_check::Mesh;
use spanning_forest::{Entrance, forest};
use std::alloc::Global;

/// How many components the mesh has: as many as a spanning forest of its vertices has roots.
pub fn components(alloc: Global, mesh: &Mesh) -> Result<u64, NoMemory>
    ensures components { IfOk result (λ n. HasComponents (length mesh.now.points) (all_edges mesh.now.triples) n) }
    ensures count { IfOk result (λ n. n ≡ component_count (length mesh.now.points) (all_edges mesh.now.triples)) }
{
    let entrances = forest(alloc, mesh.triples(), mesh.points().len())?;
    Ok(roots(&entrances))
}

// How many of the entrances are roots.
fn roots(entrances: &[Entrance]) -> u64
    ensures { result ≡ length (roots_of entrances.now) }
{
    entrances
        .iter()
        .filter(|entrance| matches!(**entrance, Entrance::Root(_)))
        .count() as u64
}
