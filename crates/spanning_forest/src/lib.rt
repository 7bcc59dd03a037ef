//! A spanning forest of the vertices of closed triangles: every vertex once, the first of each connected component as a
//! root, every other one as the end of a half-edge whose start comes before it. What is known at the roots can so be
//! carried along half-edges to all vertices, and the roots count the components.
#![tactic(auto)]

ghost use Rattle.std.specs.Prelude.{IfOk, OnOk, length};
ghost use Rattle.chain_terms.specs.Chains.{all_edges};
ghost use Rattle.mesh_terms.specs.Meshes.{triples_of, IsAccepted};
ghost use Rattle.spanning_forest.specs.Forests.{IsSpanningForest};
ghost use Rattle.spanning_forest.specs.Walks.{AreBegun};

mod entrance;
mod passes;
mod walk;

pub use entrance::Entrance;
use mb_base::NoMemory;
use passes::enter_first;
use places_by_key::Buckets;
use std::alloc::Global;
use walk::{enter_component, leave_all};

/// A spanning forest of the vertices of a closed mesh, which has so many points: component after component, by the least
/// vertex of each. The triangles are read in their order first, a few times there and back, and the vertices of each that
/// has one which was entered are entered along its edges: as a rule these are all of the first component, and memory is
/// read in order. What is left is entered breadth first. It takes time and memory in proportion to the points and
/// triangles. `NoMemory` may come for any mesh.
pub fn forest(alloc: Global, triples: &[[u32; 3]], points: usize) -> Result<Vec<Entrance>, NoMemory>
    requires { IsAccepted points (triples_of triples.now) }
    ensures { IfOk result (λ entrances. IsSpanningForest points (all_edges (triples_of triples.now)) entrances.items) }
{
    let mut seen = vec![in alloc; false; points]?;
    let mut entrances = Vec::with_capacity(alloc, points)?;
    if points == 0 {
        return Ok(entrances);
    }
    enter_first(triples, &mut seen, &mut entrances)?;
    if entrances.len() >= points {
        return Ok(entrances);
    }
    enter_rest(alloc, triples, &mut seen, &mut entrances)?;
    Ok(entrances)
}

// Enters what is joined to the vertices that were entered, and after it all other components.
fn enter_rest(
    alloc: Global,
    triples: &[[u32; 3]],
    seen: &mut [bool],
    entrances: &mut Vec<Entrance>,
) -> Result<(), NoMemory>
    requires accepted { IsAccepted (length seen.old) (triples_of triples.now) }
    requires begun { AreBegun (all_edges (triples_of triples.now)) (length seen.old) seen.old entrances.old.items }
    ensures { OnOk result (IsSpanningForest (length seen.old) (all_edges (triples_of triples.now)) entrances.new.items) }
{
    // The triples, one after the other, are the starts of the half-edges.
    let spokes = Buckets::by_key(alloc, triples.as_flattened(), seen.len())?;
    leave_all(triples, &spokes, seen, entrances, 0)?;
    for vertex in 1..seen.len() {
        if !seen[vertex] {
            enter_component(triples, &spokes, seen, entrances, vertex as u32)?;
        }
    }
    Ok(())
}
