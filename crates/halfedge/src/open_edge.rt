// The least open edge, found by sorting all half-edges.
ghost use Rattle.std.specs.Prelude.{◌≡◌, ◌≤◌, IfOk, length, map};
ghost use Rattle.chain_terms.specs.Chains.{all_edges};
ghost use Rattle.mesh_terms.specs.Limits.{most_triangles};
ghost use Rattle.mesh_terms.specs.Meshes.{triples_of};
ghost use Rattle.mesh_terms.specs.OpenEdges.{open_pair};
ghost use Rattle.halfedge.specs.Pairing.{numbered, turned};

use crate::surplus::least_surplus;
use crate::ways::Half;
use mb_base::NoMemory;
use std::alloc::Global;

/// The least edge, by its start and then by its end, that runs more often one way than back; none
/// where the triangles are closed. It sorts all half-edges, so it is called only where they are not.
pub fn least_open_edge(alloc: Global, triples: &[[u32; 3]]) -> Result<Option<(u32, u32)>, NoMemory>
    requires { length triples.now ≤ most_triangles }
    ensures { IfOk result (λ r. r ≡ open_pair (all_edges (triples_of triples.now))) }
{
    let mut edges = numbered_edges(alloc, triples)?;
    let mut back = turned_edges(alloc, &edges)?;
    edges.sort_unstable();
    back.sort_unstable();
    Ok(least_surplus(&edges, &back))
}

// The half-edges of the triangles in order.
fn numbered_edges(alloc: Global, triples: &[[u32; 3]]) -> Result<Vec<Half>, NoMemory>
    requires { length triples.now ≤ most_triangles }
    ensures { IfOk result (λ edges. edges.items ≡ numbered 0 (all_edges (triples_of triples.now))) }
{
    let mut edges = Vec::with_capacity(alloc, 3 * triples.len())?;
    let mut half = 0;
    for [a, b, c] in triples {
        edges.extend_from_slice(&[(*a, *b, half), (*b, *c, half + 1), (*c, *a, half + 2)])?;
        half += 3;
    }
    Ok(edges)
}

// Each half-edge the other way round, with its number.
fn turned_edges(alloc: Global, edges: &[Half]) -> Result<Vec<Half>, NoMemory>
    ensures { IfOk result (λ back. back.items ≡ map turned edges.now) }
{
    let mut back = Vec::with_capacity(alloc, edges.len())?;
    for (from, to, half) in edges {
        back.push((*to, *from, *half))?;
    }
    Ok(back)
}
