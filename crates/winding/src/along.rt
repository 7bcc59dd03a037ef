// How often the edges of a side cross the faces of the other, by the hits of these edges.
ghost use Rattle.std.specs.Prelude.{◌≡◌, ◌<◌, ◌≤◌, ◌*◌, ◌^◌, ◌==◌, nat_abs, IfOk, length, filter};
ghost use Rattle.std.specs.List.{All};
ghost use Rattle.std.specs.List.Sorted.{IsNonDecreasingBy};
ghost use Rattle.chain_terms.specs.Chains.{all_edges};
ghost use Rattle.winding.specs.Along.{AreCrossed, edge_total, half_total, hits_on};

use lean::Side;
use mb_base::{Hit, NoMemory};
use std::alloc::Global;

/// A mark for each triangle that has a hit on one of its edges.
pub fn crossed_triangles(alloc: Global, edges: &Side, hits: &[Hit]) -> Result<Vec<bool>, NoMemory>
    requires { All (λ h. h.edge < length (all_edges edges.now.triples)) hits.now }
    ensures { IfOk result (λ crossed. AreCrossed (all_edges edges.now.triples) hits.now crossed.items) }
{
    let mut crossed = vec![in alloc; false; edges.triples().len()]?;
    for hit in hits {
        crossed[hit.edge as usize / 3] = true;
        crossed[edges.twins().twin(hit.edge) as usize / 3] = true;
    }
    Ok(crossed)
}

/// The sum of a half-edge's numbers with all faces. The hits ascend by edge; they are looked through only where the
/// half-edge's triangle is marked.
pub fn crossings_along(edges: &Side, hits: &[Hit], crossed: &[bool], half: u32) -> i64
    requires half { half < length (all_edges edges.now.triples) }
    requires rise { IsNonDecreasingBy (λ h. h.edge) hits.now }
    requires few { length hits.now ≤ 2 ^ 55 }
    requires crossed { AreCrossed (all_edges edges.now.triples) hits.now crossed.now }
    ensures value { result ≡ half_total (all_edges edges.now.triples) hits.now half }
    ensures size { nat_abs result ≤ 2 ^ 62 }
{
    let twins = edges.twins();
    if !crossed[half as usize / 3] {
        return 0;
    }
    let twin = twins.twin(half);
    if half < twin {
        edge_total(hits, half)
    } else {
        -edge_total(hits, twin)
    }
}

// The sum of the numbers of an edge, which is named by its lower half-edge.
fn edge_total(hits: &[Hit], edge: u32) -> i64
    requires rise { IsNonDecreasingBy (λ h. h.edge) hits.now }
    requires few { length hits.now ≤ 2 ^ 55 }
    ensures value { result ≡ edge_total hits.now edge }
    ensures size { nat_abs result ≤ 2 ^ 62 }
{
    let mut sum: i64 = 0;
    for hit in hits_on(hits, edge) {
        sum += hit.number as i64;
    }
    sum
}

// The hits of an edge: a run of the list, which ascends by edge.
fn hits_on(hits: &[Hit], edge: u32) -> &[Hit]
    requires { IsNonDecreasingBy (λ h. h.edge) hits.now }
    ensures { result.now ≡ hits_on hits.now edge }
{
    let from = hits.partition_point(|hit| hit.edge < edge);
    let to = hits.partition_point(|hit| hit.edge <= edge);
    &hits[from..to]
}
