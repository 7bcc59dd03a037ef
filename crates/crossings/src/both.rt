// All hits of two sides.
ghost use Rattle.std.specs.Prelude.{◌≡◌, IfOk, length};
ghost use Rattle.chain_terms.specs.Chains.{all_edges};
ghost use Rattle.side_terms.specs.Hits.{AllCross, AreHits};
ghost use Rattle.crossings.specs.Hits.{hits_of};
ghost use Rattle.crossings.specs.Agreement.{PairsAgree};

use crate::hits::hits_of;
use crate::pairs::{PEdges, QEdges};
use edge_face::{Crosses, Kernels};
use lean::Side;
use mb_base::{Hits, NoMemory};
use std::alloc::Global;

/// The crossings of two sides: one hit for each edge of p and face of q whose number is not 0, and one for each edge of q
/// and face of p. An edge is named by its lower half-edge, the smaller of it and its twin, and taken in that direction.
/// Both lists ascend by edge, then face. A run of triangles near no face of the other side is passed over by one question
/// to its tree, so time goes mostly to the edges near one. `NoMemory` may come for any sides.
pub fn crossings<K: Kernels>(
    alloc: Global,
    p: &Side,
    q: &Side,
    kernels: &K,
) -> Result<Hits, NoMemory>
    ensures x12 { IfOk result (λ hits. hits.x12.items ≡ hits_of (⟦<K as Crosses<2, 3>>⟧.crossing_of kernels.now) p.now q.now) }
    ensures x21 { IfOk result (λ hits. hits.x21.items ≡ hits_of (λ edge face. ⟦<K as Crosses<3, 2>>⟧.crossing_of kernels.now face edge) q.now p.now) }

    // Each is named by its lower half-edge, in order, with a number from -2 to 2, which is not 0.
    ensures x12_listed { IfOk result (λ hits. AreHits (all_edges p.now.triples) (length q.now.triples) hits.x12.items) }
    ensures x21_listed { IfOk result (λ hits. AreHits (all_edges q.now.triples) (length p.now.triples) hits.x21.items) }
    ensures x12_cross { IfOk result (λ hits. AllCross hits.x12.items) }
    ensures x21_cross { IfOk result (λ hits. AllCross hits.x21.items) }

    // An upper half-edge has the number of its edge, turned. Round a face of p, the numbers with a face of q add up to
    // the same as round that face of q with this one.
    ensures pair_identity { IfOk result (λ hits. PairsAgree p.now q.now hits.x12.items hits.x21.items) }
{
    // Read so that what sides keep is known here.
    let _ = p.twins();
    let _ = q.twins();
    let x12 = hits_of(alloc, p, q, &PEdges(kernels))?;
    let x21 = hits_of(alloc, q, p, &QEdges(kernels))?;
    Ok(Hits { x12, x21 })
}
