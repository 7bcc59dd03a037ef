// The winding numbers of all corners of two sides.
ghost use Rattle.std.specs.Prelude.{◌≡◌, ◌≤◌, ◌+◌, nat_abs, IfOk, OnOk, length, map};
ghost use Rattle.std.specs.List.{All};
ghost use Rattle.crossings.specs.Hits.{hits_of};
ghost use Rattle.winding.specs.Windings.{components_of, winding, winding_back, EdgesConserve};

use crate::shadows::{PVertices, QVertices};
use crate::walk::corner_windings;
use crossings::{PEdges, QEdges};
use edge_face::{Crosses, Kernels};
use lean::Side;
use mb_base::{Hits, NoMemory, Steps, Windings};
use shadow_kernels::Meets;
use std::alloc::Global;
use std::sync::ledger::Ledger;

/// The winding numbers of all corners of P in Q, and of Q in P. The hits are those of `crossings` for the same sides and
/// kernels: along every edge the winding number changes by minus the edge's numbers with all faces. At most one step
/// is counted for each connected component of either mesh. `NoMemory` may come for any sides.
pub fn windings<K: Kernels, L: Ledger>(
    alloc: Global,
    p: &Side,
    q: &Side,
    hits: &Hits,
    kernels: &K,
    steps: &mut Steps<L>,
) -> Result<Windings, NoMemory>
    requires x12 { hits.now.x12.items ≡ hits_of (⟦<K as Crosses<2, 3>>⟧.crossing_of kernels.now) p.now q.now }
    requires x21 { hits.now.x21.items ≡ hits_of (λ edge face. ⟦<K as Crosses<3, 2>>⟧.crossing_of kernels.now face edge) q.now p.now }
    ensures w03 { IfOk result (λ w. w.w03.items ≡ map (λ c. winding (⟦<K as Meets<1, 3>>⟧.meet_of kernels.now) c q.now) p.now.corners) }
    ensures w30 { IfOk result (λ w. w.w30.items ≡ map (λ c. winding_back (⟦<K as Meets<3, 1>>⟧.meet_of kernels.now) p.now c) q.now.corners) }

    // Along every half-edge, on the numbers that the hits give.
    ensures p_edge_identity { IfOk result (λ w. EdgesConserve p.now q.now w.w03.items hits.now.x12.items) }
    ensures q_edge_identity { IfOk result (λ w. EdgesConserve q.now p.now w.w30.items hits.now.x21.items) }

    ensures p_size { IfOk result (λ w. All (λ n. nat_abs n ≤ length q.now.triples) w.w03.items) }
    ensures q_size { IfOk result (λ w. All (λ n. nat_abs n ≤ length p.now.triples) w.w30.items) }
    ensures cost { steps.new ≤ steps.old + components_of p.now + components_of q.now }
{
    // Read so that what sides keep is known here.
    let _ = p.twins();
    let _ = q.twins();
    let w03 = corner_windings(
        alloc,
        p,
        q,
        &hits.x12,
        &PVertices(kernels),
        &PEdges(kernels),
        steps,
    )?;
    let w30 = corner_windings(
        alloc,
        q,
        p,
        &hits.x21,
        &QVertices(kernels),
        &QEdges(kernels),
        steps,
    )?;
    Ok(Windings { w03, w30 })
}
