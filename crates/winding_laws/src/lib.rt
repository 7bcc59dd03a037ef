//! Winding numbers under exact kernels, with what geometry says of them: the number of tetrahedra from an apex to the faces of a closed
//! mesh that contain the corner, positive ones less negative ones. It is the same from every apex of which the corner is clear, and a
//! corner in no closed face has such an apex. The calls are those of `winding`.
#![tactic(auto)]

ghost use Rattle.std.specs.Prelude.{◌≡◌, ◌+◌, ◌≤◌, IfOk};
ghost use Rattle.crossings.specs.Hits.{hits_of};
ghost use Rattle.side_terms.specs.Corners.{IsFineCorner};
ghost use Rattle.winding.specs.Windings.{components_of};
ghost use Rattle.winding_laws.specs.Solid.{AreSolid, IsSolid};

use edge_face::Crosses;
use exact_kernels::Exact;
use lean::Side;
use mb_base::{Corner, Hits, NoMemory, Steps, Windings};
use rounding::Rounding;
use std::alloc::Global;
use std::sync::ledger::Ledger;

/// The winding number of a corner of P in Q, as `winding_sum` gives it, under exact kernels.
pub fn exact_winding_sum<R: Rounding, L: Ledger>(
    p: &Corner,
    q: &Side,
    kernels: &Exact<R>,
    steps: &mut Steps<L>,
) -> i64
    requires { IsFineCorner p.now }
    ensures solid { IsSolid p.now q.now result }
    ensures cost { steps.new ≡ steps.old + 1 }
{
    // Read so that what sides keep is known here.
    let _ = q.twins();
    winding::winding_sum(p, q, kernels, steps)
}

/// The winding number of a corner of Q in P, as `winding_sum_back` gives it, under exact kernels.
pub fn exact_winding_sum_back<R: Rounding, L: Ledger>(
    p: &Side,
    q: &Corner,
    kernels: &Exact<R>,
    steps: &mut Steps<L>,
) -> i64
    requires { IsFineCorner q.now }
    ensures solid { IsSolid q.now p.now result }
    ensures cost { steps.new ≡ steps.old + 1 }
{
    // Read so that what sides keep is known here.
    let _ = p.twins();
    winding::winding_sum_back(p, q, kernels, steps)
}

/// The winding numbers of all corners of P in Q, and of Q in P, as `windings` gives them, under exact kernels.
pub fn exact_windings<R: Rounding, L: Ledger>(
    alloc: Global,
    p: &Side,
    q: &Side,
    hits: &Hits,
    kernels: &Exact<R>,
    steps: &mut Steps<L>,
) -> Result<Windings, NoMemory>
    requires x12 { hits.now.x12.items ≡ hits_of (⟦<Exact<R> as Crosses<2, 3>>⟧.crossing_of kernels.now) p.now q.now }
    requires x21 { hits.now.x21.items ≡ hits_of (λ edge face. ⟦<Exact<R> as Crosses<3, 2>>⟧.crossing_of kernels.now face edge) q.now p.now }
    ensures w03 { IfOk result (λ w. AreSolid p.now q.now w.w03.items) }
    ensures w30 { IfOk result (λ w. AreSolid q.now p.now w.w30.items) }
    ensures cost { steps.new ≤ steps.old + components_of p.now + components_of q.now }
{
    // Read so that what sides keep is known here.
    let _ = p.twins();
    let _ = q.twins();
    winding::windings(alloc, p, q, hits, kernels, steps)
}
