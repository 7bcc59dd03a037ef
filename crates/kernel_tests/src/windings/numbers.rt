// The hits and winding numbers of two sides.
ghost use Rattle.std.specs.Prelude.{◌≡◌, ◌<◌, IfOk};
ghost use Rattle.crossings.specs.Agreement.{PairsAgree};
ghost use Rattle.winding.specs.Windings.{EdgesConserve};

use crossings::crossings;
use edge_face::Kernels;
use lean::Side;
use mb_base::{Hits, Steps, Windings};
use std::alloc::Global;
use std::sync::ledger::{Blank, Ledger};
use std::test::Fail;
use winding::windings;

/// The hits and winding numbers of two sides. For any lawful kernels they agree: a face of each side has one sum of
/// crossings, round either, and along every half-edge the winding number changes by minus its numbers with all faces.
pub fn numbers_of<K: Kernels, L: Ledger>(
    alloc: Global,
    p: &Side,
    q: &Side,
    kernels: &K,
    blank: Blank,
) -> Result<(Hits, Windings), Fail>
    requires name { blank.name ≡ L.name }
    requires parts { blank.parts ≡ L.parts }
    requires some { 0 < blank.parts }
    ensures pairs { IfOk result (λ r. PairsAgree p.now q.now r.0.x12.items r.0.x21.items) }
    ensures p_edges { IfOk result (λ r. EdgesConserve p.now q.now r.1.w03.items r.0.x12.items) }
    ensures q_edges { IfOk result (λ r. EdgesConserve q.now p.now r.1.w30.items r.0.x21.items) }
{
    let mut steps = Steps::<L>::over(blank);
    let hits = crossings(alloc, p, q, kernels)?;
    let windings = windings(alloc, p, q, &hits, kernels, &mut steps)?;
    Ok((hits, windings))
}
