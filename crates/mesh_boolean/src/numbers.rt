// The numbers of two sides.
ghost use Rattle.std.specs.Prelude.{◌≡◌, ◌≤◌, ◌+◌, IfOk};
ghost use Rattle.mesh_boolean.specs.Assembly.{AreNumbers};
ghost use Rattle.mesh_boolean.specs.Operation.{numbers_of};
ghost use Rattle.retained_verts.specs.Handed.{numbers};
ghost use Rattle.winding.specs.Windings.{components_of};

use crate::tested::Tested;
use crossings::crossings;
use edge_face::Kernels;
use lean::Side;
use mb_base::{Hits, NoMemory, Steps, Windings};
use std::alloc::Global;
use std::sync::ledger::Ledger;
use winding::windings;

/// The winding numbers of all corners of two sides and the crossings of their edges and faces. The winding numbers change
/// along every half-edge by its signed crossings. `NoMemory` may come for any sides.
pub fn all_numbers<K: Kernels, L: Ledger>(
    alloc: Global,
    p: &Side,
    q: &Side,
    kernels: &K,
    steps: &mut Steps<L>,
) -> Result<(Windings, Hits), NoMemory>
    ensures value { IfOk result (λ r. numbers r.0 r.1 ≡ numbers_of (⟦<K as Tested>⟧.tests kernels.now) p.now q.now) }
    ensures known { IfOk result (λ r. AreNumbers p.now q.now r.0 r.1) }
    ensures cost { steps.new ≤ steps.old + components_of p.now + components_of q.now }
{
    // Read so that what sides keep is known here.
    let _ = p.twins();
    let _ = q.twins();
    let hits = crossings(alloc, p, q, kernels)?;
    let windings = windings(alloc, p, q, &hits, kernels, steps)?;
    Ok((windings, hits))
}
