//! Laws of results: as the contract of a function that does nothing, and of one that puts an operation and its audit together.
ghost use Rattle.std.specs.Prelude.{IfOk, IsTrue};
ghost use Rattle.mesh_boolean.specs.Audited.{ResultsAreSound};

use crate::auditing::audit;
use crate::operate::boolean;
use edge_face::Kernels;
use mb_base::{Limits, Op, Steps};
use mesh_check::Mesh;
use retained_verts::PrescribeFault;
use std::alloc::Global;
use std::sync::ledger::Ledger;

/// What an audit says of what an operation gives, on the same meshes and kernels: yes, whenever it answers.
pub fn audit_of_result<K: Kernels, L: Ledger>(
    alloc: Global,
    op: Op,
    p: &Mesh,
    q: &Mesh,
    kernels: &K,
    limits: &Limits,
    steps: &mut Steps<L>,
) -> Result<bool, PrescribeFault>
    ensures { IfOk result IsTrue }
{
    let outcome = boolean(alloc, op, p, q, kernels, limits, steps)?;
    Ok(audit(alloc, op, p, q, kernels, &outcome)?)
}

/// What is a result of an operation on two meshes is sound, whatever made it: its vertices are those prescribed, its triangles
/// are bounded by the segments of their source faces and have their labels, and its mesh is clean. So an audit says yes of it.
pub fn results_are_sound()
    ensures sound { ResultsAreSound }
{}
