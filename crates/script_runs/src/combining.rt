// The step that combines two meshes.
ghost use Rattle.std.specs.Prelude.{◌≡◌, ◌≤◌, ◌+◌, IfErr, IfOk, IsSome, OnErr, OnOk};
ghost use Rattle.mb_outside.specs.Seen.{MeetsOnOutput};
ghost use Rattle.mesh_boolean.specs.Operation.{operation};
ghost use Rattle.operation_laws.specs.Kernels.{told_of};
ghost use Rattle.mesh_files.specs.Halts.{halted_by};
ghost use Rattle.run_terms.specs.Meets.{Meets, Seen};
ghost use Rattle.run_terms.specs.Tasks.{give};
ghost use Rattle.script_runs.specs.Costs.{operation_cost};
ghost use Rattle.script_runs.specs.Halts.{IsHaltOfStep};
ghost use Rattle.script_runs.specs.Names.{IsNamed, named_in};
ghost use Rattle.script_runs.specs.Operations.{meanings};
ghost use Rattle.script_runs.specs.Outcomes.{IsOutcome};
ghost use Rattle.play_terms.specs.Plays.{combine_task, mesh_at, mesh_held, within};

use crate::names::HeldNames;
use crate::settings::AtLine;
use edge_face::Kernels;
use exact_kernels::Exact;
use mb_base::{Counted, KernelKind, Op, Steps};
use mb_outside::Sink;
use mesh_boolean::{Outcome, Tested, boolean};
use mesh_check::Mesh;
use mesh_files::{Halt, Stop};
use report_lines::{OperationCounts, say_combined};
use retained_verts::PrescribeFault;
use rounding::Nearest;
use script_lang::Word;
use shadow_kernels::Grid;
use std::sync::ledger::Ledger;

/// What a line combines: the operation, the name that gets its result, and the names of its operands.
#[derive(Drop)]
pub struct Combining<'a> {
    pub op: Op,
    pub name: &'a str,
    pub left: &'a str,
    pub right: &'a str,
}

impl<'a> Combining<'a> {
    /// An operation with the words of its line.
    pub fn of(op: Op, name: &Word<'a>, left: &Word<'a>, right: &Word<'a>) -> Combining<'a>
        ensures op { result.op ≡ op }
        ensures name { result.name.now ≡ name.now }
        ensures left { result.left.now ≡ left.now }
        ensures right { result.right.now ≡ right.now }
    {
        Combining {
            op,
            name: name.as_str(),
            left: left.as_str(),
            right: right.as_str(),
        }
    }
}

// What an operation on two meshes gives under the kernels of the line, with rounding to the nearest.
fn operate<'a, L: Ledger>(
    at: &AtLine<'_, 'a>,
    op: Op,
    p: &Mesh,
    q: &Mesh,
    sums: &mut Steps<L>,
) -> Result<Outcome, Halt<'a>>
    ensures meets { (now : Seen) → Meets (give (within at.now.limits.now ((meanings at.now.kernels).operation op p.now q.now))) now now
        (halted_by (λ _. (meanings at.now.kernels).operation op p.now q.now) result) }
    ensures outcome { IfOk result (IsOutcome ((meanings at.now.kernels).operation op p.now q.now)) }
    ensures halts { IfErr result IsHaltOfStep }
    ensures cost { sums.new ≤ sums.old + operation_cost op p.now q.now }
{
    match at.kernels {
        KernelKind::Grid => operate_under(at, &Grid { rounding: Nearest }, op, p, q, sums),
        KernelKind::Exact => operate_under(at, &Exact { rounding: Nearest }, op, p, q, sums),
    }
}

// What an operation on two meshes gives under any kernels.
fn operate_under<'a, K: Kernels, L: Ledger>(
    at: &AtLine<'_, 'a>,
    kernels: &K,
    op: Op,
    p: &Mesh,
    q: &Mesh,
    sums: &mut Steps<L>,
) -> Result<Outcome, Halt<'a>>
    ensures meets { (now : Seen) → Meets (give (within at.now.limits.now (told_of (operation (⟦<K as Tested>⟧.tests kernels.now) op p.now q.now)))) now now
        (halted_by (λ _. told_of (operation (⟦<K as Tested>⟧.tests kernels.now) op p.now q.now)) result) }
    ensures outcome { IfOk result (IsOutcome (told_of (operation (⟦<K as Tested>⟧.tests kernels.now) op p.now q.now))) }
    ensures halts { IfErr result IsHaltOfStep }
    ensures cost { sums.new ≤ sums.old + operation_cost op p.now q.now }
{
    match boolean(at.alloc, op, p, q, kernels, at.limits, sums) {
        Ok(outcome) => Ok(outcome),
        Err(PrescribeFault::TooLarge { seen }) => Err(Halt::At {
            name: "",
            stop: Stop::Over {
                what: Counted::Halfedges,
                seen,
            },
        }),
        Err(PrescribeFault::NoMemory) => Err(Halt::NoMemory),
    }
}

/// Gives a name what an operation makes of the meshes of two names under the kernels of the line, and reports that on the output.
pub fn combine<'a, O: Sink, L: Ledger>(
    at: &AtLine<'_, 'a>,
    what: &Combining<'a>,
    names: &mut HeldNames<'a>,
    out: &mut O,
    sums: &mut Steps<L>,
) -> Result<(), Halt<'a>>
    requires left { IsSome (mesh_held (named_in names.old what.now.left.now)) }
    requires right { IsSome (mesh_held (named_in names.old what.now.right.now)) }
    ensures meets { MeetsOnOutput O.Sink (combine_task (meanings at.now.kernels) at.now.limits.now
        what.now.op what.now.name.now what.now.left.now what.now.right.now (named_in names.old)) out.old out.new
        (halted_by (λ _. named_in names.new) result) }
    ensures halts { IfErr result IsHaltOfStep }
    ensures named { OnOk result (IsNamed what.now.name.now (named_in names.old) (named_in names.new)) }
    ensures kept { OnErr result (names.new ≡ names.old) }
    ensures cost { sums.new ≤ sums.old +
        operation_cost what.now.op (mesh_at (named_in names.old) what.now.left.now) (mesh_at (named_in names.old) what.now.right.now) }
{
    let p = names.mesh_of(what.left);
    let q = names.mesh_of(what.right);
    let outcome = operate(at, what.op, p, q, sums)?;
    let kept = outcome.prescribed.kept;
    let counts = OperationCounts {
        kept,
        crossings: outcome.prescribed.crossings,
        forced: outcome.forced,
    };
    say_combined(what.op, what.name, what.left, what.right, &counts, out)?;
    names.define(what.name, outcome.mesh)?;
    Ok(())
}
