// The step that inspects a mesh.
ghost use Rattle.std.specs.Prelude.{◌≤◌, IfErr, IsSome};
ghost use Rattle.mb_base.specs.declared.kernel_kind.KernelKind.{KernelKind};
ghost use Rattle.mb_outside.specs.Seen.{MeetsOnOutput};
ghost use Rattle.mesh_files.specs.Halts.{halted_by};
ghost use Rattle.script_runs.specs.Halts.{IsHaltOfStep};
ghost use Rattle.script_runs.specs.Names.{named_in};
ghost use Rattle.script_runs.specs.Operations.{meanings};
ghost use Rattle.play_terms.specs.Plays.{inspect_task, mesh_at, mesh_held};

use crate::names::HeldNames;
use mb_outside::Sink;
use mesh_files::Halt;
use report_lines::say_inspected;
use self_cuts::inspect;
use std::alloc::Global;

/// Inspects the mesh of a name, and reports that on the output, with coordinates under so many digits.
pub fn inspect_mesh<'a, O: Sink>(
    alloc: Global,
    digits: u8,
    name: &'a str,
    names: &HeldNames<'a>,
    out: &mut O,
) -> Result<(), Halt<'a>>
    requires digits { digits ≤ 6 }
    requires named { IsSome (mesh_held (named_in names.now name.now)) }
    ensures meets { (kernels : KernelKind) → MeetsOnOutput O.Sink
        (inspect_task (meanings kernels) digits name.now (mesh_at (named_in names.now) name.now) (named_in names.now)) out.old out.new
        (halted_by (λ _. named_in names.now) result) }
    ensures halts { IfErr result IsHaltOfStep }
{
    let mesh = names.mesh_of(name);
    let seen = inspect(alloc, mesh)?;
    say_inspected(name, digits, &seen, out)?;
    Ok(())
}
