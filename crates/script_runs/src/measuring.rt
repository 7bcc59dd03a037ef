// The step that measures a mesh.
ghost use Rattle.std.specs.Prelude.{IfErr, IsSome};
ghost use Rattle.mb_outside.specs.Seen.{MeetsOnOutput};
ghost use Rattle.mesh_files.specs.Halts.{halted_by};
ghost use Rattle.script_runs.specs.Halts.{IsHaltOfStep};
ghost use Rattle.script_runs.specs.Names.{named_in};
ghost use Rattle.play_terms.specs.Plays.{measure_task, mesh_at, mesh_held};

use crate::names::HeldNames;
use mb_outside::Sink;
use mesh_files::Halt;
use mesh_make::measure;
use report_lines::say_measured;
use std::alloc::Global;

/// Measures the mesh of a name, and reports that on the output.
pub fn measure_mesh<'a, O: Sink>(
    alloc: Global,
    name: &'a str,
    names: &HeldNames<'a>,
    out: &mut O,
) -> Result<(), Halt<'a>>
    requires { IsSome (mesh_held (named_in names.now name.now)) }
    ensures meets { MeetsOnOutput O.Sink (measure_task name.now (mesh_at (named_in names.now) name.now) (named_in names.now)) out.old out.new
        (halted_by (λ _. named_in names.now) result) }
    ensures halts { IfErr result IsHaltOfStep }
{
    let mesh = names.mesh_of(name);
    let measure = measure(alloc, mesh)?;
    say_measured(name, &measure, out)?;
    Ok(())
}
