// The step that remeshes a mesh.
ghost use Rattle.std.specs.Prelude.{◌≡◌, IfErr, IfOk, IsSome, OnErr, OnOk};
ghost use Rattle.mb_base.specs.declared.kernel_kind.KernelKind.{KernelKind};
ghost use Rattle.mb_outside.specs.Seen.{MeetsOnOutput};
ghost use Rattle.mesh_files.specs.Halts.{halted_by};
ghost use Rattle.operation_laws.specs.Kernels.{told_remeshed};
ghost use Rattle.play_terms.specs.Plays.{mesh_at, mesh_held, remesh_task, within_remeshed};
ghost use Rattle.run_terms.specs.Meets.{Meets, Seen};
ghost use Rattle.run_terms.specs.Tasks.{give};
ghost use Rattle.script_runs.specs.Halts.{IsHaltOfStep};
ghost use Rattle.script_runs.specs.Names.{IsNamed, named_in};
ghost use Rattle.script_runs.specs.Operations.{meanings};

use crate::names::HeldNames;
use crate::settings::AtLine;
use mb_outside::Sink;
use mesh_check::Mesh;
use mesh_files::{Halt, Stop};
use plane_remesh::{RemeshFault, Remeshed, remesh};
use report_lines::say_remeshed;

/// Gives a name the remeshed mesh of another, and reports on the output how many planes have triangles, and how many triangles were kept.
pub fn remesh_mesh<'a, O: Sink>(
    at: &AtLine<'_, 'a>,
    name: &'a str,
    source: &'a str,
    names: &mut HeldNames<'a>,
    out: &mut O,
) -> Result<(), Halt<'a>>
    requires { IsSome (mesh_held (named_in names.old source.now)) }
    ensures meets { (kernels : KernelKind) → MeetsOnOutput O.Sink
        (remesh_task (meanings kernels) at.now.limits.now name.now source.now (mesh_at (named_in names.old) source.now) (named_in names.old)) out.old out.new
        (halted_by (λ _. named_in names.new) result) }
    ensures halts { IfErr result IsHaltOfStep }
    ensures named { OnOk result (IsNamed name.now (named_in names.old) (named_in names.new)) }
    ensures kept { OnErr result (names.new ≡ names.old) }
{
    let mesh = names.mesh_of(source);
    let remeshed = remeshed_within(at, mesh)?;
    say_remeshed(name, source, remeshed.planes, remeshed.kept, out)?;
    names.define(name, remeshed.mesh)?;
    Ok(())
}

// What remeshing gives of a mesh, or where a script stops whose limits it exceeds.
fn remeshed_within<'a>(at: &AtLine<'_, 'a>, mesh: &Mesh) -> Result<Remeshed, Halt<'a>>
    ensures meets { (now : Seen) → Meets (give (within_remeshed at.now.limits.now (told_remeshed mesh.now))) now now
        (halted_by (λ _. told_remeshed mesh.now) result) }
    ensures mesh { IfOk result (λ r. r.mesh ≡ (told_remeshed mesh.now).mesh) }
    ensures planes { IfOk result (λ r. r.planes ≡ (told_remeshed mesh.now).planes) }
    ensures kept { IfOk result (λ r. r.kept ≡ (told_remeshed mesh.now).kept) }
    ensures halts { IfErr result IsHaltOfStep }
{
    match remesh(at.alloc, mesh, at.limits) {
        Ok(remeshed) => Ok(remeshed),
        Err(RemeshFault::Over { what, seen }) => Err(Halt::At {
            name: "",
            stop: Stop::Over { what, seen },
        }),
        Err(RemeshFault::NoMemory) => Err(Halt::NoMemory),
    }
}
