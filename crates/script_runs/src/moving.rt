// The step that moves a mesh.
ghost use Rattle.std.specs.Prelude.{◌≡◌, IfErr, IsSome, OnErr, OnOk};
ghost use Rattle.mesh_files.specs.Halts.{halted_by};
ghost use Rattle.run_terms.specs.Meets.{Meets, Seen};
ghost use Rattle.script_runs.specs.Halts.{IsHaltOfStep};
ghost use Rattle.script_runs.specs.Names.{IsNamed, named_in};
ghost use Rattle.play_terms.specs.Plays.{mesh_held, move_task};
ghost use Rattle.made_terms.specs.Motions.{IsMotion};

use crate::making::halt_at;
use crate::names::HeldNames;
use crate::settings::AtLine;
use mesh_files::Halt;
use mesh_make::{Motion, move_by};

/// Gives a name the mesh of another after the motion of a line of the script.
pub fn move_mesh<'a>(
    at: &AtLine<'_, 'a>,
    name: &'a str,
    source: &'a str,
    motion: Motion,
    names: &mut HeldNames<'a>,
) -> Result<(), Halt<'a>>
    requires source { IsSome (mesh_held (named_in names.old source.now)) }
    requires motion { IsMotion motion }
    ensures meets { (now : Seen) → Meets (move_task at.now.script.now at.now.line name.now source.now motion (named_in names.old)) now now
        (halted_by (λ _. named_in names.new) result) }
    ensures halts { IfErr result IsHaltOfStep }
    ensures named { OnOk result (IsNamed name.now (named_in names.old) (named_in names.new)) }
    ensures kept { OnErr result (names.new ≡ names.old) }
{
    let mesh = names.mesh_of(source);
    let moved = match move_by(at.alloc, mesh, motion) {
        Ok(moved) => moved,
        Err(fault) => return Err(halt_at(at.script, at.line, fault)),
    };
    names.define(name, moved)?;
    Ok(())
}
