// The step that saves a mesh.
ghost use Rattle.std.specs.Prelude.{◌≤◌, IfErr, IsSome};
ghost use Rattle.mb_outside.specs.Seen.{MeetsOn};
ghost use Rattle.mesh_files.specs.Halts.{halted_by};
ghost use Rattle.script_runs.specs.Halts.{IsHaltOfStep};
ghost use Rattle.script_runs.specs.Names.{named_in};
ghost use Rattle.play_terms.specs.Plays.{mesh_at, mesh_held, save_task};

use crate::names::HeldNames;
use mb_outside::{Shelf, Sink};
use mesh_files::{Halt, save_named_mesh};
use report_lines::say_saved;

/// Saves the mesh of a name to a file, and reports that on the output.
pub fn save<'a, S: Shelf, O: Sink>(
    digits: u8,
    name: &'a str,
    file: &'a str,
    names: &HeldNames<'a>,
    shelf: &mut S,
    out: &mut O,
) -> Result<(), Halt<'a>>
    requires digits { digits ≤ 6 }
    requires named { IsSome (mesh_held (named_in names.now name.now)) }
    ensures meets { MeetsOn S.Shelf O.Sink (save_task digits name.now file.now (mesh_at (named_in names.now) name.now) (named_in names.now))
        (shelf.old, out.old) (shelf.new, out.new) (halted_by (λ _. named_in names.now) result) }
    ensures halts { IfErr result IsHaltOfStep }
{
    let mesh = names.mesh_of(name);
    save_named_mesh(mesh, file, digits, shelf)?;
    say_saved(name, file, mesh, out)?;
    Ok(())
}
