// The step that loads a mesh.
ghost use Rattle.std.specs.Prelude.{◌≡◌, ◌≤◌, IfErr, OnErr, OnOk};
ghost use Rattle.mb_outside.specs.Seen.{MeetsOn};
ghost use Rattle.mesh_files.specs.Halts.{halted_by};
ghost use Rattle.script_runs.specs.Halts.{IsHaltOfStep};
ghost use Rattle.script_runs.specs.Names.{IsNamed, named_in};
ghost use Rattle.play_terms.specs.Plays.{load_task};

use crate::names::HeldNames;
use crate::settings::AtLine;
use mb_outside::{Shelf, Sink};
use mesh_files::{Halt, read_named_mesh};
use report_lines::say_loaded;

/// Reads a mesh from a file, reports that on the output, and gives a name the mesh.
pub fn load<'a, S: Shelf, O: Sink>(
    at: &AtLine<'_, 'a>,
    name: &'a str,
    file: &'a str,
    names: &mut HeldNames<'a>,
    shelf: &mut S,
    out: &mut O,
) -> Result<(), Halt<'a>>
    requires digits { at.now.digits ≤ 6 }
    ensures meets { MeetsOn S.Shelf O.Sink (load_task at.now.digits at.now.limits.now name.now file.now (named_in names.old))
        (shelf.old, out.old) (shelf.new, out.new) (halted_by (λ _. named_in names.new) result) }
    ensures halts { IfErr result IsHaltOfStep }
    ensures named { OnOk result (IsNamed name.now (named_in names.old) (named_in names.new)) }
    ensures kept { OnErr result (names.new ≡ names.old) }
{
    let read = read_named_mesh(at.alloc, file, at.digits, at.limits, shelf)?;
    say_loaded(name, file, &read.mesh, read.unused, out)?;
    names.define(name, read.mesh)?;
    Ok(())
}
