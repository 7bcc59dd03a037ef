// The step that makes a solid.
ghost use Rattle.std.specs.Prelude.{◌≡◌, IfErr, OnErr, OnOk};
ghost use Rattle.mesh_files.specs.Halts.{halted_by, why_in};
ghost use Rattle.run_terms.specs.Meets.{Meets, Seen};
ghost use Rattle.script_runs.specs.Halts.{IsHaltOfStep};
ghost use Rattle.script_runs.specs.Made.{why_unmade};
ghost use Rattle.script_runs.specs.Names.{IsNamed, named_in};
ghost use Rattle.play_terms.specs.Plays.{make_task};
ghost use Rattle.made_terms.specs.Making.{IsSolid};

use crate::names::HeldNames;
use crate::settings::AtLine;
use mesh_files::{Halt, Stop};
use mesh_make::{MakeFault, Solid, make_solid};

/// Where a script stops that makes no solid, or moves no mesh, on this line.
pub fn halt_at<'a>(script: &'a str, line: u64, fault: MakeFault) -> Halt<'a>
    ensures why { why_in result ≡ why_unmade script.now line fault }
    ensures halts { IsHaltOfStep result }
{
    let (name, stop) = match fault {
        MakeFault::OutOfGrid => (script, Stop::BadStep { line, kind: 15 }),
        MakeFault::FlatSolid => (script, Stop::BadStep { line, kind: 16 }),
        MakeFault::Over { what, seen } => ("", Stop::Over { what, seen }),
        MakeFault::NoMemory => return Halt::NoMemory,
    };
    Halt::At { name, stop }
}

/// Gives a name the solid of a line of the script.
pub fn make<'a>(
    at: &AtLine<'_, 'a>,
    name: &'a str,
    solid: Solid,
    names: &mut HeldNames<'a>,
) -> Result<(), Halt<'a>>
    requires { IsSolid solid }
    ensures meets { (now : Seen) → Meets (make_task at.now.limits.now at.now.script.now at.now.line name.now solid (named_in names.old)) now now
        (halted_by (λ _. named_in names.new) result) }
    ensures halts { IfErr result IsHaltOfStep }
    ensures named { OnOk result (IsNamed name.now (named_in names.old) (named_in names.new)) }
    ensures kept { OnErr result (names.new ≡ names.old) }
{
    let mesh = match make_solid(at.alloc, solid, at.limits) {
        Ok(mesh) => mesh,
        Err(fault) => return Err(halt_at(at.script, at.line, fault)),
    };
    names.define(name, mesh)?;
    Ok(())
}
