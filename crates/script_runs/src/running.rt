// Whole scripts.
ghost use Rattle.std.specs.Prelude.{◌≡◌, ◌≤◌, ◌+◌, All, IfErr, IsTrue};
ghost use Rattle.mb_outside.specs.Seen.{MeetsOn};
ghost use Rattle.mesh_terms.specs.Limits.{IsLawful};
ghost use Rattle.play_terms.specs.ReadingBack.{WritesReadable};
ghost use Rattle.play_terms.specs.Steps.{kernels_after};
ghost use Rattle.mesh_files.specs.Halts.{halted, why_in};
ghost use Rattle.run_terms.specs.Files.{Files};
ghost use Rattle.script_lang.specs.Steps.{step_of};
ghost use Rattle.script_runs.specs.Costs.{script_cost};
ghost use Rattle.script_runs.specs.Halts.{IsHaltOfScript};
ghost use Rattle.script_runs.specs.Operations.{meanings};
ghost use Rattle.script_runs.specs.Texts.{why_of_fault};
ghost use Rattle.play_terms.specs.Plays.{script_task};

use crate::doing::do_step;
use crate::names::HeldNames;
use crate::settings::{AtLine, Settings};
use mb_base::{KernelKind, Steps};
use mb_outside::{Shelf, Sink};
use mesh_files::{Halt, Stop, read_named_file};
use operation_laws::laws::operations_are_readable;
use script_lang::{ScriptFault, Step, read_script};
use std::sync::ledger::Ledger;

/// Runs the script of a file: its lines in order, once the whole script was read. It stops at the first thing that goes wrong, and what was saved before stays.
/// Operations are taken under the kernels of the grid before the first step that chooses exact ones, and under these after it.
/// Whatever the files, each file that the script writes holds the text of a mesh, which is read of its OBJ text.
pub fn run_script<'a, S: Shelf, O: Sink, L: Ledger>(
    settings: &Settings<'_>,
    name: &'a str,
    bytes: &'a mut Vec<u8>,
    shelf: &mut S,
    out: &mut O,
    sums: &mut Steps<L>,
) -> Result<(), Halt<'a>>
    requires digits { settings.now.digits ≤ 6 }
    ensures meets { MeetsOn S.Shelf O.Sink (script_task meanings settings.now.digits settings.now.limits.now name.now)
        (shelf.old, out.old) (shelf.new, out.new) (halted result) }
    ensures halts { IfErr result (IsHaltOfScript name.now) }
    ensures cost { IsTrue (S.tells shelf.old) → sums.new ≤ sums.old +
        script_cost meanings settings.now.digits settings.now.limits.now name.now (S.files shelf.old) }
    ensures lawful { IsLawful settings.now.limits.now }
    ensures back { (files : Files) → All (WritesReadable settings.now.digits settings.now.limits.now)
        (script_task meanings settings.now.digits settings.now.limits.now name.now files).actions }
{
    // The law of what operations give.
    operations_are_readable();
    *bytes = read_named_file(settings.alloc, name, settings.limits, shelf)?;
    let script = match read_script(settings.alloc, bytes, settings.digits) {
        Ok(script) => script,
        Err(fault) => return Err(halt_of(name, fault)),
    };
    let mut names = HeldNames::none(settings.alloc);
    let mut kernels = KernelKind::Grid;
    for line in script.lines() {
        let at = AtLine {
            alloc: settings.alloc,
            digits: settings.digits,
            limits: settings.limits,
            script: name,
            line: line.line,
            kernels,
        };
        do_step(&at, &line.step, &mut names, shelf, out, sums)?;
        kernels = kernels_after(&line.step, kernels);
    }
    Ok(())
}

// The kernels of the operations after a step, where those before it are taken under these.
fn kernels_after(step: &Step<'_>, kernels: KernelKind) -> KernelKind
    ensures { result ≡ kernels_after (step_of step.now) kernels }
{
    match step {
        Step::Exact => KernelKind::Exact,
        _ => kernels,
    }
}

// Where a script stops that is at fault, or for which memory is wanting.
fn halt_of<'a>(name: &'a str, fault: ScriptFault) -> Halt<'a>
    ensures why { why_in result ≡ why_of_fault name.now fault }
    ensures halts { IsHaltOfScript name.now result }
{
    match fault {
        ScriptFault::Bad { line, kind } => Halt::At {
            name,
            stop: Stop::BadScript { line, kind },
        },
        ScriptFault::NoMemory => Halt::NoMemory,
    }
}
