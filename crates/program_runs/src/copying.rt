// The command copy.
ghost use Rattle.std.specs.Prelude.{◌≡◌, ◌⊎◌, ◌≤◌, ◌<◌, ◌^◌, ◌-◌, All, IfErr};
ghost use Rattle.mesh_terms.specs.Limits.{IsLawful};
ghost use Rattle.play_terms.specs.Commands.{copied_task, copy_task};
ghost use Rattle.play_terms.specs.ReadingBack.{GivesReadable, WritesReadable};
ghost use Rattle.run_terms.specs.Files.{Files};
ghost use Rattle.mb_outside.specs.Seen.{MeetsOn};
ghost use Rattle.mesh_files.specs.Reads.{soup_with};
ghost use Rattle.mesh_files.specs.Halts.{IsHaltOfCopy, IsUnwrittenAt, halted};
ghost use Rattle.mesh_files.specs.declared.halt.Halt.TheVariants.{Reporting};
ghost use Rattle.program_runs.specs.Commands.{IsEnded, IsMet};

use crate::ending::concluded;
use crate::status::Status;
use mb_outside::{Shelf, Sink};
use mesh_files::{Halt, Read, read_named_mesh, save_named_mesh};
use report_lines::say_copied;
use script_runs::Settings;

/// Reads a mesh from one file, saves it to another, and reports that on the output. It stops at the first thing that goes wrong: as the
/// first file is read, as the second is written, which alone is a `WriteFault` at a file, or as it reports; one line on `err` tells it. The digits
/// of the settings are those of a unit on the grid, in both files. The mesh that is read is read again of what is saved, with its unused points
/// left out.
pub fn copy<'a, S: Shelf, O: Sink, E: Sink>(
    settings: &Settings<'_>,
    from: &'a str,
    to: &'a str,
    shelf: &mut S,
    out: &mut O,
    err: &mut E,
) -> Status
    requires digits { settings.now.digits ≤ 6 }
    requires errs { E.faults err.old < 2 ^ 64 - 1 }
    ensures ends { IsEnded S.Shelf O.Sink E.Sink (copy_task settings.now.digits settings.now.limits.now from.now to.now) (IsHaltOfCopy from.now to.now)
        (shelf.old, out.old, err.old) (shelf.new, out.new, err.new) result }
    ensures mesh_back { GivesReadable settings.now.digits settings.now.limits.now from.now }
    ensures back { (files : Files) → All (WritesReadable settings.now.digits settings.now.limits.now)
        (copy_task settings.now.digits settings.now.limits.now from.now to.now files).actions }
{
    let ended = copied(settings, from, to, shelf, out);
    concluded(ended, err)
}

// The copy, and where it stopped.
fn copied<'a, S: Shelf, O: Sink>(
    settings: &Settings<'_>,
    from: &'a str,
    to: &'a str,
    shelf: &mut S,
    out: &mut O,
) -> Result<(), Halt<'a>>
    requires digits { settings.now.digits ≤ 6 }
    ensures met { IsMet S.Shelf O.Sink (copy_task settings.now.digits settings.now.limits.now from.now to.now) (IsHaltOfCopy from.now to.now)
        (shelf.old, out.old) (shelf.new, out.new) result }
    ensures lawful { IsLawful settings.now.limits.now }
{
    let read = read_named_mesh(
        settings.alloc,
        from,
        settings.digits,
        settings.limits,
        shelf,
    )?;
    written(&read, to, settings.digits, shelf, out)
}

// Saves the mesh that was read, and reports that. Here the mesh is borrowed, so that no early return has to let it go.
fn written<'a, S: Shelf, O: Sink>(
    read: &Read,
    to: &'a str,
    digits: u8,
    shelf: &mut S,
    out: &mut O,
) -> Result<(), Halt<'a>>
    requires digits { digits ≤ 6 }
    ensures meets { MeetsOn S.Shelf O.Sink (copied_task digits to.now (soup_with read.now)) (shelf.old, out.old) (shelf.new, out.new) (halted result) }
    ensures halts { IfErr result (λ halt. IsUnwrittenAt to.now halt ⊎ (halt ≡ Reporting)) }
{
    save_named_mesh(&read.mesh, to, digits, shelf)?;
    let told = say_copied(to, &read.mesh, read.unused, out);
    Ok(told?)
}
