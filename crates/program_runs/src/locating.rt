// The command inside: where a point lies, as the winding number tells.
ghost use Rattle.std.specs.Prelude.{◌≡◌, ◌⊎◌, ◌≤◌, ◌<◌, ◌+◌, ◌^◌, ◌-◌, All, IfErr};
ghost use Rattle.mesh_terms.specs.Limits.{IsLawful};
ghost use Rattle.play_terms.specs.Commands.{inside_task, winding_task};
ghost use Rattle.play_terms.specs.ReadingBack.{WritesReadable};
ghost use Rattle.run_terms.specs.Files.{Files};
ghost use Rattle.mb_outside.specs.Seen.{MeetsOnOutput};
ghost use Rattle.mesh_files.specs.Reads.{soup_with};
ghost use Rattle.mesh_files.specs.Halts.{IsHaltOfInside, halted};
ghost use Rattle.mesh_files.specs.declared.halt.Halt.TheVariants.{NoMemory, Reporting};
ghost use Rattle.program_runs.specs.Commands.{IsEnded, IsMet};
ghost use Rattle.program_runs.specs.Points.{sums_in, sums_of_point};
ghost use Rattle.program_runs.specs.Windings.{windings};

use crate::ending::concluded;
use crate::status::Status;
use mb_base::{Point, Steps};
use mb_outside::{Shelf, Sink};
use mesh_files::{Halt, Read, read_named_mesh};
use report_lines::say_winding;
use script_runs::Settings;
use std::alloc::Global;
use std::sync::ledger::Ledger;
use winding::winding_at;

/// The point whose winding number is sought, and the file of the mesh.
#[derive(Drop)]
pub struct Sought<'a> {
    pub file: &'a str,
    pub point: Point,
}

/// Reads a mesh from a file, where a unit has the digits of the settings on the grid, and reports the winding number of a point of the grid in
/// it. It stops at the first thing that goes wrong: as that file is read, for want of memory, or as it reports; one line on `err` tells it. It
/// writes no file, and whatever the shelf its write faults stay. It counts one sum where the number is found, and none where it stops before.
pub fn inside<'a, S: Shelf, O: Sink, E: Sink, L: Ledger>(
    settings: &Settings<'_>,
    sought: &Sought<'a>,
    shelf: &mut S,
    out: &mut O,
    err: &mut E,
    sums: &mut Steps<L>,
) -> Status
    requires digits { settings.now.digits ≤ 6 }
    requires errs { E.faults err.old < 2 ^ 64 - 1 }
    ensures ends { IsEnded S.Shelf O.Sink E.Sink (inside_task settings.now.digits windings settings.now.limits.now sought.now.file.now sought.now.point)
        (IsHaltOfInside sought.now.file.now) (shelf.old, out.old, err.old) (shelf.new, out.new, err.new) result }
    ensures back { (files : Files) → All (WritesReadable settings.now.digits settings.now.limits.now)
        (inside_task settings.now.digits windings settings.now.limits.now sought.now.file.now sought.now.point files).actions }
    ensures counted { sums.new ≡ sums.old + sums_of_point result }
{
    let ended = located(settings, sought, shelf, out, sums);
    concluded(ended, err)
}

// The search for the number, and where it stopped.
fn located<'a, S: Shelf, O: Sink, L: Ledger>(
    settings: &Settings<'_>,
    sought: &Sought<'a>,
    shelf: &mut S,
    out: &mut O,
    sums: &mut Steps<L>,
) -> Result<(), Halt<'a>>
    requires digits { settings.now.digits ≤ 6 }
    ensures met { IsMet S.Shelf O.Sink (inside_task settings.now.digits windings settings.now.limits.now sought.now.file.now sought.now.point) (IsHaltOfInside sought.now.file.now)
        (shelf.old, out.old) (shelf.new, out.new) result }
    ensures counted { sums.new ≡ sums.old + sums_in result }
    ensures lawful { IsLawful settings.now.limits.now }
{
    let read = read_named_mesh(
        settings.alloc,
        sought.file,
        settings.digits,
        settings.limits,
        shelf,
    )?;
    said(settings.alloc, sought.point, &read, out, sums)
}

// Finds the number in the mesh that was read, and reports it. Here the mesh is borrowed, so that no early return has to let it go.
fn said<'a, O: Sink, L: Ledger>(
    alloc: Global,
    point: Point,
    read: &Read,
    out: &mut O,
    sums: &mut Steps<L>,
) -> Result<(), Halt<'a>>
    ensures meets { MeetsOnOutput O.Sink (winding_task windings point (soup_with read.now)) out.old out.new (halted result) }
    ensures halts { IfErr result (λ halt. (halt ≡ Reporting) ⊎ (halt ≡ NoMemory)) }
    ensures counted { sums.new ≡ sums.old + sums_in result }
{
    // Read so that what a mesh keeps is known here: so few triangles that the number fits its type.
    let _few = read.mesh.triples();
    let number = winding_at(alloc, point, &read.mesh, sums)?;
    say_winding(number, out)?;
    Ok(())
}
