// A step of a script.
ghost use Rattle.std.specs.Prelude.{◌≡◌, ◌≤◌, ◌+◌, IfErr, OnErr, OnOk};
ghost use Rattle.mb_outside.specs.Seen.{MeetsOn};
ghost use Rattle.mesh_files.specs.Halts.{halted_by};
ghost use Rattle.script_lang.specs.Steps.{step_of};
ghost use Rattle.script_runs.specs.Costs.{step_cost};
ghost use Rattle.script_runs.specs.Halts.{IsHaltOfStep};
ghost use Rattle.script_runs.specs.Names.{HasTaken, KeepsNames, named_in};
ghost use Rattle.script_runs.specs.Operations.{meanings};
ghost use Rattle.play_terms.specs.Plays.{step_task};
ghost use Rattle.play_terms.specs.Sound.{HasNumbers};

use crate::combining::{Combining, combine};
use crate::inspecting::inspect_mesh;
use crate::loading::load;
use crate::making::make;
use crate::measuring::measure_mesh;
use crate::moving::move_mesh;
use crate::names::HeldNames;
use crate::outlining::{Heights, combine2, extrude_outline, polygon};
use crate::remeshing::remesh_mesh;
use crate::saving::save;
use crate::settings::AtLine;
use crate::tidying::tidy_mesh;
use mb_base::Steps;
use mb_outside::{Shelf, Sink};
use mesh_files::Halt;
use mesh_make::{Motion, Solid};
use script_lang::Step;
use std::sync::ledger::Ledger;

/// Does the step of a line of the script. Each name that it takes has a mesh or an outline, as it takes it.
pub fn do_step<'a, S: Shelf, O: Sink, L: Ledger>(
    at: &AtLine<'_, 'a>,
    step: &Step<'a>,
    names: &mut HeldNames<'a>,
    shelf: &mut S,
    out: &mut O,
    sums: &mut Steps<L>,
) -> Result<(), Halt<'a>>
    requires digits { at.now.digits ≤ 6 }
    requires taken { HasTaken (named_in names.old) (step_of step.now) }
    requires numbers { HasNumbers (step_of step.now) }
    ensures meets { MeetsOn S.Shelf O.Sink
        (step_task (meanings at.now.kernels) at.now.digits at.now.limits.now at.now.script.now at.now.line (step_of step.now) (named_in names.old))
        (shelf.old, out.old) (shelf.new, out.new) (halted_by (λ _. named_in names.new) result) }
    ensures halts { IfErr result IsHaltOfStep }
    ensures named { OnOk result (KeepsNames (step_of step.now) (named_in names.old) (named_in names.new)) }
    ensures kept { OnErr result (names.new ≡ names.old) }
    ensures cost { sums.new ≤ sums.old + step_cost (step_of step.now) (named_in names.old) }
{
    match step {
        Step::Load { name, file } => load(at, name.as_str(), file.as_str(), names, shelf, out),
        Step::Save { name, file } => {
            save(at.digits, name.as_str(), file.as_str(), names, shelf, out)
        }
        Step::Measure { name } => measure_mesh(at.alloc, name.as_str(), names, out),
        Step::Inspect { name } => inspect_mesh(at.alloc, at.digits, name.as_str(), names, out),
        Step::Combine {
            op,
            name,
            left,
            right,
        } => {
            let what = Combining::of(*op, name, left, right);
            combine(at, &what, names, out, sums)
        }
        Step::MakeBox { name, low, high } => {
            make(at, name.as_str(), Solid::Box(*low, *high), names)
        }
        Step::MakeTetra {
            name,
            at: corner,
            size,
        } => make(at, name.as_str(), Solid::Tetra(*corner, *size), names),
        Step::MakePrism {
            name,
            at: corner,
            size,
            height,
        } => make(
            at,
            name.as_str(),
            Solid::Prism(*corner, *size, *height),
            names,
        ),
        Step::MakeLattice { name, n, seed } => {
            make(at, name.as_str(), Solid::Lattice(*n, *seed), names)
        }
        Step::Shift { name, source, by } => {
            move_mesh(
                at,
                name.as_str(),
                source.as_str(),
                Motion::Shift(*by),
                names,
            )
        }
        Step::Scale {
            name,
            source,
            factor,
        } => move_mesh(
            at,
            name.as_str(),
            source.as_str(),
            Motion::Scale(*factor),
            names,
        ),
        Step::Mirror { name, source, axis } => {
            move_mesh(
                at,
                name.as_str(),
                source.as_str(),
                Motion::Mirror(*axis),
                names,
            )
        }
        Step::Turn { name, source, axis } => {
            move_mesh(
                at,
                name.as_str(),
                source.as_str(),
                Motion::Turn(*axis),
                names,
            )
        }
        Step::Tidy { name, source } => {
            tidy_mesh(at.alloc, name.as_str(), source.as_str(), names, out)
        }
        Step::Remesh { name, source } => {
            remesh_mesh(at, name.as_str(), source.as_str(), names, out)
        }
        Step::Polygon { name, ring } => polygon(at.alloc, name.as_str(), ring.points(), names),
        Step::Combine2 {
            op,
            name,
            left,
            right,
        } => {
            let what = Combining::of(*op, name, left, right);
            combine2(at, &what, names, out)
        }
        Step::Extrude {
            name,
            source,
            low,
            high,
        } => {
            let heights = Heights {
                low: *low,
                high: *high,
            };
            extrude_outline(at, name.as_str(), source.as_str(), heights, names, out)
        }
        Step::Exact => Ok(()),
    }
}
