// The steps that make outlines, combine them and make solids of them.
ghost use Rattle.std.specs.Prelude.{◌≡◌, IfErr, IfOk, IsSome, OnErr, OnOk};
ghost use Rattle.mb_base.specs.declared.kernel_kind.KernelKind.{KernelKind};
ghost use Rattle.mb_outside.specs.Seen.{MeetsOnOutput};
ghost use Rattle.mesh_files.specs.Halts.{halted_by, why_in};
ghost use Rattle.mesh_terms.specs.Points.{IsOnGrid};
ghost use Rattle.outline_pair_terms.specs.Numbers.{flat_numbers, flat_tests, p_flat, q_flat};
ghost use Rattle.cross_section.specs.Outcome.{outcome_of};
ghost use Rattle.operation_laws.specs.Kernels.{told2_of};
ghost use Rattle.play_terms.specs.Plays.{combine2_task, extrude_task, outline_held, polygon_task, within2};
ghost use Rattle.play_terms.specs.Sound.{IsRing};
ghost use Rattle.report_lines.specs.Counts.{counts2_of};
ghost use Rattle.run_terms.specs.Meets.{Meets, Seen};
ghost use Rattle.run_terms.specs.Tasks.{give};
ghost use Rattle.script_runs.specs.Halts.{IsHaltOfStep};
ghost use Rattle.script_runs.specs.Made.{solid_of, solid_or_not};
ghost use Rattle.script_runs.specs.Names.{IsNamed, IsOutlined, named_in};
ghost use Rattle.script_runs.specs.Operations.{meanings};
ghost use Rattle.rounding.specs.Nearest.{settle_nearest};
ghost use Rattle.script_runs.specs.Outcomes.{IsOutcome2};

use crate::combining::Combining;
use crate::names::HeldNames;
use crate::settings::AtLine;
use cross_section::{ExtrudeFault, Extruded, Flat, OutlineFault, combine_outlines, extrude};
use exact_kernels::Exact;
use mb_base::{KernelKind, Op};
use mb_outside::Sink;
use mesh_files::{Halt, Stop};
use outlines::Outline;
use report_lines::{OutlineCounts, say_combined2, say_extruded};
use rounding::Nearest;
use shadow_kernels::{Flats, Grid, Meets};
use std::alloc::Global;

/// Gives a name the outline of one loop through places in the plane.
pub fn polygon<'a>(
    alloc: Global,
    name: &'a str,
    ring: &[[i32; 2]],
    names: &mut HeldNames<'a>,
) -> Result<(), Halt<'a>>
    requires { IsRing ring.now }
    ensures meets { (now : Seen) → Meets (polygon_task name.now ring.now (named_in names.old)) now now (halted_by (λ _. named_in names.new) result) }
    ensures halts { IfErr result IsHaltOfStep }
    ensures named { OnOk result (IsOutlined name.now (named_in names.old) (named_in names.new)) }
    ensures kept { OnErr result (names.new ≡ names.old) }
{
    let outline = Outline::ring(alloc, ring)?;
    names.define_outline(name, outline)?;
    Ok(())
}

// What an operation on two outlines gives under the kernels of the line, with rounding to the nearest.
fn operate2<'a>(at: &AtLine<'_, 'a>, op: Op, p: &Outline, q: &Outline) -> Result<Flat, Halt<'a>>
    ensures meets { (now : Seen) → Meets (give (within2 at.now.limits.now ((meanings at.now.kernels).outlines op p.now q.now))) now now
        (halted_by (λ _. (meanings at.now.kernels).outlines op p.now q.now) result) }
    ensures outcome { IfOk result (IsOutcome2 ((meanings at.now.kernels).outlines op p.now q.now)) }
    ensures halts { IfErr result IsHaltOfStep }
{
    match at.kernels {
        KernelKind::Grid => operate2_under(at, &Grid { rounding: Nearest }, op, p, q),
        KernelKind::Exact => operate2_under(at, &Exact { rounding: Nearest }, op, p, q),
    }
}

// What an operation on two outlines gives under any kernels.
fn operate2_under<'a, K: Flats>(
    at: &AtLine<'_, 'a>,
    kernels: &K,
    op: Op,
    p: &Outline,
    q: &Outline,
) -> Result<Flat, Halt<'a>>
    ensures meets { (now : Seen) → Meets (give (within2 at.now.limits.now (told2_of (outcome_of op p.now q.now (flat_numbers (flat_tests
        (⟦<K as Meets<1, 2>>⟧.meet_of kernels.now) (⟦<K as Meets<2, 1>>⟧.meet_of kernels.now) (⟦<K as Meets<2, 2>>⟧.meet_of kernels.now))
        settle_nearest (p_flat op p.now) (q_flat q.now)))))) now now
        (halted_by (λ _. told2_of (outcome_of op p.now q.now (flat_numbers (flat_tests
        (⟦<K as Meets<1, 2>>⟧.meet_of kernels.now) (⟦<K as Meets<2, 1>>⟧.meet_of kernels.now) (⟦<K as Meets<2, 2>>⟧.meet_of kernels.now))
        settle_nearest (p_flat op p.now) (q_flat q.now)))) result) }
    ensures outcome { IfOk result (IsOutcome2 (told2_of (outcome_of op p.now q.now (flat_numbers (flat_tests
        (⟦<K as Meets<1, 2>>⟧.meet_of kernels.now) (⟦<K as Meets<2, 1>>⟧.meet_of kernels.now) (⟦<K as Meets<2, 2>>⟧.meet_of kernels.now))
        settle_nearest (p_flat op p.now) (q_flat q.now))))) }
    ensures halts { IfErr result IsHaltOfStep }
{
    match combine_outlines(at.alloc, op, p, q, kernels, &Nearest, at.limits) {
        Ok(flat) => Ok(flat),
        Err(OutlineFault::Over { what, seen }) => Err(Halt::At {
            name: "",
            stop: Stop::Over { what, seen },
        }),
        Err(OutlineFault::NoMemory) => Err(Halt::NoMemory),
    }
}

// The numbers that are told of an operation.
fn counts_of(flat: &Flat) -> OutlineCounts
    ensures { result ≡ counts2_of (told2_of flat.now) }
{
    let [p, q] = flat.kept;
    OutlineCounts {
        kept: [p, q],
        crossings: flat.crossings,
    }
}

/// Gives a name what an operation makes of the outlines of two names under the kernels of the line, and reports that on the output.
pub fn combine2<'a, O: Sink>(
    at: &AtLine<'_, 'a>,
    what: &Combining<'a>,
    names: &mut HeldNames<'a>,
    out: &mut O,
) -> Result<(), Halt<'a>>
    requires left { IsSome (outline_held (named_in names.old what.now.left.now)) }
    requires right { IsSome (outline_held (named_in names.old what.now.right.now)) }
    ensures meets { MeetsOnOutput O.Sink (combine2_task (meanings at.now.kernels) at.now.limits.now
        what.now.op what.now.name.now what.now.left.now what.now.right.now (named_in names.old)) out.old out.new
        (halted_by (λ _. named_in names.new) result) }
    ensures halts { IfErr result IsHaltOfStep }
    ensures named { OnOk result (IsOutlined what.now.name.now (named_in names.old) (named_in names.new)) }
    ensures kept { OnErr result (names.new ≡ names.old) }
{
    let p = names.outline_of(what.left);
    let q = names.outline_of(what.right);
    let flat = operate2(at, what.op, p, q)?;
    let counts = counts_of(&flat);
    say_combined2(what.op, what.name, what.left, what.right, &counts, out)?;
    names.define_outline(what.name, flat.outline)?;
    Ok(())
}

/// The heights between which an outline is made a solid of.
#[derive(Clone, Copy, Drop)]
pub struct Heights {
    pub low: i32,
    pub high: i32,
}

// The solid between an outline at two heights, or where a script stops that makes none on this line.
fn solid_between<'a>(
    at: &AtLine<'_, 'a>,
    outline: &Outline,
    heights: Heights,
) -> Result<Extruded, Halt<'a>>
    requires low { IsOnGrid heights.low }
    requires high { IsOnGrid heights.high }
    ensures meets { (now : Seen) → Meets (give (solid_or_not at.now.script.now at.now.line at.now.limits.now outline.now heights.low heights.high)) now now
        (halted_by (λ _. solid_of outline.now heights.low heights.high) result) }
    ensures mesh { IfOk result (λ e. e.mesh ≡ (solid_of outline.now heights.low heights.high).mesh) }
    ensures forced { IfOk result (λ e. e.forced ≡ (solid_of outline.now heights.low heights.high).forced) }
    ensures halts { IfErr result IsHaltOfStep }
{
    match extrude(at.alloc, outline, heights.low, heights.high, at.limits) {
        Ok(extruded) => Ok(extruded),
        Err(ExtrudeFault::FlatSolid) => Err(Halt::At {
            name: at.script,
            stop: Stop::BadStep {
                line: at.line,
                kind: 16,
            },
        }),
        Err(ExtrudeFault::Over { what, seen }) => Err(Halt::At {
            name: "",
            stop: Stop::Over { what, seen },
        }),
        Err(ExtrudeFault::NoMemory) => Err(Halt::NoMemory),
    }
}

/// Gives a name the solid between the outline of another at two heights, and reports on the output how many cuts were forced.
pub fn extrude_outline<'a, O: Sink>(
    at: &AtLine<'_, 'a>,
    name: &'a str,
    source: &'a str,
    heights: Heights,
    names: &mut HeldNames<'a>,
    out: &mut O,
) -> Result<(), Halt<'a>>
    requires source { IsSome (outline_held (named_in names.old source.now)) }
    requires low { IsOnGrid heights.low }
    requires high { IsOnGrid heights.high }
    ensures meets { (kernels : KernelKind) → MeetsOnOutput O.Sink (extrude_task (meanings kernels) at.now.limits.now at.now.script.now at.now.line
        name.now source.now heights.low heights.high (named_in names.old)) out.old out.new (halted_by (λ _. named_in names.new) result) }
    ensures halts { IfErr result IsHaltOfStep }
    ensures named { OnOk result (IsNamed name.now (named_in names.old) (named_in names.new)) }
    ensures kept { OnErr result (names.new ≡ names.old) }
{
    let outline = names.outline_of(source);
    let extruded = solid_between(at, outline, heights)?;
    say_extruded(name, source, extruded.forced, out)?;
    names.define(name, extruded.mesh)?;
    Ok(())
}
