// Operations on outlines.
ghost use Rattle.std.specs.Prelude.{◌≡◌, IfOk};
ghost use Rattle.cross_section.specs.Copies.{AreNumbers};
ghost use Rattle.cross_section.specs.Outcome.{GivesOutline, IsRefusedFor, outcome_fault, outcome_of};
ghost use Rattle.outline_pair_terms.specs.Lists.{flat_copies, outline_of};
ghost use Rattle.outline_pair_terms.specs.Numbers.{flat_numbers, flat_tests, p_flat, q_flat};
ghost use Rattle.outline_terms.specs.Outlines.{IsOutline};

use crate::copies::copies_of;
use crate::counts::{hit_copies, vertex_copies};
use crate::fault::OutlineFault;
use crate::operand::Operand;
use crate::segments::segments_of;
use crate::{Numbers, outline_numbers};
use face_loops::loops;
use mb_base::{Counted, Limits, NoMemory, Op};
use outlines::{MOST_VERTICES, Outline};
use rounding::Rounding;
use shadow_kernels::{Flats, Meets};
use std::alloc::Global;
use std::marker::Model;

/// The outline of an operation, how many copies of P's and of Q's vertices it has, and how many of crossings.
#[derive(Debug, Drop)]
pub struct Flat {
    pub outline: Outline,
    pub kept: [u64; 2],
    pub crossings: u64,
}

impl Model for Flat {
    ghost use Rattle.std.specs.Prelude.{get_or};
    ghost use Rattle.cross_section.specs.Outcome.{Outcome};

    ghost Value = { Outcome };

    ghost view = { λ f. record { outline = f.outline; p_kept = get_or f.kept 0 0; q_kept = get_or f.kept 1 0; crossings = f.crossings } };
}

/// The union, intersection or difference of two outlines: each vertex as often as its winding number in the other says, each
/// crossing as often as its number, joined along the edges of both. The result is an outline: every loop has at least three
/// vertices, whatever the points. Loops may cross themselves and each other.
///
/// `Over` comes where the result would have more vertices than the limit on points, or than any outline may have, with their
/// number, and nowhere else. Besides `outline_numbers` it takes time in proportion to the edges and the vertices of the result,
/// and the sorts of those along each edge and of the segments' starts. `NoMemory` may come for any outlines.
pub fn combine_outlines<K: Flats, R: Rounding>(
    alloc: Global,
    op: Op,
    p: &Outline,
    q: &Outline,
    kernels: &K,
    rounding: &R,
    limits: &Limits,
) -> Result<Flat, OutlineFault>
    ensures refused { IsRefusedFor (outcome_fault limits.now (outcome_of op p.now q.now (flat_numbers (flat_tests (⟦<K as Meets<1, 2>>⟧.meet_of kernels.now)
        (⟦<K as Meets<2, 1>>⟧.meet_of kernels.now) (⟦<K as Meets<2, 2>>⟧.meet_of kernels.now)) (R.settle_of rounding.now) (p_flat op p.now) (q_flat q.now)))) result }
    ensures value { IfOk result (λ f. f ≡ outcome_of op p.now q.now (flat_numbers (flat_tests (⟦<K as Meets<1, 2>>⟧.meet_of kernels.now)
        (⟦<K as Meets<2, 1>>⟧.meet_of kernels.now) (⟦<K as Meets<2, 2>>⟧.meet_of kernels.now)) (R.settle_of rounding.now) (p_flat op p.now) (q_flat q.now))) }

    // Every vertex is in exactly one loop, and every loop has at least three.
    ensures outline { IfOk result (λ f. IsOutline f.outline) }
{
    // Read so that what outlines keep is known here.
    let _ = p.points();
    let _ = q.points();
    let numbers = outline_numbers(alloc, op, p, q, kernels, rounding)?;
    let p_kept = vertex_copies(op, Operand::P, &numbers.w02);
    let q_kept = vertex_copies(op, Operand::Q, &numbers.w20);
    let crossings = hit_copies(op, &numbers.hits);
    let seen = p_kept + q_kept + crossings;
    if seen > u64::from(limits.points().min(MOST_VERTICES)) {
        return Err(OutlineFault::Over {
            what: Counted::Points,
            seen,
        });
    }
    let outline = outline_of(alloc, op, p, q, &numbers)?;
    let kept = [p_kept, q_kept];
    Ok(Flat {
        outline,
        kept,
        crossings,
    })
}

// The outline of the copies.
fn outline_of(
    alloc: Global,
    op: Op,
    p: &Outline,
    q: &Outline,
    numbers: &Numbers,
) -> Result<Outline, NoMemory>
    requires numbers { AreNumbers p.now q.now numbers.now }
    requires loops { GivesOutline op p.now q.now numbers.now }
    ensures { IfOk result (λ o. o ≡ outline_of p.now q.now (flat_copies op p.now q.now numbers.now)) }
{
    let p_edges = p.edges(alloc)?;
    let q_edges = q.edges(alloc)?;
    let copies = copies_of(alloc, op, p, q, &p_edges, &q_edges, numbers)?;
    let segments = segments_of(alloc, op, p, q, &p_edges, &q_edges, numbers, &copies)?;
    let loops = loops(alloc, &segments)?;
    Ok(Outline::of(copies.points, loops))
}
