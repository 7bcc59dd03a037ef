// The numbers of two outlines.
ghost use Rattle.std.specs.Prelude.{◌≡◌, ◌≤◌, nat_abs, IfOk, length};
ghost use Rattle.std.specs.List.{All};
ghost use Rattle.outline_pair_terms.specs.Balance.{AreConserved};
ghost use Rattle.outline_pair_terms.specs.Numbers.{LiftEdges, flat_numbers, flat_tests, p_flat, q_flat};
ghost use Rattle.outline_terms.specs.Outlines.{outline_edges};

use crate::numbers::hits::hits_of;
use crate::numbers::marks::marks_of;
use crate::numbers::side::FlatSide;
use crate::numbers::tests::{PVertices, QVertices};
use crate::numbers::walk::winding_numbers;
use mb_base::{NoMemory, Op};
use outline_pair_terms::FlatHit;
use outlines::Outline;
use rounding::Rounding;
use shadow_kernels::{Flats, Meets};
use std::alloc::Global;
use std::marker::Model;

/// The winding number of each vertex of P in Q, and of each vertex of Q in P, and the crossings of their edges.
#[derive(Debug, Drop)]
pub struct Numbers {
    pub w02: Vec<i64>,
    pub w20: Vec<i64>,
    pub hits: Vec<FlatHit>,
}

impl Model for Numbers {
    ghost use Rattle.outline_pair_terms.specs.Numbers.{FlatNumbers};

    ghost Value = { FlatNumbers };

    ghost view = { λ n. record { w02 = n.w02.items; w20 = n.w20.items; hits = n.hits.items } };
}

/// The winding numbers and crossings of two outlines under an operation, which says how P's vertices count as moved. There is
/// one hit for each pair of edges whose number is not 0, ascending by P's edge, then Q's; edges are numbered loop by loop.
///
/// Besides the sorts of two trees and one sum over all edges for each outline, time goes to the edges whose boxes touch those of
/// an edge of the other, and those of the ways from each loop to the next one. `NoMemory` may come for any outlines.
pub fn outline_numbers<K: Flats, R: Rounding>(
    alloc: Global,
    op: Op,
    p: &Outline,
    q: &Outline,
    kernels: &K,
    rounding: &R,
) -> Result<Numbers, NoMemory>
    ensures value { IfOk result (λ n. n ≡ flat_numbers (flat_tests (⟦<K as Meets<1, 2>>⟧.meet_of kernels.now) (⟦<K as Meets<2, 1>>⟧.meet_of kernels.now)
        (⟦<K as Meets<2, 2>>⟧.meet_of kernels.now)) (R.settle_of rounding.now) (p_flat op p.now) (q_flat q.now)) }

    // Along each edge of P the winding number in Q changes by the numbers of the edge's hits, and along each of Q that in P by
    // minus these.
    ensures conserved { IfOk result (λ n. AreConserved (outline_edges p.now) (outline_edges q.now) n) }

    ensures p_size { IfOk result (λ n. All (λ w. nat_abs w ≤ length (outline_edges q.now)) n.w02) }
    ensures q_size { IfOk result (λ n. All (λ w. nat_abs w ≤ length (outline_edges p.now)) n.w20) }
    ensures small { IfOk result (λ n. All (λ h. nat_abs h.number ≤ 1) n.hits) }

    // What this rests on: the count of two edges is the signed sum of the shadows of their boundary pairs.
    ensures lift { IfOk result (λ _. LiftEdges (flat_tests (⟦<K as Meets<1, 2>>⟧.meet_of kernels.now) (⟦<K as Meets<2, 1>>⟧.meet_of kernels.now)
        (⟦<K as Meets<2, 2>>⟧.meet_of kernels.now)) (p_flat op p.now).corners (q_flat q.now).corners) }
{
    // Read so that what outlines and sides keep is known here.
    let _ = p.points();
    let _ = q.points();
    let p = p_side(alloc, op, p)?;
    let q = q_side(alloc, q)?;
    let _ = p.corners();
    let _ = q.corners();
    let w02 = winding_numbers(alloc, &p, &q, &PVertices(kernels))?;
    let w20 = winding_numbers(alloc, &q, &p, &QVertices(kernels))?;
    let hits = hits_of(alloc, &p, &q, kernels, rounding)?;
    Ok(Numbers { w02, w20, hits })
}

// P with its marks.
fn p_side(alloc: Global, op: Op, p: &Outline) -> Result<FlatSide, NoMemory>
    ensures { IfOk result (λ side. side ≡ p_flat op p.now) }
{
    let edges = p.edges(alloc)?;
    let ups = marks_of(alloc, op, p.points(), &edges)?;
    FlatSide::of(alloc, p.points(), &ups, edges)
}

// Q with none.
fn q_side(alloc: Global, q: &Outline) -> Result<FlatSide, NoMemory>
    ensures { IfOk result (λ side. side ≡ q_flat q.now) }
{
    let edges = q.edges(alloc)?;
    let ups = vec![in alloc; [false; 3]; q.points().len()]?;
    FlatSide::of(alloc, q.points(), &ups, edges)
}
