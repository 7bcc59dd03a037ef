//! Definitions of operations on two outlines: their winding numbers and crossings, the prescribed vertices, the lists in which copies
//! of these stand, and the result; and laws of these: winding numbers and crossings agree, and the result's segments form long loops.
//! The lemmas stand in `proofs/`. The functions do nothing, and their contracts are the laws.
#![tactic(auto)]

ghost use Rattle.outline_pair_terms.specs.Laws.{CopiesAreNotExchanged, EdgesConserve, EdgesConserveBack, OperationsGiveLoops, OutlineLoopsAreLong};

use mb_base::Point;

/// An edge of one outline and one of another that cross: their places, how often they cross, with its sign, and where.
#[derive(Clone, Copy, Debug, PartialEq, Eq, Drop)]
pub struct FlatHit {
    pub p_edge: u32,
    pub q_edge: u32,
    pub number: i8,
    pub at: Point,
}

/// Along an edge of either outline the winding number in the other changes by the edge's crossings.
pub fn edges_conserve()
    ensures there { EdgesConserve }
    ensures back { EdgesConserveBack }
{}

/// Two lists of edges tell what a copy that stands in both is a copy of.
pub fn lists_tell_copies()
    ensures { CopiesAreNotExchanged }
{}

/// Where each list of edges has as many starts as ends, the segments of two outlines form loops, each of three vertices or more.
pub fn loops_are_long()
    ensures { OutlineLoopsAreLong }
{}

/// An operation on two outlines conserves winding numbers along all edges and gives loops, each of three vertices or more: for any
/// tests whose counts of two edges are the signed sums of their boundary pairs, wherever the points lie.
pub fn operations_give_loops()
    ensures { OperationsGiveLoops }
{}
