// Keys, by which boxes are put in order. A mesh lists triangles that are near each other one after the other as a rule. So a key may stand
// for a run of boxes whose numbers follow each other; where such a run reaches far, each of its boxes has a key of its own.
//
// Files list triangles that are near each other one after the other as a rule. So a tree puts runs of 16 boxes in
// order, whose numbers follow each other, in place of single boxes, where they keep together: all but four of the
// boxes have each a sixty-fourth of the surface of the box round the run, or more. A surface counts steps, so that a
// box that is flat on two axes has one. Each run is judged by itself, and so is each of its boxes. Two weaker rules
// were tried. By a sum over all runs long thin boxes in one part of a mesh make up for runs elsewhere that reach
// through all of it, and each question meets those. By the sum of a run's own boxes slivers that lie over one another
// make up for a run that is almost empty: so in the caps of cylinders with very many sides, where each segment is
// listed with its two slivers. The boxes of the other runs, and of a last one that is not whole, are put in order one
// by one, behind the runs, so that each run is a block of the tree. No clause says which keys there are, since any
// order of the entries is right.
ghost use Rattle.std.specs.Prelude.{◌≡◌, ◌+◌, ◌-◌, ◌++◌, ◌<◌, ◌≤◌, ◌^◌, IfOk, IfSome, OnOk, length};
ghost use Rattle.std.specs.List.Sorted.{IsPermutation};
ghost use Rattle.chain_terms.specs.Sums.{up_from, upto};
ghost use Rattle.box_tree.specs.Keys.{numbers_of_keys, numbers_of_runs};

use crate::bounds::{Bounds, Range};
use crate::boxes::Boxes;
use crate::{BLOCK, MOST_BOXES};
use mb_base::NoMemory;
use std::alloc::Global;

/// The middle of a run of boxes on each axis, in coarse steps, and the number of its first box.
#[derive(Clone, Copy, Drop)]
pub struct Key {
    pub at: [i32; 3],
    pub first: u32,
}

/// The keys of runs of as many boxes as a block has, and those of single boxes.
#[derive(Drop)]
pub struct Keys {
    pub runs: Vec<Key>,
    pub singles: Vec<Key>,
}

// The middle of a range, to within a step.
#[inline]
fn middle(range: Range) -> i32 {
    (range.low >> 1) + (range.high >> 1)
}

// The key of boxes with these bounds round them.
#[inline]
fn key_of(bounds: Bounds, first: usize) -> Key
    requires { first < 2 ^ 32 }
    ensures { result.first ≡ first }
{
    Key {
        at: [middle(bounds.x), middle(bounds.y), middle(bounds.z)],
        first: first as u32,
    }
}

// The bounds round a run of boxes, where the run keeps together; none where it does not, or where it has fewer boxes than a block.
fn bounds_of_run<B: Boxes>(boxes: &B, shift: u32, first: usize, end: usize) -> Option<Bounds>
    requires some { first < end }
    requires there { end ≤ length (B.boxes boxes.now) }
    requires small { shift < 64 }
    ensures { IfSome result (λ _. end ≡ first + BLOCK) }
{
    if end - first != BLOCK {
        return None;
    }
    let mut bounds = boxes.bounds_at(first, shift);
    let mut alone = [bounds.surface(); BLOCK];
    for number in first + 1..end {
        let one = boxes.bounds_at(number, shift);
        alone[number - first] = one.surface();
        bounds = bounds.joined(one);
    }
    if share_surface(&alone, bounds.surface()) {
        Some(bounds)
    } else {
        None
    }
}

// Whether all but four of the surfaces of a run's boxes are each a sixty-fourth of the surface round the run or more.
fn share_surface(alone: &[u64; BLOCK], around: u64) -> bool {
    let part = around.div_ceil(64);
    let close = alone.iter().filter(|one| part <= **one).count();
    close >= BLOCK - 4
}

// Adds a key for each box from one number to another.
fn push_singles<B: Boxes>(
    singles: &mut Vec<Key>,
    boxes: &B,
    shift: u32,
    first: usize,
    end: usize,
) -> Result<(), NoMemory>
    requires few { length (B.boxes boxes.now) ≤ MOST_BOXES }
    requires order { first ≤ end }
    requires there { end ≤ length (B.boxes boxes.now) }
    requires small { shift < 64 }
    ensures { OnOk result (numbers_of_runs (length (B.boxes boxes.now)) 1 singles.new.items ≡
        numbers_of_runs (length (B.boxes boxes.now)) 1 singles.old.items ++ up_from first (end - first)) }
{
    for number in first..end {
        singles.push(key_of(boxes.bounds_at(number, shift), number))?;
    }
    Ok(())
}

// Adds the keys of a run of boxes: one where they keep together, and else one for each box.
fn push_keys<B: Boxes>(
    keys: &mut Keys,
    boxes: &B,
    shift: u32,
    first: usize,
    end: usize,
) -> Result<(), NoMemory>
    requires few { length (B.boxes boxes.now) ≤ MOST_BOXES }
    requires some { first < end }
    requires there { end ≤ length (B.boxes boxes.now) }
    requires small { shift < 64 }
    requires all { IsPermutation (upto first) (numbers_of_keys (length (B.boxes boxes.now)) keys.old.runs.items keys.old.singles.items) }
    ensures { OnOk result (IsPermutation (upto end) (numbers_of_keys (length (B.boxes boxes.now)) keys.new.runs.items keys.new.singles.items)) }
{
    match bounds_of_run(boxes, shift, first, end) {
        Some(bounds) => keys.runs.push(key_of(bounds, first))?,
        None => push_singles(&mut keys.singles, boxes, shift, first, end)?,
    }
    Ok(())
}

/// A key for each run of boxes that keeps together, and one for each other box. A run keeps together where all but four of its boxes have each
/// a sixty-fourth of the surface of the box round it or more. Each run is judged by itself, and so is each of its boxes, so that no part
/// of a mesh makes up for another.
pub fn keys_of<B: Boxes>(alloc: Global, boxes: &B, shift: u32) -> Result<Keys, NoMemory>
    requires few { length (B.boxes boxes.now) ≤ MOST_BOXES }
    requires small { shift < 64 }
    ensures { IfOk result (λ keys. IsPermutation (upto (length (B.boxes boxes.now)))
        (numbers_of_keys (length (B.boxes boxes.now)) keys.runs.items keys.singles.items)) }
{
    let count = boxes.count();
    let runs = Vec::with_capacity(alloc, count / BLOCK)?;
    let singles = Vec::new(alloc);
    let mut keys = Keys { runs, singles };
    let mut first = 0;
    while first < count {
        let end = count.min(first + BLOCK);
        push_keys(&mut keys, boxes, shift, first, end)?;
        first = end;
    }
    Ok(keys)
}
