// The nodes of a tree.
ghost use Rattle.std.specs.Prelude.{◌≡◌, ◌+◌, ◌-◌, ◌*◌, ◌^◌, ◌<◌, ◌≤◌, ◌⊎◌, ℕ, length, IfOk};
ghost use Rattle.box_tree.specs.Nodes.{run_of, node_at, IsRound, HasRun, IsNode, AreNodes, IsRoot};

use crate::bounds::{Bounds, Range};
use crate::{BLOCK, MOST_BOXES};
use mb_base::NoMemory;
use std::alloc::Global;

/// A box with its number.
#[derive(Clone, Copy, Drop)]
pub struct Entry {
    pub bounds: Bounds,
    pub number: u32,
}

/// A run of blocks of entries, with bounds round them.
#[derive(Clone, Copy, Drop)]
pub struct Node {
    pub bounds: Bounds,
    pub first: u32,
    pub count: u32,
}

const NO_RANGE: Range = Range { low: 0, high: 0 };

const NO_NODE: Node = Node {
    bounds: Bounds {
        x: NO_RANGE,
        y: NO_RANGE,
        z: NO_RANGE,
    },
    first: 0,
    count: 0,
};

// Bounds round some entries.
fn bounds_round(entries: &[Entry]) -> Bounds
    requires { 0 < length entries.now }
    ensures { IsRound result entries.now }
{
    let mut bounds = entries[0].bounds;
    for entry in entries {
        bounds = bounds.joined(entry.bounds);
    }
    bounds
}

// Bounds round the entries of a block.
fn bounds_of_block(entries: &[Entry], block: usize) -> Bounds
    requires there { BLOCK * block < length entries.now }
    ensures { IsRound result (run_of entries.now block 1) }
{
    let begin = BLOCK * block;
    let end = entries.len().min(begin + BLOCK);
    bounds_round(&entries[begin..end])
}

// Writes the nodes of a run of blocks from a place on.
fn write_nodes(nodes: &mut [Node], entries: &[Entry], place: usize, first: usize, count: usize)
    requires some { 0 < count }
    requires room { place + 2 * count ≤ length nodes.old + 1 }
    requires there { BLOCK * (first + count) < length entries.now + BLOCK }
    requires few { length entries.now ≤ MOST_BOXES }
    ensures kept { (q : ℕ) → (q < place) ⊎ (place + 2 * count ≤ q + 1) → node_at nodes.new q ≡ node_at nodes.old q }
    ensures run { HasRun (node_at nodes.new place) first count }
    ensures nodes { (q : ℕ) → place ≤ q → q + 1 < place + 2 * count → IsNode (place + 2 * count - 1) nodes.new entries.now q }
{
    if count == 1 {
        nodes[place] = Node {
            bounds: bounds_of_block(entries, first),
            first: first as u32,
            count: 1,
        };
        return;
    }
    let half = count - count / 2;
    write_nodes(nodes, entries, place + 1, first, half);
    write_nodes(nodes, entries, place + 2 * half, first + half, count - half);
    let bounds = nodes[place + 1]
        .bounds
        .joined(nodes[place + 2 * half].bounds);
    nodes[place] = Node {
        bounds,
        first: first as u32,
        count: count as u32,
    };
}

/// The nodes over all blocks of the entries, in the order of the walk.
pub fn nodes_over(alloc: Global, entries: &[Entry]) -> Result<Vec<Node>, NoMemory>
    requires few { length entries.now ≤ MOST_BOXES }
    ensures nodes { IfOk result (λ nodes. AreNodes nodes.items entries.now) }
    ensures root { IfOk result (λ nodes. 0 < length entries.now → IsRoot nodes.items entries.now) }
    ensures short { IfOk result (λ nodes. length nodes.items < 2 ^ 32) }
{
    let blocks = entries.len().div_ceil(BLOCK);
    if blocks == 0 {
        return Ok(Vec::new(alloc));
    }
    let mut nodes = vec![in alloc; NO_NODE; 2 * blocks - 1]?;
    write_nodes(&mut nodes, entries, 0, 0, blocks);
    Ok(nodes)
}
