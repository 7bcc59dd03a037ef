//! A tree over boxes that finds the boxes which have a point in common with an area.
#![tactic(auto)]

mod bounds;
mod boxes;
mod common_point;
mod extent;
mod keys;
mod near;
mod nodes;
mod order;
#[cfg(test)]
mod tests;
mod touching;
mod tree;
mod walk;

pub use bounds::{Bounds, Range};
pub use boxes::Boxes;
pub use common_point::touch;
pub use near::{find_few, find_near};
pub use touching::Touching;
pub use tree::Tree;

/// The most boxes that a tree holds.
pub const MOST_BOXES: usize = 300_000_000;

/// The most entries in a block.
const BLOCK: usize = 16;

/// The places of a walk's stack. Each place has at most half as many blocks as the one below it, so fewer than thirty are used.
const STACK: usize = 64;
