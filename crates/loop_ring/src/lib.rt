//! A circular list of numbers, whose places are nodes in memory of their own.
//!
//! A ring is handed from `join_holes` to `cut_ring` as a circle of nodes in raw memory. Its raw layer
//! is a bag of nodes that knows nothing of circles: each of its calls does one thing to one node, and the circle is
//! plain lists above it. `recount` and `absorb` do nothing when they run; they only list the nodes anew, so a step, a
//! step back and a splice are constant. `cut_ring` reads the ring once round, and `join_holes` keeps each ring as a
//! vector beside its nodes, since a bridge is sought by passes over all places.
#![tactic(auto)]

mod links;
mod nodes;
mod ring;

pub use ring::Ring;
