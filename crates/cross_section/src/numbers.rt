//! Winding numbers and crossings of two outlines: how often each outline runs round the vertices of the other, and where their
//! edges cross. For any lawful kernels the two agree: along each edge the winding number changes by the edge's crossings.
//! After J. M. Smith's thesis "Towards robust inexact geometric computation" and the Manifold library, one dimension lower.
//!
//! Pairs are found by a tree over the boxes of edges. One sum over all edges tells the first vertex's winding number; from
//! vertex to vertex, along a loop and then on to one nearby, it changes by the crossings of the way between, whether that is an
//! edge or not.

mod both;
mod hits;
mod marks;
mod order;
mod side;
mod sums;
mod tests;
mod walk;

pub use both::{Numbers, outline_numbers};
pub use outline_pair_terms::FlatHit;
