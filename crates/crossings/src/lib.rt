//! Where the edges of one side cross the faces of another: one hit for each edge and face whose number of crossings is
//! not 0. For any lawful kernels the numbers agree with each other: for a face of each side, the crossings of the one's
//! edges with the other add up to those of the other's edges with the one. After J. M. Smith's thesis "Towards robust
//! inexact geometric computation" and the Manifold library. `EdgeFace` tells the number of any segment between two corners
//! of one side with a face of the other, also of one that is no edge.
#![tactic(auto)]

mod both;
mod hits;
mod near;
mod pairs;
mod runs;

pub use both::crossings;
pub use pairs::{EdgeFace, PEdges, QEdges};
