//! The half-edges of closed triangles: the twin of each, the next round its triangle, and the fans
//! round each vertex. Half-edge `3t + i` runs from the i-th vertex of triangle t to the next one
//! round. The k-th half-edge from a to b, in the order of the triangles, is the twin of the k-th
//! from b to a, so an edge may be used by any number of triangles.
#![tactic(auto)]

mod fans;
pub mod halves;
mod open_edge;
mod pairing;
mod surplus;
mod twins;
mod ways;

pub use fans::Fans;
pub use twins::{TwinFault, Twins};
