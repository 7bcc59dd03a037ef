//! How often a closed mesh winds round a point: minus the sum of the shadow tests of the point with all faces, which
//! is a whole number for any lawful kernels, also for a point on the mesh. Under exact kernels it is the geometric
//! winding number, the number of tetrahedra from an apex to the faces that contain the point, positive ones less
//! negative ones (`winding_laws`): so it is 1 inside a cube, 0 outside, -1 inside one turned inside out, and the sum
//! where two overlap. Under the rounded kernels of the grid this is tested, not proved. `winding_sum` and
//! `winding_sum_back` compute it for any lawful kernels, for a corner of P in Q and of Q in P, `windings` for all
//! corners of two sides, and `winding_at` for a point of the grid in a mesh as it was read. Along every edge, and
//! along the segment between any two corners, the winding number changes by minus the numbers with all faces, so
//! `windings` makes at most one sum for each connected component and goes along edges from there (`spanning_forest`).
//! After J. M. Smith's thesis "Towards robust inexact geometric computation" and the Manifold library.
#![tactic(auto)]

mod all;
mod along;
mod jump;
mod point;
mod segments;
mod shadows;
mod sum;
mod walk;

pub use all::windings;
pub use point::winding_at;
pub use sum::{winding_sum, winding_sum_back};
