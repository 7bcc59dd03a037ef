//! Faces seen in a plane of the grid: the axis that a face's plane drops, points in that plane, and comparisons of turns
//! and distances there that are exact and take no wide arithmetic; and rings of vertices.
//!
//! A coordinate is at most 2^30 grid steps in size. A turn is the difference of two products that reach 2^62, so it is
//! asked by comparing them; a squared distance reaches 2^63.
#![tactic(auto)]

mod flat_point;
mod plane;

pub use flat_point::FlatPoint;
pub use plane::FacePlane;
