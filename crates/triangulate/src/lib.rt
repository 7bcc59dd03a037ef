//! Loops of a face are filled with triangles: loops of area at least 0 are rings, the others are holes, which are joined to
//! rings by bridges, and the rings are cut into triangles. However the loops lie, no triangle repeats a vertex, and the
//! triangles have the boundary of the loops.
#![tactic(auto)]

mod filling;

pub use face_plane::FacePlane;
pub use filling::fill;
pub use hole_joining::{Joined, join_holes};
pub use loop_ring::Ring;
pub use ring_cutting::{Filled, cut_ring};
