//! A mesh as the shadow tests take it: its points in fine steps, each with its marks, its triangles with a tree over their
//! boxes, and the twins of their half-edges. `leans` marks the first mesh of an operation; the second has no marks.
#![tactic(auto)]

mod corner;
mod faces;
mod grid;
mod marks;
mod short;
mod side;
mod surface;

pub use corner::corner_of;
pub use faces::face_of;
pub use marks::leans;
pub use side::Side;
pub use surface::{Surface, corners_of};
