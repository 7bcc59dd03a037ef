//! The planes of triangles: those that lie in one plane belong together, whichever side they face, whether joined or not. A plane's front is the side to
//! which its normal points whose first coordinate other than 0 is positive.
#![tactic(auto)]

mod labels;
mod plane_key;
mod planes;
mod view;

pub use labels::label_numbers;
pub use plane_key::{Facing, PlaneKey};
pub use planes::{Planes, planes_of};
pub use view::PlaneView;
