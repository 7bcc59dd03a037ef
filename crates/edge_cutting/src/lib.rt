//! Places and cut edges: points that lie at one place are one, and each edge of a triangle is cut at each place strictly inside it. A triangle's rim is its
//! corners with these places, in order.
#![tactic(auto)]

mod cuts;
mod divisors;
mod edges;
mod inside;
mod pieces;
mod place_boxes;
mod places;
mod steps;

pub use cuts::Cuts;
pub use divisors::common_divisor;
pub use places::{Faces, Places, faces_over, places_of};
