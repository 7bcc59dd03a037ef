//! A ring of vertices in the plane of a face is cut into triangles, place by place: the least ear is cut, and where there
//! is none the least place that may be cut at all. However the ring lies, it never gets stuck: there are two triangles
//! fewer than places, no triangle repeats a vertex, and the triangles have the ring's boundary.
#![tactic(auto)]

mod asked;
mod cutting;
mod doubts;
mod ears;
mod filled;
mod hulls;
mod links;
mod long;
mod place;
mod span;
mod triangle;
mod waiters;

pub use cutting::{cut_ring, cut_ring_long_from, some_place_may_be_cut};
pub use filled::Filled;
