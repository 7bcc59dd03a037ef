//! Tidying: `tidy` collapses the edges of a closed mesh whose ends lie at one point, one after the other, as far as the
//! surface stays: each triangle at three different points stays, and so does the volume.
//!
//! An edge is collapsed where it is the only one between its ends, and what else is joined to both ends are the third
//! vertices of its two triangles, by one edge each. Its two triangles go, and its start takes the place of its end.
#![tactic(auto)]

mod doubts;
mod stars;
mod surface;
mod tidied;
mod tidying;

pub use tidied::Tidied;
pub use tidying::tidy;
