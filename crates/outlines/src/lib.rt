//! Outlines: loops of points in a plane, such as the cross section of a part.
#![tactic(auto)]

mod outline;

pub use outline::{MOST_VERTICES, Outline};
