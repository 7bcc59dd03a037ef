//! That the numbers of crossings under exact tests are the geometric ones: 1 or -1 where a segment goes through a face, else 0;
//! and that a closed mesh winds round a point as often as any way from the point to far outside leaves through its faces, less
//! how often it comes in.
//!
//! The lemmas stand in `specs/`.
#![tactic(auto)]

mod calls;
pub mod laws;

pub use calls::{exact_crossing, exact_crossing_back};
