//! One vertex for each fan: `split` gives a closed mesh in which the half-edges round each vertex form one
//! fan, and in which each half-edge has the twin that it had. A vertex at which parts of a surface
//! touch without sharing an edge becomes as many vertices as it has fans, all at its point.
#![tactic(auto)]

mod lists;
mod result;
mod splitting;

pub use result::Split;
pub use splitting::{split, split_over};
