//! One operation on two closed meshes: their union, intersection or difference, as the numbers of crossings and the
//! winding numbers prescribe it; and an audit of what is handed over as the outcome of one. After J. M. Smith's thesis
//! "Towards robust inexact geometric computation" and the Manifold library.
#![tactic(auto)]

mod assembly;
mod auditing;
mod boundary;
mod bounded;
mod labels;
pub mod laws;
mod numbers;
mod operate;
mod outcome;
mod sides;
mod tested;

pub use auditing::audit;
pub use operate::boolean;
pub use outcome::Outcome;
pub use tested::Tested;
