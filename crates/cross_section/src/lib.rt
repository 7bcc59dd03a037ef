//! Cross sections: unions, intersections and differences of outlines, and solids out of them. An outline is what a plate, a pocket
//! or a slot looks like from above. Whatever a lawful rounding does to positions, the result of an operation is an outline again.
//! After J. M. Smith's thesis "Towards robust inexact geometric computation" and the Manifold library, one dimension lower.
#![tactic(auto)]

mod combine;
mod copies;
mod counts;
mod extrusion;
mod fault;
mod numbers;
mod operand;
mod places;
mod segments;

pub use combine::{Flat, combine_outlines};
pub use extrusion::{ExtrudeFault, Extruded, extrude};
pub use fault::OutlineFault;
pub use numbers::{FlatHit, Numbers, outline_numbers};
pub use outlines::{MOST_VERTICES, Outline};
