//! The vertices that the numbers of an operation prescribe: each vertex of the two meshes as often as the size of its
//! inclusion number, and each crossing of an edge and a face as often as the size of its own. `prescribe` lists them in
//! order, each with where it comes from and its point, and counts them and the half-edges at them. Where the numbers are
//! conserved, each list of a face in which the copies stand has as many starts as ends. After J. M. Smith's thesis
//! "Towards robust inexact geometric computation" and the Manifold library.
#![tactic(auto)]

mod checked;
mod copies;
mod counts;
mod list;
mod operand;
mod points;

pub use checked::are_prescribed;
pub use list::{PrescribeFault, Prescribed, prescribe};
pub use operand::{Operand, hit_number};
pub use points::point_of;
