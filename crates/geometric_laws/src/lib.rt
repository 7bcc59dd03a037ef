//! What an operation under exact kernels keeps of the vertices of two meshes, as geometry has it: a vertex of one, reduced, that lies
//! in no closed triangle of the other is prescribed as often as the operation on the number of tetrahedra that contain it says.
//!
//! The definitions stand in `specs/Geometric.antt`, over those of `solid_terms`. The function of `laws` does nothing, and its contract is the law.
#![tactic(auto)]

mod calls;
pub mod laws;

pub use calls::exact_boolean;
