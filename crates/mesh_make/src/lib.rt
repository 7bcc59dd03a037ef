//! Made meshes: solids, and meshes after a motion.
//!
//! Each answer is closed by its form, so nothing is searched to accept it. Made triangles have empty labels, and a motion
//! keeps the labels, shared by the two meshes. Refusals come in one order: `FlatSolid`, then
//! `OutOfGrid`, then `Over` for points and for triangles; each exactly where its reason stands and none before it.
#![tactic(auto)]

mod components;
mod fault;
mod figures;
mod lattice;
mod made;
mod making;
mod measuring;
mod motions;
mod rows;
mod solids;
mod volume;

pub use fault::MakeFault;
pub use figures::Measure;
pub use lattice::make_lattice;
pub use made_terms::{Motion, Solid};
pub use making::make_solid;
pub use measuring::measure;
pub use motions::{mirror, move_by, quarter_turn, scale, shift};
pub use solids::{make_box, make_prism, make_tetra};
pub use volume::volume6;
