//! Laws of reading and writing OBJ and ASCII STL, each as the contract of a function that does nothing. The lemmas stand in `proofs/`.
#![tactic(auto)]

pub mod obj;
mod stl;

pub use stl::{files_give_meshes, meshes_read_welded, spelled_files_read};
