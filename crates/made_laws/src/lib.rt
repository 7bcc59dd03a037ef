//! Laws of made solids and of moved meshes: a solid that is not refused is an accepted mesh at points of the grid and within
//! the limits, and a motion that is not refused keeps such a mesh, with as many points and triangles.
//!
//! The lemmas stand in `proofs/`, for the crates above to cite; the functions of `laws` do nothing, and their contracts are
//! the main laws.
#![tactic(auto)]

pub mod laws;
