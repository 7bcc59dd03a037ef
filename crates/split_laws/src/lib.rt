//! Laws of meshes without triangles that cancel, and of meshes with one vertex for each fan: they are accepted, as operations need and give them.
//!
//! The lemmas stand in `proofs/`, for the crates above to cite.
#![tactic(auto)]
