//! Laws of remeshing: what filling each plane anew keeps of the surface.
//!
//! The lemmas stand in `proofs/`, for the crates above to cite; the functions of `laws` do nothing, and their contracts
//! are the main laws.
#![tactic(auto)]

pub mod laws;
