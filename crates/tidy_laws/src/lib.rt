//! Laws of tidying: what the collapse of an edge keeps, which edges can open by it, and what tidied triangles are.
//!
//! The lemmas stand in `proofs/`, for the crates above to cite; the functions of `laws` do nothing, and their contracts
//! are the main laws.
#![tactic(auto)]

pub mod laws;
