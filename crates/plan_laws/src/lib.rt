//! Laws of planes that are filled anew, for the code that does so: a triangle that is alone in its plane fills itself, and both sides of a plane are told alike.
//!
//! The lemmas stand in `proofs/`, for the crates above to cite; the functions of `laws` do nothing, and their contracts are the main laws.
#![tactic(auto)]

pub mod laws;
