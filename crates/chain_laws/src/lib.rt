//! Laws of sums over lists, of chains of directed edges and of signed lists: the algebra that knows no mesh.
//!
//! A chain is a list of directed edges between numbered vertices. It is closed where each edge occurs as often as its
//! reverse. The lemmas stand in `specs/` and `proofs/`, for the crates above to cite; the functions of `laws` do nothing,
//! and their contracts are the main laws.
#![tactic(auto)]

pub mod laws;
