//! What is read of the STL text of a mesh: the mesh with its points at one place as one, closed again.
//!
//! An STL text names no points, so its reader welds corners at one place. The lemmas stand in `proofs/`, and the function of
//! `laws` does nothing: its contract is the law.
#![tactic(auto)]

pub mod laws;
