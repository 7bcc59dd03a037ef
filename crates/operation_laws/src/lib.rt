//! Laws of operations on meshes, whatever is computed: what an operation under the kernels of the grid, or under exact ones, gives of two
//! accepted meshes is accepted and within lawful limits, its text is read as it, and it is a result of these meshes.
//!
//! The lemmas stand in `proofs/`, for the crates above to cite. The functions of `laws` do nothing, and their contracts are the laws.
#![tactic(auto)]

pub mod laws;
