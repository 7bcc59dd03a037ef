//! Definitions of the components of a mesh, the classes of vertices that its edges join; and laws of them: how many there are is a
//! number that can be computed. The lemmas stand in `proofs/`; the functions of `laws` do nothing, and their contracts are the main laws.
#![tactic(auto)]

pub mod laws;
