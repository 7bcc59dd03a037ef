//! Laws of the segments of source faces and of their fillings: what an assembled mesh stands on, whichever vertices are prescribed.
//!
//! In each source face the segments form loops without a common vertex; those of all faces together cancel; no loop has fewer than
//! three vertices; and each copy lies on the segments of some face. So the segments of each face can be filled, and all fillings
//! together are a closed mesh. The lemmas stand in `proofs/`. The functions of `of_segments` and `of_fillings` do nothing, and their
//! contracts are the laws.
#![tactic(auto)]

pub mod of_fillings;
pub mod of_segments;
