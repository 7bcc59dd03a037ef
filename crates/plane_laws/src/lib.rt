//! Laws of exact signs in the plane and in space, over whole numbers alone: where two edges meet, when a vertex lies in a
//! face, and which of two simplices is above the other, where one of two sides counts as moved by a hair.
//!
//! The lemmas stand in `specs/`, for the laws of exact shadow tests to cite.
#![tactic(auto)]
