//! Laws of four places in space and a fifth that counts as moved by a hair, over whole numbers alone: the shadows of the fifth
//! on the four faces of the tetrahedron add up to minus its sign where the fifth is inside, else to 0.
//!
//! The lemmas stand in `specs/`, for the laws of winding numbers to cite.
#![tactic(auto)]
