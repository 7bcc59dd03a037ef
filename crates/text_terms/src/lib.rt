//! Definitions of texts: decimal numbers on the grid, lines and words, what is read until the first fault, and names of files.
//! Laws of digits, words and cuts stand in `proofs/`, for the crates above to cite.
#![tactic(auto)]
