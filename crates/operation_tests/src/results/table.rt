//! Pairs of meshes with what operations give of them.
//!
//! The solids and the loose parts have three lines a pair. The first has the operation, then the points and the triangles of the first mesh, and those of the
//! second: three digits a point, three a triangle; each number is one digit, a letter from a for 10 on, and a point stands for
//! no word. The other two have what the operation gives, to the nearest and under the rounding `Low`, as `text_of` writes it;
//! those of the pairs under the farthest roundings have it under `Low` and under `High`.
//! The answers are those of an independent program of the same definitions, which goes over all pairs of an edge and a face
//! and counts in fine steps of 1/256 of a grid step.
mod farthest;
mod loose;
mod solids;
mod worked;

pub use farthest::FARTHEST;
pub use loose::LOOSE;
pub use solids::SOLIDS;
pub use worked::WORKED;
