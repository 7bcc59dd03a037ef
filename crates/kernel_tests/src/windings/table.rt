//! Two hundred pairs of small meshes with their hits and winding numbers, under two roundings, in three lines each.
//!
//! The first line has the operation that marks the first mesh, then the points and the triangles of the first mesh, and
//! those of the second: three digits a point, three a triangle. The other two have the answers, to the nearest and under
//! the rounding `Low`: the winding numbers of the first mesh's points and of the second's, then a word for each hit
//! of the first mesh's edges and, after a bar, of the second's: edge, face, number, and the point in three digits. Each
//! number is one digit, a letter from a for 10 on, with a sign before it where it is below 0.
//!
//! The meshes came from a random generator: tetrahedra, cones over loose triangles, triangles with their opposites,
//! prisms and octahedra over any points, some with triangles repeated or turned, all within a few grid steps, so that many
//! points are equal and coordinates tie. The answers are those of an independent program of the same definitions, which
//! goes over all pairs and counts in fine steps of 1/256 of a grid step.
mod first;
mod second;

pub use first::FIRST_PAIRS;
pub use second::SECOND_PAIRS;
