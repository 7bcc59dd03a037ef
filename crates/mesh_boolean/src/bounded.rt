//! Whether triangles over prescribed vertices are bounded by segments: those of each source face by the segments of that
//! face.

mod all;
mod face;
pub mod given;
mod plain;

pub use all::are_bounded;
