//! The triangles of source faces: those that fill the loops of a face's segments in the plane of the face, face by face, those
//! of the first mesh before those of the second.
#![tactic(auto)]

mod all;
mod face;
pub mod given;
pub mod laws;
pub mod lists;
mod plain;
mod triangles;

pub use all::triangles_of;
pub use lists::{CopyRange, Stand, group_end, plane_of, runs_of, segments_of_face, stands_of};
pub use plain::{are_equal, copy_triple};
pub use triangles::SourceTriangles;
