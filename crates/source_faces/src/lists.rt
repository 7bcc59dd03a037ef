//! The lists of each source face, in which the copies of prescribed vertices stand as starts and ends, and the segments that
//! these lists give. A vertex's copies are told by a run of numbers; those of hits are recorded with the faces and the lists
//! in which they stand, and the records are sorted once, so that they are read along with the faces.

mod entries;
pub mod group_laws;
pub mod laws;
mod places;
mod runs;
mod segments;
mod stands;

pub use places::plane_of;
pub use runs::{CopyRange, runs_of};
pub use segments::segments_of_face;
pub use stands::{Stand, group_end, stands_of};
