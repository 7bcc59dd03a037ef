//! The plain types that the crates share: points of the grid, corners, limits, points with triangles
//! as a file gives them with their labels, faults of a text, lists of words, and a counter of steps. Nothing here takes memory
//! but `ArgList::push`, `copied` and, of `Labels`, `push`, `copy` and `of_faces`.
#![tactic(auto)]

mod arg_list;
mod boxes;
mod cross_product;
mod fault;
mod kernel_kind;
mod labels;
mod limits;
mod op;
mod point;
mod results;
mod soup;
mod steps;
mod triples;

pub use arg_list::ArgList;
pub use boxes::box_of;
pub use cross_product::cross;
pub use fault::{Counted, TextFault, TextKind};
pub use kernel_kind::KernelKind;
pub use labels::Labels;
pub use limits::{Limits, MOST_POINTS, MOST_TRIANGLES};
pub use op::Op;
pub use point::{Box3, Corner, Point};
pub use results::{Entry, Hit, Hits, Origin, Segment, Windings};
pub use soup::Soup;
use std::alloc::{AllocError, AllocFailed};
pub use steps::Steps;
pub use triples::copied;

/// Fine steps per grid step. A coordinate of a corner is a point's times this.
pub const UNIT: i64 = 256;

/// Want of memory.
#[derive(Clone, Copy, Debug, PartialEq, Eq, Drop)]
pub struct NoMemory;

impl From<AllocError> for NoMemory {
    fn from(_: AllocError) -> Self {
        NoMemory
    }
}

impl<T: Drop> From<AllocFailed<T>> for NoMemory {
    fn from(_: AllocFailed<T>) -> Self {
        NoMemory
    }
}
