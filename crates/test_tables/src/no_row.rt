// Why a line is no row of a table.
use mb_base::NoMemory;
use mesh_check::MeshFault;
use std::alloc::{AllocError, AllocFailed};

/// Why a line is no row of a table, or a number has no digit: a part of it is missing or is none, or memory is wanting.
#[derive(Clone, Copy, Debug, Drop)]
pub enum NoRow {
    NoPart,
    NoDigit,
    OutsideGrid,
    NoMesh,
    NoMemory,
}

impl From<AllocError> for NoRow {
    fn from(_: AllocError) -> Self {
        NoRow::NoMemory
    }
}

impl<T: Drop> From<AllocFailed<T>> for NoRow {
    fn from(_: AllocFailed<T>) -> Self {
        NoRow::NoMemory
    }
}

impl From<NoMemory> for NoRow {
    fn from(_: NoMemory) -> Self {
        NoRow::NoMemory
    }
}

impl From<MeshFault> for NoRow {
    fn from(_: MeshFault) -> Self {
        NoRow::NoMesh
    }
}
