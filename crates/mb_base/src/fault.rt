// Why a text is refused.
ghost use Rattle.std.specs.Prelude.{◌≡◌};

use crate::NoMemory;
use std::alloc::{AllocError, AllocFailed};

/// What a limit counts.
#[derive(Clone, Copy, Debug, PartialEq, Eq, Drop)]
pub enum Counted {
    FileBytes,
    Points,
    Triangles,
    Halfedges,
}

/// What is wrong with a line of a text.
#[derive(Clone, Copy, Debug, PartialEq, Eq, Drop)]
pub enum TextKind {
    UnknownLine,
    BadVertex,
    BadNumber,
    OutOfGrid,
    BadFace,
    BadIndex,
    FaceRepeatsVertex,
    NotStl,
}

/// Why a text is refused: its first faulty line, counted from 1; a count that exceeds its limit, as
/// it stands where the limit is passed; or want of memory.
#[derive(Clone, Copy, Debug, PartialEq, Eq, Drop)]
pub enum TextFault {
    Bad { line: u64, kind: TextKind },
    Over { what: Counted, seen: u64 },
    NoMemory,
}

impl From<AllocError> for TextFault {
    ghost use Rattle.mb_base.specs.declared.fault.TextFault.TheVariants.{NoMemory};

    ghost from_gives = { λ _ e. e ≡ NoMemory };

    fn from(_: AllocError) -> Self {
        TextFault::NoMemory
    }
}

impl From<NoMemory> for TextFault {
    ghost use Rattle.mb_base.specs.declared.fault.TextFault.TheVariants.{NoMemory};

    ghost from_gives = { λ _ e. e ≡ NoMemory };

    fn from(_: NoMemory) -> Self {
        TextFault::NoMemory
    }
}

impl<T: Drop> From<AllocFailed<T>> for TextFault {
    ghost use Rattle.mb_base.specs.declared.fault.TextFault.TheVariants.{NoMemory};

    ghost from_gives = { λ _ e. e ≡ NoMemory };

    fn from(_: AllocFailed<T>) -> Self {
        TextFault::NoMemory
    }
}
