// Why outlines are not combined.
ghost use Rattle.std.specs.Prelude.{◌≡◌};

use mb_base::{Counted, NoMemory};
use std::alloc::AllocError;

/// Why outlines are not combined: the result would have more vertices than the limit on points, or than an outline may have,
/// with their number; or want of memory.
#[derive(Clone, Copy, Debug, PartialEq, Eq, Drop)]
pub enum OutlineFault {
    Over { what: Counted, seen: u64 },
    NoMemory,
}

impl From<NoMemory> for OutlineFault {
    ghost use Rattle.cross_section.specs.declared.fault.OutlineFault.TheVariants.{NoMemory};

    ghost from_gives = { λ _ e. e ≡ NoMemory };

    fn from(_: NoMemory) -> Self {
        OutlineFault::NoMemory
    }
}

impl From<AllocError> for OutlineFault {
    ghost use Rattle.cross_section.specs.declared.fault.OutlineFault.TheVariants.{NoMemory};

    ghost from_gives = { λ _ e. e ≡ NoMemory };

    fn from(_: AllocError) -> Self {
        OutlineFault::NoMemory
    }
}
