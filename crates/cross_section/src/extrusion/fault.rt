// Why an outline is not extruded.
ghost use Rattle.std.specs.Prelude.{◌≡◌};

use mb_base::{Counted, NoMemory};
use std::alloc::AllocError;

/// Why an outline is not extruded: the low height is not below the high one; the solid would have more points or triangles
/// than the limits allow, with its number of them; or want of memory.
#[derive(Clone, Copy, Debug, PartialEq, Eq, Drop)]
pub enum ExtrudeFault {
    FlatSolid,
    Over { what: Counted, seen: u64 },
    NoMemory,
}

impl From<NoMemory> for ExtrudeFault {
    ghost use Rattle.cross_section.specs.declared.extrusion.fault.ExtrudeFault.TheVariants.{NoMemory};

    ghost from_gives = { λ _ e. e ≡ NoMemory };

    fn from(_: NoMemory) -> Self {
        ExtrudeFault::NoMemory
    }
}

impl From<AllocError> for ExtrudeFault {
    ghost use Rattle.cross_section.specs.declared.extrusion.fault.ExtrudeFault.TheVariants.{NoMemory};

    ghost from_gives = { λ _ e. e ≡ NoMemory };

    fn from(_: AllocError) -> Self {
        ExtrudeFault::NoMemory
    }
}
