// Why a mesh is not made.
ghost use Rattle.std.specs.Prelude.{◌≡◌};

use mb_base::{Counted, NoMemory};
use std::alloc::AllocError;

/// Why a solid is not made or a mesh is not moved: a coordinate would leave the grid; the solid would have no volume; it
/// would have more points or triangles than the limits allow, with its number of them; or want of memory.
#[derive(Clone, Copy, Debug, PartialEq, Eq, Drop)]
pub enum MakeFault {
    OutOfGrid,
    FlatSolid,
    Over { what: Counted, seen: u64 },
    NoMemory,
}

impl From<NoMemory> for MakeFault {
    ghost use Rattle.mesh_make.specs.declared.fault.MakeFault.TheVariants.{NoMemory};

    ghost from_gives = { λ _ e. e ≡ NoMemory };

    fn from(_: NoMemory) -> Self {
        MakeFault::NoMemory
    }
}

impl From<AllocError> for MakeFault {
    ghost use Rattle.mesh_make.specs.declared.fault.MakeFault.TheVariants.{NoMemory};

    ghost from_gives = { λ _ e. e ≡ NoMemory };

    fn from(_: AllocError) -> Self {
        MakeFault::NoMemory
    }
}
