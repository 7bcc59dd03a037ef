// Why a part of a run stopped: at the words, at a script or a step of one, or at a file.
ghost use Rattle.std.specs.Prelude.{◌≡◌};

use mb_base::{Counted, TextFault, TextKind};
use mesh_check::MeshFault;
use std::alloc::AllocError;

/// Why the words or a script were not taken, a solid was not made, a mesh not moved, or a file not read or saved: a line of the script is wrong, by
/// the number of its kind; the mesh that a line makes would leave the grid, 15, or have no volume, 16; the file is not there; a line of its text is
/// wrong; an edge has no reverse; a count exceeds its limit; the shelf failed; or memory ran out.
#[derive(Clone, Copy, Debug, PartialEq, Eq, Drop)]
pub enum Stop {
    Usage,
    BadScript { line: u64, kind: u8 },
    BadStep { line: u64, kind: u8 },
    Missing,
    BadText { line: u64, kind: TextKind },
    BadEdge { from: u32, to: u32 },
    Over { what: Counted, seen: u64 },
    ReadFault,
    WriteFault,
    NoMemory,
}

impl From<AllocError> for Stop {
    ghost use Rattle.mesh_files.specs.declared.stop.Stop.TheVariants.{NoMemory};

    ghost from_gives = { λ _ stop. stop ≡ NoMemory };

    fn from(_: AllocError) -> Self {
        Stop::NoMemory
    }
}

impl From<TextFault> for Stop {
    ghost use Rattle.mesh_files.specs.Faults.{stop_of_text};

    ghost from_gives = { λ fault stop. stop ≡ stop_of_text fault };

    fn from(fault: TextFault) -> Self {
        match fault {
            TextFault::Bad { line, kind } => Stop::BadText { line, kind },
            TextFault::Over { what, seen } => Stop::Over { what, seen },
            TextFault::NoMemory => Stop::NoMemory,
        }
    }
}

impl From<MeshFault> for Stop {
    ghost use Rattle.mesh_files.specs.Faults.{stop_of_mesh};

    ghost from_gives = { λ fault stop. stop ≡ stop_of_mesh fault };

    fn from(fault: MeshFault) -> Self {
        match fault {
            MeshFault::OpenEdge { from, to } => Stop::BadEdge { from, to },
            MeshFault::NoMemory => Stop::NoMemory,
        }
    }
}
