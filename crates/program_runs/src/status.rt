// How a run ended.
ghost use Rattle.std.specs.Prelude.{◌≡◌};
ghost use Rattle.play_terms.specs.Ends.{why_status};
ghost use Rattle.run_terms.specs.Files.{Bytes};
ghost use Rattle.mesh_files.specs.Reasons.{why_of};
ghost use Rattle.mesh_files.specs.Halts.{why_in};
ghost use Rattle.program_runs.specs.Statuses.{status_number};

use mesh_files::{Halt, Stop};

/// How a run ended.
#[derive(Clone, Copy, Debug, PartialEq, Eq, Drop)]
pub enum Status {
    Done,
    Usage,
    BadScript,
    MissingFile,
    BadMesh,
    Limit,
    ReadFault,
    WriteFault,
    NoMemory,
}

impl Status {
    ghost use Rattle.program_runs.specs.Statuses.{status_number};

    /// The exit status, from 0 to 8.
    pub fn number(self) -> u8
        ensures { result ≡ status_number self }
    {
        match self {
            Status::Done => 0,
            Status::Usage => 1,
            Status::BadScript => 2,
            Status::MissingFile => 3,
            Status::BadMesh => 4,
            Status::Limit => 5,
            Status::ReadFault => 6,
            Status::WriteFault => 7,
            Status::NoMemory => 8,
        }
    }
}

/// The status of a run that stopped at a file, at a line of its script, or for want of its words.
pub fn status_at(stop: &Stop) -> Status
    ensures { (name : Bytes) → status_number result ≡ why_status (why_of name stop.now) }
{
    match stop {
        Stop::Usage => Status::Usage,
        Stop::BadScript { .. } => Status::BadScript,
        Stop::Missing => Status::MissingFile,
        Stop::BadText { .. } | Stop::BadEdge { .. } | Stop::BadStep { .. } => Status::BadMesh,
        Stop::Over { .. } => Status::Limit,
        Stop::ReadFault => Status::ReadFault,
        Stop::WriteFault => Status::WriteFault,
        Stop::NoMemory => Status::NoMemory,
    }
}

/// The status of a run whose command stopped.
pub fn status_of(halt: &Halt<'_>) -> Status
    ensures { status_number result ≡ why_status (why_in halt.now) }
{
    match halt {
        Halt::At { stop, .. } => status_at(stop),
        Halt::Reporting => Status::WriteFault,
        Halt::NoMemory => Status::NoMemory,
    }
}
