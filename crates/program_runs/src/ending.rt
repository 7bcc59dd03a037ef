// How a command ends.
ghost use Rattle.std.specs.Prelude.{◌≡◌, ◌<◌, ◌^◌, ◌-◌};
ghost use Rattle.mb_outside.specs.Seen.{on_output};
ghost use Rattle.mesh_files.specs.Halts.{halted};
ghost use Rattle.program_runs.specs.Endings.{TellsAs};
ghost use Rattle.program_runs.specs.Statuses.{status_number};

use crate::status::{Status, status_of};
use mb_outside::Sink;
use mesh_files::Halt;
use report_lines::tell_halt;

/// The status of a command that ended well or stopped, with the line on `err` that tells a stop.
pub fn concluded<E: Sink>(ended: Result<(), Halt<'_>>, err: &mut E) -> Status
    requires { E.faults err.old < 2 ^ 64 - 1 }
    ensures told { TellsAs (halted ended.entry) (status_number result) (on_output E.Sink err.old) (on_output E.Sink err.new) }
    ensures quiet { result ≡ Status.Done → err.new ≡ err.old }
{
    match ended {
        Ok(()) => Status::Done,
        Err(halt) => {
            tell_halt(&halt, err);
            status_of(&halt)
        }
    }
}
