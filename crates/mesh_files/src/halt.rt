// Where a command stopped.
ghost use Rattle.std.specs.Prelude.{◌≡◌};

use crate::stop::Stop;
use mb_base::NoMemory;
use mb_outside::Failed;

/// Where a command stopped: at the file of this name, as it reported on the output, or where memory ran out between the two.
#[derive(Clone, Copy, Debug, PartialEq, Eq, Drop)]
pub enum Halt<'a> {
    At { name: &'a str, stop: Stop },
    Reporting,
    NoMemory,
}

impl<'a> From<Failed> for Halt<'a> {
    ghost use Rattle.mesh_files.specs.declared.halt.Halt.TheVariants.{Reporting};

    ghost from_gives = { λ _ halt. halt ≡ Reporting };

    fn from(_: Failed) -> Self {
        Halt::Reporting
    }
}

impl<'a> From<NoMemory> for Halt<'a> {
    ghost use Rattle.mesh_files.specs.declared.halt.Halt.TheVariants.{NoMemory};

    ghost from_gives = { λ _ halt. halt ≡ NoMemory };

    fn from(_: NoMemory) -> Self {
        Halt::NoMemory
    }
}
