// Why a script is refused.
ghost use Rattle.std.specs.Prelude.{◌≡◌};

use std::alloc::{AllocError, AllocFailed};

/// The first word is no command.
pub const BAD_WORD: u8 = 20;

/// The operands are not as many as stated.
pub const WRONG_COUNT: u8 = 21;

/// A name is none.
pub const BAD_NAME: u8 = 22;

/// A name is not that of an earlier line, or holds something of another kind.
pub const NAME_NOT_DEFINED: u8 = 23;

/// A number is none, is off the grid or out of its range, or an axis is none.
pub const BAD_NUMBER: u8 = 24;

/// A file is no text, or has another suffix.
pub const BAD_SUFFIX: u8 = 25;

/// Why a script is refused: its first faulty line, counted from 1, with the number of the kind of fault; or want
/// of memory.
#[derive(Clone, Copy, Debug, PartialEq, Eq, Drop)]
pub enum ScriptFault {
    Bad { line: u64, kind: u8 },
    NoMemory,
}

/// The fault of a line.
pub fn bad(line: u64, kind: u8) -> ScriptFault
    ensures { result ≡ ScriptFault.Bad line kind }
{
    ScriptFault::Bad { line, kind }
}

impl From<AllocError> for ScriptFault {
    ghost use Rattle.script_lang.specs.declared.fault.ScriptFault.TheVariants.{NoMemory};

    ghost from_gives = { λ _ e. e ≡ NoMemory };

    fn from(_: AllocError) -> Self {
        ScriptFault::NoMemory
    }
}

impl<T: Drop> From<AllocFailed<T>> for ScriptFault {
    ghost use Rattle.script_lang.specs.declared.fault.ScriptFault.TheVariants.{NoMemory};

    ghost from_gives = { λ _ e. e ≡ NoMemory };

    fn from(_: AllocFailed<T>) -> Self {
        ScriptFault::NoMemory
    }
}
