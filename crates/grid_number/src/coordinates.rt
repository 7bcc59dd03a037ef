// The coordinates of a text.
ghost use Rattle.std.specs.Prelude.{◌≡◌, ◌≤◌, Ok, Err, IfOk, IfErr};
ghost use Rattle.text_terms.specs.Coordinates.{coordinate};
ghost use Rattle.mesh_terms.specs.Points.{IsOnGrid};
ghost use Rattle.mb_base.specs.Faults.{kind_number};

use crate::{NumberFault, read_grid};
use mb_base::{TextFault, TextKind};

/// A coordinate in grid steps, where a unit has `digits` decimal digits.
pub fn coordinate(word: &[u8], digits: u8) -> Result<i32, TextKind>
    requires { digits ≤ 6 }
    ensures value { IfOk result (λ z. coordinate digits word.now ≡ Ok z) }
    ensures on_grid { IfOk result IsOnGrid }
    ensures fault { IfErr result (λ kind. coordinate digits word.now ≡ Err (kind_number kind)) }
{
    match read_grid(word, digits) {
        Ok(value) => Ok(value),
        Err(NumberFault::NotANumber) => Err(TextKind::BadNumber),
        Err(NumberFault::OutOfGrid) => Err(TextKind::OutOfGrid),
    }
}

/// The fault of a line.
pub fn bad(line: u64, kind: TextKind) -> TextFault
    ensures { result ≡ TextFault.Bad line kind }
{
    TextFault::Bad { line, kind }
}
