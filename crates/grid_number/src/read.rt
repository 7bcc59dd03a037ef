// The grid number of a decimal text.
ghost use Rattle.std.specs.Prelude.{◌≡◌, ◌≤◌, ◌<◌, ◌↔◌, ◌^◌, IsTrue, IfOk, IfErr, Some, None};
ghost use Rattle.text_terms.specs.Numbers.{grid_number, is_on_grid};
ghost use Rattle.grid_number.specs.Reading.{IsOffGrid, with_sign};

use crate::number::Number;

// The grid's end.
const END: u64 = 1 << 30;

/// Why a text has no grid number.
#[derive(Clone, Copy, Debug, PartialEq, Eq, Drop)]
pub enum NumberFault {
    /// The text is not a decimal number.
    NotANumber = 1,
    /// Its value is off the grid.
    OutOfGrid = 2,
}

impl NumberFault {
    ghost use Rattle.grid_number.specs.Faults.{fault_number};

    /// The number of the fault, 1 or 2.
    pub fn number(self) -> u8
        ensures { result ≡ fault_number self }
    {
        match self {
            NumberFault::NotANumber => 1,
            NumberFault::OutOfGrid => 2,
        }
    }
}

/// The value of a decimal text in steps of the grid, with `digits` decimal digits after a unit's point: an
/// optional `+` or `-`, digits with or without a point among, before or behind them, and optionally `e` or `E`
/// and a whole number. The value is rounded to the nearest step, halves away from 0. Texts of any length and
/// any exponent are read exactly.
pub fn read_grid(text: &[u8], digits: u8) -> Result<i32, NumberFault>
    requires { digits ≤ 6 }
    ensures ok { IfOk result (λ z. (grid_number digits text.now ≡ Some z) × IsTrue (is_on_grid z)) }
    ensures not_a_number { (result ≡ Err NumberFault.NotANumber) ↔ (grid_number digits text.now ≡ None) }
    ensures out_of_grid { (result ≡ Err NumberFault.OutOfGrid) ↔ IsOffGrid (grid_number digits text.now) }
{
    match Number::of(text) {
        None => Err(NumberFault::NotANumber),
        Some(number) => on_grid(number.negative, number.size(digits)),
    }
}

// The value of a sign and a size.
fn on_grid(negative: bool, size: u64) -> Result<i32, NumberFault>
    ensures ok { IfOk result (λ z. (z ≡ with_sign negative size) × (size ≤ 2 ^ 30)) }
    ensures err { IfErr result (λ fault. (fault ≡ NumberFault.OutOfGrid) × (2 ^ 30 < size)) }
{
    if size > END {
        return Err(NumberFault::OutOfGrid);
    }
    let size = size as i32;
    Ok(if negative { -size } else { size })
}
