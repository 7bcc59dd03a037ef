//! Reads the scripts of the program.
//!
//! A line ends at LF or at the end of the text, and one CR at its end is dropped. EF BB BF at the start is passed
//! over. The words of a line are longest runs without spaces and tabs, up to one that begins with `#`. A line
//! without words is passed over. Any other is a command and its operands: `ScriptCommands.antt` of `play_terms` has each
//! with its word, its operands and its step, and `docs/FORMATS.md` says what they do.
//!
//! A NAME has at most 32 bytes, the first an ASCII letter and the others ASCII letters, digits or `_`. An OLD is a name
//! that a line above gives, and what the last of these gives it is a mesh or an outline, as it is wanted. A FILE is a text
//! that ends with `.obj` or `.stl`, ASCII case ignored. X, Y, Z, SIZE, HEIGHT, LOW and HIGH are decimal numbers on the
//! grid. N is from 1 to 60, SEED from 0 to 999999 and FACTOR from 1 to 1000000, each in one to seven digits. An AXIS is
//! `x`, `y` or `z`. A polygon has from 3 to 64 pairs of X and Y.
#![tactic(auto)]

ghost use Rattle.std.specs.Prelude.{◌≡◌, ◌≤◌, [], Ok, IfOk, IfErr};
ghost use Rattle.play_terms.specs.Scripts.{script};
ghost use Rattle.play_terms.specs.Sound.{AreSound};
ghost use Rattle.script_lang.specs.Faults.{IsFaultOf};

mod commands;
mod corners;
mod fault;
mod motions;
mod names;
mod operands;
mod polygons;
mod reading;
mod solids;
mod steps;
mod words;

pub use corners::Corners2;
pub use fault::ScriptFault;
use reading::Reading;
use std::alloc::Global;
pub use steps::{Line, Script, Step, Word};

/// The steps of a script in their order, each with the number of its line, from 1. Their words are those of the
/// script's bytes. Numbers on the grid are read under so many digits, in grid steps; axes are 0 to 2 for x to z.
///
/// The first faulty line refuses the script, with
///
/// - 20: no command has its first word,
/// - 21: too few or too many operands, and then for the operands in their order
/// - 22: no name can be written so,
/// - 23: no line above gives this name, or it has a mesh where an outline is wanted, or the other way round,
/// - 24: not a number on the grid, not in the range, or not an axis,
/// - 25: not UTF-8, or not the ending of a mesh file.
///
/// Besides these only memory may lack. The time is in proportion to the bytes, where the look-up of a name counts as
/// constant.
pub fn read_script(alloc: Global, bytes: &[u8], digits: u8) -> Result<Script<'_>, ScriptFault>
    requires { digits ≤ 6 }
    ensures script { IfOk result (λ lines. script digits bytes.now ≡ Ok lines) }
    ensures sound { IfOk result (λ lines. AreSound [] lines) }
    ensures fault { IfErr result (IsFaultOf (script digits bytes.now)) }
{
    match Reading::of(alloc, bytes, digits) {
        Ok(reading) => Ok(reading.into_script()),
        Err(fault) => Err(fault),
    }
}
