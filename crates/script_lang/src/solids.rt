// The commands that make solids, and their steps.
ghost use Rattle.std.specs.Prelude.{◌≡◌, ◌≤◌, List, map, Ok, Err, IfOk, IfErr};
ghost use Rattle.std.specs.Option.{option_map};
ghost use Rattle.play_terms.specs.ScriptCommands.{named_in, solids};
ghost use Rattle.play_terms.specs.Scripts.{command_step};
ghost use Rattle.play_terms.specs.Steps.{Line};
ghost use Rattle.script_lang.specs.Steps.{making, step_of};

use crate::fault::WRONG_COUNT;
use crate::operands::{name_text, number, point, within};
use crate::steps::{Step, Word};

/// A command that makes a solid.
#[derive(Clone, Copy, Drop)]
pub enum SolidCommand {
    Box,
    Tetra,
    Prism,
    Lattice,
}

impl SolidCommand {
    /// The command of this word, if there is one.
    pub fn named(word: &[u8]) -> Option<SolidCommand>
        ensures { option_map making result ≡ named_in solids word.now }
    {
        if word == b"box".as_slice() {
            Some(SolidCommand::Box)
        } else if word == b"tetra".as_slice() {
            Some(SolidCommand::Tetra)
        } else if word == b"prism".as_slice() {
            Some(SolidCommand::Prism)
        } else if word == b"lattice".as_slice() {
            Some(SolidCommand::Lattice)
        } else {
            None
        }
    }
}

/// The step that makes a solid of these operands; else the kind of the first fault.
pub fn solid_step<'a>(
    solid: SolidCommand,
    operands: &[&'a [u8]],
    digits: u8,
) -> Result<Step<'a>, u8>
    requires { digits ≤ 6 }
    ensures step { (before : List Line) → IfOk result (λ step. command_step digits before (map (λ w. w.now) operands.now) (making solid) ≡ Ok (step_of step)) }
    ensures fault { (before : List Line) → IfErr result (λ kind. command_step digits before (map (λ w. w.now) operands.now) (making solid) ≡ Err kind) }
{
    match (solid, operands) {
        (SolidCommand::Box, &[name, x, y, z, u, v, w]) => Ok(Step::MakeBox {
            name: Word::of(name_text(name)?),
            low: point(x, y, z, digits)?,
            high: point(u, v, w, digits)?,
        }),
        (SolidCommand::Tetra, &[name, x, y, z, size]) => Ok(Step::MakeTetra {
            name: Word::of(name_text(name)?),
            at: point(x, y, z, digits)?,
            size: number(size, digits)?,
        }),
        (SolidCommand::Prism, &[name, x, y, z, size, height]) => Ok(Step::MakePrism {
            name: Word::of(name_text(name)?),
            at: point(x, y, z, digits)?,
            size: number(size, digits)?,
            height: number(height, digits)?,
        }),
        (SolidCommand::Lattice, &[name, n, seed]) => Ok(Step::MakeLattice {
            name: Word::of(name_text(name)?),
            n: within(n, 1, 60)?,
            seed: within(seed, 0, 999_999)?,
        }),
        _ => Err(WRONG_COUNT),
    }
}
