// The commands that move meshes, and their steps.
ghost use Rattle.std.specs.Prelude.{◌≡◌, ◌≤◌, map, Ok, Err, IfOk, IfErr};
ghost use Rattle.std.specs.Option.{option_map};
ghost use Rattle.play_terms.specs.ScriptCommands.{motions, named_in};
ghost use Rattle.play_terms.specs.Scripts.{command_step};
ghost use Rattle.script_lang.specs.Steps.{moving, step_of};

use crate::fault::WRONG_COUNT;
use crate::operands::{axis, name_text, three, within};
use crate::reading::Reading;
use crate::steps::{Step, Word};

/// A command that moves a mesh.
#[derive(Clone, Copy, Drop)]
pub enum MotionCommand {
    Shift,
    Scale,
    Mirror,
    Turn,
}

impl MotionCommand {
    /// The command of this word, if there is one.
    pub fn named(word: &[u8]) -> Option<MotionCommand>
        ensures { option_map moving result ≡ named_in motions word.now }
    {
        if word == b"shift".as_slice() {
            Some(MotionCommand::Shift)
        } else if word == b"scale".as_slice() {
            Some(MotionCommand::Scale)
        } else if word == b"mirror".as_slice() {
            Some(MotionCommand::Mirror)
        } else if word == b"turn".as_slice() {
            Some(MotionCommand::Turn)
        } else {
            None
        }
    }
}

impl<'a> Reading<'a> {
    /// The step that moves a mesh by these operands; else the kind of the first fault.
    pub fn motion_step(
        &self,
        motion: MotionCommand,
        operands: &[&'a [u8]],
        digits: u8,
    ) -> Result<Step<'a>, u8>
        requires { digits ≤ 6 }
        ensures step { IfOk result (λ step. command_step digits self.now (map (λ w. w.now) operands.now) (moving motion) ≡ Ok (step_of step)) }
        ensures fault { IfErr result (λ kind. command_step digits self.now (map (λ w. w.now) operands.now) (moving motion) ≡ Err kind) }
    {
        match (motion, operands) {
            (MotionCommand::Shift, &[name, source, x, y, z]) => Ok(Step::Shift {
                name: Word::of(name_text(name)?),
                source: Word::of(self.mesh_text(source)?),
                by: three(x, y, z, digits)?,
            }),
            (MotionCommand::Scale, &[name, source, factor]) => Ok(Step::Scale {
                name: Word::of(name_text(name)?),
                source: Word::of(self.mesh_text(source)?),
                factor: within(factor, 1, 1_000_000)?,
            }),
            (MotionCommand::Mirror, &[name, source, of]) => Ok(Step::Mirror {
                name: Word::of(name_text(name)?),
                source: Word::of(self.mesh_text(source)?),
                axis: axis(of)?,
            }),
            (MotionCommand::Turn, &[name, source, about]) => Ok(Step::Turn {
                name: Word::of(name_text(name)?),
                source: Word::of(self.mesh_text(source)?),
                axis: axis(about)?,
            }),
            _ => Err(WRONG_COUNT),
        }
    }
}
