// The commands of a script.
ghost use Rattle.std.specs.Prelude.{◌≡◌, ◌++◌};
ghost use Rattle.std.specs.Option.{option_map};
ghost use Rattle.play_terms.specs.ScriptCommands.{command_named, motions, named_in, outlines, solids};
ghost use Rattle.script_lang.specs.Steps.{command_of};

use crate::motions::MotionCommand;
use crate::solids::SolidCommand;
use mb_base::Op;

/// A command.
#[derive(Clone, Copy, Drop)]
pub enum CommandWord {
    Load,
    Save,
    Measure,
    Inspect,
    Combine(Op),
    Make(SolidCommand),
    Move(MotionCommand),
    Tidy,
    Remesh,
    Polygon,
    Combine2(Op),
    Extrude,
    Exact,
}

impl CommandWord {
    /// The command of this word, if there is one.
    pub fn named(word: &[u8]) -> Option<CommandWord>
        ensures { option_map command_of result ≡ command_named word.now }
    {
        if word == b"load".as_slice() {
            Some(CommandWord::Load)
        } else if word == b"save".as_slice() {
            Some(CommandWord::Save)
        } else if word == b"measure".as_slice() {
            Some(CommandWord::Measure)
        } else if word == b"inspect".as_slice() {
            Some(CommandWord::Inspect)
        } else if word == b"union".as_slice() {
            Some(CommandWord::Combine(Op::Union))
        } else if word == b"intersect".as_slice() {
            Some(CommandWord::Combine(Op::Intersect))
        } else if word == b"subtract".as_slice() {
            Some(CommandWord::Combine(Op::Subtract))
        } else if word == b"tidy".as_slice() {
            Some(CommandWord::Tidy)
        } else if word == b"remesh".as_slice() {
            Some(CommandWord::Remesh)
        } else if word == b"exact".as_slice() {
            Some(CommandWord::Exact)
        } else {
            making_or_moving(word)
        }
    }
}

// The command of this word that makes a solid, moves a mesh or is one of outlines, if there is one.
fn making_or_moving(word: &[u8]) -> Option<CommandWord>
    ensures { option_map command_of result ≡ named_in (solids ++ (motions ++ outlines)) word.now }
{
    match SolidCommand::named(word) {
        Some(solid) => Some(CommandWord::Make(solid)),
        None => moving_by(word),
    }
}

// The command of this word that moves a mesh, or is one of outlines, if there is one.
fn moving_by(word: &[u8]) -> Option<CommandWord>
    ensures { option_map command_of result ≡ named_in (motions ++ outlines) word.now }
{
    match MotionCommand::named(word) {
        Some(motion) => Some(CommandWord::Move(motion)),
        None => of_outlines(word),
    }
}

// The command of this word that makes an outline, or a solid of one, if there is one.
fn of_outlines(word: &[u8]) -> Option<CommandWord>
    ensures { option_map command_of result ≡ named_in outlines word.now }
{
    if word == b"polygon".as_slice() {
        Some(CommandWord::Polygon)
    } else if word == b"union2".as_slice() {
        Some(CommandWord::Combine2(Op::Union))
    } else if word == b"intersect2".as_slice() {
        Some(CommandWord::Combine2(Op::Intersect))
    } else if word == b"subtract2".as_slice() {
        Some(CommandWord::Combine2(Op::Subtract))
    } else if word == b"extrude".as_slice() {
        Some(CommandWord::Extrude)
    } else {
        None
    }
}
