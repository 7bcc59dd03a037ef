//! Definitions of what the program does: which words are a command, what each command does to files and output, the lines that it
//! says and how a run ends; and of scripts: their lines, the first fault of one, the steps that it asks for, and what the steps do.
//! With the types of formats and of kinds of what names hold, which the definitions name too, and the format of a file by its name.
#![tactic(auto)]

mod format;
mod held;
mod names;

pub use format::Format;
pub use held::HeldKind;
pub use names::{format_of, is_mesh_name};
