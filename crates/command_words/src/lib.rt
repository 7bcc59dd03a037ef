//! The words of a command line: which of them are a command, with its operands and digits, and that all others are none.
//!
//! The first word names the command. `clap` reads the words after it, as one option and operands; what they are worth is looked at here.
#![tactic(auto)]

mod clap_grammar;
mod commands;
mod grammar;
mod values;

pub use commands::{Command, read_command};
