// How `clap` reads the words of a command line after the first: operands, and one option for the digits. There is no option for help.
ghost use Rattle.std.specs.Prelude.{◌≡◌, ◌≢◌, IfErr, IfOk, OnOk};
ghost use Rattle.clap.specs.Words.{app_of, with_rule};
ghost use Rattle.clap.specs.declared.error.kind.ErrorKind.TheVariants.{OutOfMemory};
ghost use Rattle.command_words.specs.ClapGrammar.{bare_app, digits_rule, grammar_app, operands_rule};

use clap::error::ErrorKind;
use clap::{Arg, ArgAction, Command};
use std::alloc::{AllocError, Global};

// Words without a name of a program before them.
fn bare<'a>(alloc: Global) -> Command<'a>
    ensures { app_of result ≡ bare_app }
{
    Command::new(alloc, "command")
        .no_binary_name(true)
        .disable_help_flag(true)
}

// Adds the option for the digits.
fn with_digits<'a>(alloc: Global, command: Command<'a>) -> Result<Command<'a>, AllocError>
    ensures { IfOk result (λ r. app_of r ≡ with_rule (app_of command.entry) digits_rule) }
{
    let digits = Arg::new(alloc, "digits")
        .long("digits")
        .action(ArgAction::Set);
    command.arg(digits)
}

// Adds the operands.
fn with_operands<'a>(alloc: Global, command: Command<'a>) -> Result<Command<'a>, AllocError>
    ensures { IfOk result (λ r. app_of r ≡ with_rule (app_of command.entry) operands_rule) }
{
    let operands = Arg::new(alloc, "operands").action(ArgAction::Append);
    command.arg(operands)
}

/// Operands, and one option for the digits. It takes memory.
pub fn grammar<'a>(alloc: Global) -> Result<Command<'a>, AllocError>
    ensures { IfOk result (λ command. app_of command ≡ grammar_app) }
{
    let command = with_digits(alloc, bare(alloc))?;
    with_operands(alloc, command)
}

/// Whether an error of this kind is a refusal of the words; `AllocError` where it is want of memory.
pub fn refusal(kind: ErrorKind) -> Result<(), AllocError>
    ensures told { OnOk result (kind ≢ OutOfMemory) }
    ensures starved { IfErr result (λ _. kind ≡ OutOfMemory) }
{
    match kind {
        ErrorKind::OutOfMemory => Err(AllocError),
        _ => Ok(()),
    }
}
