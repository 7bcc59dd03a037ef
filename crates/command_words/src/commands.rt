// The words of a command line.
ghost use Rattle.std.specs.Prelude.{◌≡◌, ◌≤◌, map, IfOk, IfSome};
ghost use Rattle.std.specs.Option.{option_map};
ghost use Rattle.clap.specs.Words.{found_of};
ghost use Rattle.play_terms.specs.Words.{command, command_with, copy_of, digits_of, inside_of, run_of};
ghost use Rattle.command_words.specs.Commands.{command_of, digits_in};
ghost use Rattle.command_words.specs.Grammar.{given_in};

use crate::grammar::parse;
use crate::values::{coordinate, digits_from};
use clap::ArgMatches;
use mb_base::{ArgList, NoMemory, Point};
use play_terms::is_mesh_name;
use std::alloc::Global;

/// A command with its operands.
#[derive(Drop)]
pub enum Command<'a> {
    /// Copies a mesh from one file to another.
    CopyFile {
        digits: u8,
        from: &'a str,
        to: &'a str,
    },
    /// Says the winding number of a point in the mesh of a file.
    InsideFile {
        digits: u8,
        file: &'a str,
        point: Point,
    },
    /// Runs the script of a file.
    RunScript {
        digits: u8,
        script: &'a str,
    },
}

// The digits that were given, or 4. None where they are not one character from 0 to 6.
fn digits_given(matches: &ArgMatches<'_>) -> Option<u8>
    ensures value { result ≡ digits_of (given_in (found_of matches.now)).digits }
    ensures few { IfSome result (λ k. k ≤ 6) }
{
    digits_from(matches.get_str("digits"))
}

// The copy with these operands.
fn copy_with<'a>(digits: u8, operands: &[&'a str]) -> Option<Command<'a>>
    ensures command { option_map command_of result ≡ copy_of digits (map (λ w. w.now) operands.now) }
    ensures digits { IfSome result (λ command. digits_in command ≡ digits) }
{
    if operands.len() != 2 {
        return None;
    }
    let (from, to) = (operands[0], operands[1]);
    if !is_mesh_name(from.as_bytes()) || !is_mesh_name(to.as_bytes()) {
        return None;
    }
    Some(Command::CopyFile { digits, from, to })
}

// The point with these operands.
fn inside_with<'a>(digits: u8, operands: &[&'a str]) -> Option<Command<'a>>
    requires { digits ≤ 6 }
    ensures command { option_map command_of result ≡ inside_of digits (map (λ w. w.now) operands.now) }
    ensures digits { IfSome result (λ command. digits_in command ≡ digits) }
{
    if operands.len() != 4 {
        return None;
    }
    if !is_mesh_name(operands[0].as_bytes()) {
        return None;
    }
    let x = coordinate(operands[1], digits)?;
    let y = coordinate(operands[2], digits)?;
    let z = coordinate(operands[3], digits)?;
    let Some(point) = Point::of(x, y, z) else {
        return None;
    };
    Some(Command::InsideFile {
        digits,
        file: operands[0],
        point,
    })
}

// The run of the script with this name.
fn run_with<'a>(digits: u8, operands: &[&'a str]) -> Option<Command<'a>>
    ensures command { option_map command_of result ≡ run_of digits (map (λ w. w.now) operands.now) }
    ensures digits { IfSome result (λ command. digits_in command ≡ digits) }
{
    match operands {
        [script] if !script.is_empty() => Some(Command::RunScript {
            digits,
            script: *script,
        }),
        _ => None,
    }
}

// The command of this name with these operands.
fn command_with<'a>(name: &str, operands: &[&'a str], digits: u8) -> Option<Command<'a>>
    requires { digits ≤ 6 }
    ensures command { option_map command_of result ≡ command_with name.now (map (λ w. w.now) operands.now) digits }
    ensures digits { IfSome result (λ command. digits_in command ≡ digits) }
{
    match name {
        "copy" => copy_with(digits, operands),
        "inside" => inside_with(digits, operands),
        "run" => run_with(digits, operands),
        _ => None,
    }
}

/// The command of the words of a command line; None where they are of none.
///
/// The first word is `copy`, `inside` or `run`. After it stand the operands and, at most once, `--digits K` or `--digits=K`, with K from 0 to 6; 4 where
/// none is given. After the first `--` every word is an operand; before it an operand is `-` alone or does not begin with `-`. `copy` has two operands and
/// `inside` four, where names end with `.obj` or `.stl`, ASCII case ignored, and the others are numbers whose values under the digits are on the grid. `run` has
/// one, the name of a script, which is not empty.
pub fn read_command(alloc: Global, args: &ArgList) -> Result<Option<Command<'_>>, NoMemory>
    ensures command { IfOk result (λ o. option_map command_of o ≡ command args.now) }
    ensures few { IfOk result (λ o. IfSome o (λ command. digits_in command ≤ 6)) }
{
    let Some((name, words)) = args.as_slice().split_first() else {
        return Ok(None);
    };
    let Some(matches) = parse(alloc, words)? else {
        return Ok(None);
    };
    let Some(digits) = digits_given(&matches) else {
        return Ok(None);
    };
    // no command is without operands
    let Some(operands) = matches.get_strs("operands") else {
        return Ok(None);
    };
    Ok(command_with(name.as_str(), operands, digits))
}
