// The steps that make outlines.
ghost use Rattle.std.specs.Prelude.{◌≡◌, ◌≤◌, ◌%◌, List, None, Some, drop, map, length, Ok, IfOk, IfErr, OnOk};
ghost use Rattle.text_terms.specs.FirstFault.{on_line};
ghost use Rattle.play_terms.specs.Operands.{number_fault};
ghost use Rattle.play_terms.specs.ScriptCommands.{are_pairs, polygon, ring_at};
ghost use Rattle.play_terms.specs.Scripts.{command_step};
ghost use Rattle.play_terms.specs.Steps.{Line};
ghost use Rattle.script_lang.specs.Faults.{IsFaultOf};
ghost use Rattle.script_lang.specs.Polygons.{IsBadAs, numbers_fault, pair_fault, pair_of};
ghost use Rattle.script_lang.specs.Steps.{step_of};

use crate::corners::Corners2;
use crate::fault::{ScriptFault, WRONG_COUNT, bad};
use crate::operands::{name_text, number};
use crate::steps::{Step, Word};
use std::alloc::Global;

// The fewest and the most words of a polygon: a name and three pairs, or 64.
const FEWEST: usize = 7;

const MOST: usize = 129;

/// The step that makes an outline of one loop of these operands on the line with this number; else the first fault.
pub fn polygon_step<'a>(
    alloc: Global,
    operands: &[&'a [u8]],
    line: u64,
    digits: u8,
) -> Result<Step<'a>, ScriptFault>
    requires { digits ≤ 6 }
    ensures step { (before : List Line) → IfOk result (λ step. command_step digits before (map (λ w. w.now) operands.now) polygon ≡ Ok (step_of step)) }
    ensures fault { (before : List Line) → IfErr result (IsFaultOf (on_line line (command_step digits before (map (λ w. w.now) operands.now) polygon))) }
{
    if !are_pairs(operands.len()) {
        return Err(bad(line, WRONG_COUNT));
    }
    let name = match name_text(operands[0]) {
        Ok(name) => name,
        Err(kind) => return Err(bad(line, kind)),
    };
    let ring = ring_of(alloc, operands, line, digits)?;
    Ok(Step::Polygon {
        name: Word::of(name),
        ring,
    })
}

// Whether so many words are a name and from 3 to 64 pairs of numbers.
fn are_pairs(count: usize) -> bool
    ensures { result ≡ are_pairs count }
{
    FEWEST <= count && count <= MOST && count % 2 == 1
}

// The places of the numbers after the name; else the first fault.
fn ring_of(
    alloc: Global,
    operands: &[&[u8]],
    line: u64,
    digits: u8,
) -> Result<Corners2, ScriptFault>
    requires digits { digits ≤ 6 }
    requires odd { length operands.now % 2 ≡ 1 }
    requires few { length operands.now ≤ 129 }
    ensures ring { IfOk result (λ ring. ring ≡ ring_at digits (map (λ w. w.now) operands.now)) }
    ensures sound { OnOk result (numbers_fault digits (drop 1 (map (λ w. w.now) operands.now)) ≡ None) }
    ensures fault { IfErr result (IsBadAs line (numbers_fault digits (drop 1 (map (λ w. w.now) operands.now)))) }
{
    let count = (operands.len() - 1) / 2;
    let mut points = Vec::with_capacity(alloc, count)?;
    for i in 0..count {
        match pair(operands[2 * i + 1], operands[2 * i + 2], digits) {
            Ok(place) => points.push(place)?,
            Err(kind) => return Err(bad(line, kind)),
        }
    }
    Ok(Corners2::of(points))
}

// The numbers of two words; else the kind of the first fault.
fn pair(x: &[u8], y: &[u8], digits: u8) -> Result<[i32; 2], u8>
    requires { digits ≤ 6 }
    ensures value { IfOk result (λ p. p ≡ pair_of digits x.now y.now) }
    ensures x { OnOk result (number_fault digits x.now ≡ None) }
    ensures y { OnOk result (number_fault digits y.now ≡ None) }
    ensures fault { IfErr result (λ kind. pair_fault digits x.now y.now ≡ Some kind) }
{
    Ok([number(x, digits)?, number(y, digits)?])
}
