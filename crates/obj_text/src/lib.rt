//! Reads the text of a Wavefront OBJ file into points and triangles with labels.
//!
//! A line ends at LF or at the end of the text, and one CR at its end is dropped. EF BB BF at the start is
//! passed over. A line whose last byte is `\` goes on in the next, where its first word does not begin with
//! `#`; the `\` counts as a blank. The words of a line are longest runs without spaces and tabs, up to one
//! that begins with `#`. The first word says what the line is:
//!
//! | First word | Words after it |
//! |---|---|
//! | `v` | three to seven: x, y and z as decimal numbers, and up to four that are not looked at |
//! | `f` | three or more items `i`, `i/j`, `i//k` or `i/j/k`, each number an optional `-` and digits |
//! | `g` | all words: the label of the triangles of the faces after it |
//! | `vt` `vn` `o` `s` `usemtl` `mtllib` `l` `p` | the line is passed over |
//!
//! The number i of an item names the i-th point so far, counted from 1, or counts back from the last, which
//! is -1. A face of n items is n - 2 triangles: its first item with each two that follow one another. A label
//! is the words joined by one blank, with `_` for a byte that is below 33, 127 or a backslash, the first 64
//! bytes of them, without a blank at the end.
#![tactic(auto)]

ghost use Rattle.std.specs.Prelude.{◌≡◌, ◌≤◌, Ok, IfOk, IfErr};
ghost use Rattle.text_terms.specs.Lines.{without_mark};
ghost use Rattle.format_terms.specs.Obj.{obj};
ghost use Rattle.grid_number.specs.TextFaults.{IsFaultOf};

mod decimals;
mod groups;
mod items;
mod lines;
mod plain;
mod reading;
mod repeats;
mod words;

use grid_number::without_mark;
use mb_base::{Limits, Soup, TextFault};
use reading::ObjReader;
use std::alloc::Global;

/// The points and triangles of a Wavefront OBJ file in the order of the file, each triangle with its label: points in grid steps, 10 to
/// the power of `digits` a unit, rounded to the nearest, and vertices from 0. Points that no triangle uses
/// are dropped and counted.
///
/// The first fault of the file refuses it, line after line. It is `Bad` with the number of the line, from
/// 1, or of its first part where it goes on, and
///
/// - `UnknownLine` where the first word is none of those above,
/// - `BadVertex` where a `v` has fewer than three or more than seven words after it, and then for x, y and
///   z in their order `BadNumber` where it is not a number, or `OutOfGrid` where it is off the grid,
/// - `BadFace` where an `f` has fewer than three items, and then for its items in their order `BadFace`
///   where it is no item, or `BadIndex` where it names no point so far,
/// - `FaceRepeatsVertex` where two items then name one point.
///
/// A line without these that brings the points or the triangles past their limit is `Over` with that
/// count. Besides these only memory may lack. The time is in proportion to the bytes, but for faces of many
/// items, which are sorted.
pub fn read_obj(alloc: Global, bytes: &[u8], digits: u8, limits: &Limits) -> Result<Soup, TextFault>
    requires { digits ≤ 6 }
    ensures soup { IfOk result (λ soup. obj digits limits.now bytes.now ≡ Ok soup) }
    ensures fault { IfErr result (IsFaultOf (obj digits limits.now bytes.now)) }
{
    ObjReader::of(alloc, without_mark(bytes), digits, limits)?.into_soup(alloc)
}
