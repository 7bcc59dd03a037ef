//! Reads the text of an ASCII STL file into points and triangles.
//!
//! A line ends at LF or at the end of the text, and one CR at its end is dropped. EF BB BF at the start is
//! passed over. The words of a line are longest runs without spaces and tabs. A file is one or more solids,
//! and keywords ignore ASCII case:
//!
//! | Part | Words |
//! |---|---|
//! | solid | `solid` and the rest of its line, facets, `endsolid` and the rest of its line |
//! | facet | `facet normal`, three words that are not looked at, `outer loop`, three corners, `endloop endfacet` |
//! | corner | `vertex` and its x, y and z as decimal numbers |
//!
//! Corners that lie at one point of the grid, after rounding, are one point.
#![tactic(auto)]

ghost use Rattle.std.specs.Prelude.{◌≡◌, ◌≤◌, Ok, IfOk, IfErr};
ghost use Rattle.format_terms.specs.Stl.{stl};
ghost use Rattle.grid_number.specs.TextFaults.{IsFaultOf};

mod grammar;
mod lines;
mod reading;
mod welded;

use mb_base::{Limits, Soup, TextFault};
use reading::StlReader;
use std::alloc::Global;

/// The points and triangles of an ASCII STL file: points in grid steps, 10 to the power of `digits` a unit,
/// rounded to the nearest, in the order in which they come first, and vertices from 0. A triangle with two
/// corners at one point is dropped. Points that no other triangle uses are dropped and counted. All labels are empty.
///
/// The first fault of the file refuses it, word after word. It is `Bad` with the number of the word's line,
/// from 1, and
///
/// - `NotStl` where the grammar wants another word; also where the file ends before a solid does, or has
///   none, on its last line, which is 1 and the number of LFs,
/// - `BadNumber` where a number's word is none, or `OutOfGrid` where it is off the grid.
///
/// A corner that brings the points past their limit, or the end of a facet that brings the triangles past
/// theirs, is `Over` with that count. Besides these only memory may lack. The time is in proportion to the
/// bytes, but for the map from points to their numbers.
pub fn read_stl(alloc: Global, bytes: &[u8], digits: u8, limits: &Limits) -> Result<Soup, TextFault>
    requires { digits ≤ 6 }
    ensures soup { IfOk result (λ soup. stl digits limits.now bytes.now ≡ Ok soup) }
    ensures fault { IfErr result (IsFaultOf (stl digits limits.now bytes.now)) }
{
    StlReader::of(alloc, bytes, digits, limits)?.into_soup(alloc, bytes)
}
