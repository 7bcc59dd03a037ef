//! Decimal text to the grid and back, exact for every text.
//!
//! A grid number is a whole number of steps, and a unit has 10 to the power of some digits steps.
#![tactic(auto)]

mod coordinates;
mod digits;
mod lines;
mod moved;
mod number;
mod read;
mod words;
mod write;

pub use coordinates::{bad, coordinate};
pub use lines::{Lines, first_line, without_mark};
pub use read::{NumberFault, read_grid};
pub use words::{after_blanks, first_blank, first_word, is_comment};
pub use write::{write_grid, write_grid_before};
