//! The sheets of a plane as it is seen from one of its sides: at each point as many as the net number of its triangles there, the labels in the order of their
//! first triangles. The regions that have at least so many sheets of a label that face the side, and the walks round the parts of each.
#![tactic(auto)]

mod beside;
mod borders;
mod edge_ends;
mod followers;
mod leaving;
mod numbers;
mod passing;
mod regions;
mod right_turn;
mod rounds;
mod seats;
mod side_numbers;
mod sided;
mod walks;

pub use regions::{SheetRegion, regions_of};
