//! Tests of outlines, of their operations and of extrusion, by the public calls.
#![tactic(auto)]

#[cfg(test)]
mod operations;
#[cfg(test)]
mod plates;
#[cfg(test)]
mod rows;
#[cfg(test)]
mod table;
