//! Tests of what reads and writes texts and of what that stands on: plain types, decimal numbers, places by key, shelves and sinks, the words of
//! a command line, OBJ and STL texts, scripts, the writing of meshes, and the files of a shelf, by the public calls.
#![tactic(auto)]

#[cfg(test)]
mod commands;
#[cfg(test)]
mod decimals;
#[cfg(test)]
mod files;
#[cfg(test)]
mod groups;
#[cfg(test)]
mod labels;
#[cfg(test)]
mod lists;
#[cfg(test)]
mod obj;
#[cfg(test)]
mod points;
#[cfg(test)]
mod scripts;
#[cfg(test)]
mod shelves;
#[cfg(test)]
mod sorting;
#[cfg(test)]
mod stl;
#[cfg(test)]
mod texts;
#[cfg(test)]
mod writing;
