//! Tests of whole runs, by the program's calls over memory.
#![tactic(auto)]

#[cfg(test)]
mod runs;
