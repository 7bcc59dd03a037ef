//! Tests of how a source face is filled: its pairs, loops, rings, cuts and joined holes, by the public calls.
#![tactic(auto)]

#[cfg(test)]
mod cutting;
#[cfg(test)]
mod filling;
#[cfg(test)]
mod loops;
#[cfg(test)]
mod pairing;
#[cfg(test)]
mod planes;
#[cfg(test)]
mod rings;
#[cfg(test)]
mod rows;
#[cfg(test)]
mod words;
