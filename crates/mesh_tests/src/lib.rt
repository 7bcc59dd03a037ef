//! Tests of twins, of accepted meshes and their reduction, of inspections, sides, pinches, made solids and remeshed results, by the public calls.
#![tactic(auto)]

#[cfg(test)]
mod acceptance;
#[cfg(test)]
mod inspections;
#[cfg(test)]
mod lines;
#[cfg(test)]
mod orders;
#[cfg(test)]
mod pinches;
#[cfg(test)]
mod remeshing;
#[cfg(test)]
mod sides;
#[cfg(test)]
mod solids;
#[cfg(test)]
mod twins;
