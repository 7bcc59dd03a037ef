//! Twins by the angle round an edge: where an edge has more than two triangles, those between which the solid lies are joined. One vertex for each fan; and where
//! its two ends would then still have more than two triangles between them, partners are changed, which parts a fan at each end.
#![tactic(auto)]

mod alike;
mod angle;
mod brackets;
mod changes;
mod fans;
mod labels;
mod parting;
mod twins;

pub use parting::{Parted, part_fans};
