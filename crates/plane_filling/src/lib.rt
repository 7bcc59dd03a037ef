//! Regions of planes filled with triangles: their walks without needless places, filled by the rule by which operations fill faces.
#![tactic(auto)]

mod area;
mod filling;
mod flat;
mod loops;
mod needless;
mod regions;
mod rings;
mod starts;
mod vertices;

pub use filling::{Filled, fill_all};
pub use needless::Ways;
pub use regions::{Region, Regions};
