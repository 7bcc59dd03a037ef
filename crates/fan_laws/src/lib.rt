//! Laws of fans: twins by the angle round an edge are twins, changes of twins come to an end, and one vertex for each fan makes a mesh in which each directed edge is
//! there once.
#![tactic(auto)]

mod laws;
