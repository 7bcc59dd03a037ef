//! Laws of covers: how often triangles of a plane cover a place of it, as a sum over their edges.
#![tactic(auto)]

pub mod laws;
