//! Definitions of made solids, of motions of meshes and of what is measured of a mesh; and the types of solids and motions, which the
//! definitions name too.
#![tactic(auto)]

mod motion;
mod solid;

pub use motion::Motion;
pub use solid::Solid;
