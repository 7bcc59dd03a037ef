//! Extrusion: the solid between an outline at a low height and the same outline at a high one.

mod extruding;
mod fault;
mod heights;
mod solid;
mod walls;

pub use extruding::{Extruded, extrude};
pub use fault::ExtrudeFault;
