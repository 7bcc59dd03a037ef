//! Remeshing: `remesh` takes a closed mesh as a signed sum, plane by plane. At each point of a plane the triangles that face one side, less those that face the
//! other, say how many sheets lie there, and each region of sheets is filled anew.
#![tactic(auto)]

mod boundary;
mod crossing_points;
mod labelling;
mod made;
mod outcome;
mod over_places;
mod plan;
mod plane_work;
mod remeshing;
mod sides;
mod surface;

pub use outcome::{RemeshFault, Remeshed};
pub use remeshing::remesh;
