//! Closed triangle meshes: `Mesh::check` accepts a soup exactly where each directed edge occurs as
//! often as its reverse, and names the least open edge where one does not. `reduce` removes the
//! triangles that cancel, and leaves no two with the same three vertices and different orientations;
//! `is_plainly_reduced` tells in one pass where there are none to remove, and `kept_places` which stay. `marked`, `mesh_of_used` and
//! `with_marked_labels` make a mesh of some of the triangles of another.
#![tactic(auto)]

mod cancel;
mod marks;
mod mesh;
mod opposites;
mod oriented;
mod oriented_ways;
mod reduction;

pub use marks::{marked, mesh_of_used, with_marked_labels};
pub use mesh::{Mesh, MeshFault};
pub use reduction::{is_plainly_reduced, kept_places, reduce};
