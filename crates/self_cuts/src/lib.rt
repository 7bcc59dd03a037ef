//! What another program will see in a mesh, counted exactly: its least box, its flat triangles, points at one place, edges of
//! more than two triangles, and pairs of triangles that cut one another. Whether two triangles do is decided by the signs of
//! whole numbers; pairs are sought by a tree over the boxes of the triangles.
#![tactic(auto)]

mod beside;
mod cuts;
mod edges;
mod face;
mod faces;
mod firsts;
mod flats;
mod height;
mod inspecting;
mod inspection;
mod near;
mod nearby;
mod normal;
mod numbers;
mod pair;
mod place;
mod seen;
mod signs;
mod span;
mod touching;
mod triangle;
mod uses;
mod volumes;

pub use inspecting::inspect;
pub use inspection::Inspection;
