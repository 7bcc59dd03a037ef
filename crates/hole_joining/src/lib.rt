//! Holes of a face joined to its rings. The loops of a face, seen in a plane that drops an axis, are told into rings, which
//! have a doubled area of at least 0, and holes. Each hole is joined to a ring by a bridge that is used both ways, so that
//! one list of places goes round both. The rings that are left can be cut into triangles one by one.
//!
//! `join_holes` gives the rings that the definition of the same name names. They have the boundary and the areas of the
//! loops, also where a vertex stands twice. Where all vertices are different, they have neighbours that differ and three
//! different vertices each, however the points lie: equal, on a line, or with loops that cross.
#![tactic(auto)]

mod area;
mod barred;
mod bridge;
mod circle;
mod clear;
mod edges;
mod flat;
mod joined;
mod joining;
mod obstacles;
mod places;
mod runs;
mod search;
mod splice;
mod start;
mod vertices;

pub use joined::{Joined, join_holes};
