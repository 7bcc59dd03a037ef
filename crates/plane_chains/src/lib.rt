//! The chain of a plane: how often the rims of its triangles run along each edge, less how often they run back, label by label. Where edges of a chain cross,
//! the triangles that have them are kept as they are, and the chain is that of the others.
#![tactic(auto)]

mod chain;
mod crossed_edges;
mod edge_tree;
mod flat_places;
mod grid_crossings;
mod lists;
mod local_labels;
mod nets;
mod opposites;
mod plane_faces;
mod telling;

pub use chain::Chain;
pub use edge_tree::EdgeTree;
pub use flat_places::FlatPlaces;
pub use lists::{Lists, Rims};
pub use local_labels::LocalLabels;
pub use nets::{LabelNumber, add_number};
pub use plane_faces::PlaneFaces;
pub use telling::{Told, tell};
