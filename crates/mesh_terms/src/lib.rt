//! Definitions of points, triangle meshes, closedness and limits.
#![tactic(auto)]
