//! Laws of inspection: exact signs decide whether two triangles cut one another.
#![tactic(auto)]
