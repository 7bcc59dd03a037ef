//! Definitions of what `inspect` counts: flat triangles, doubled points, edges that touch, and triangles that cut one another.
#![tactic(auto)]
