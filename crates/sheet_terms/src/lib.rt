//! Definitions of remeshing: each plane of a mesh is filled anew by the net number of the sheets that lie over one another in it.
#![tactic(auto)]
