//! Definitions of how often a closed mesh winds round a place, as geometry has it: by tetrahedra from an apex to the faces.
#![tactic(auto)]
