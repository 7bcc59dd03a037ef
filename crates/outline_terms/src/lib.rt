//! Definitions of outlines, of the marks of their vertices, and of extrusion, the solid over an outline; and laws of these. The lemmas
//! stand in `proofs/`. The functions do nothing, and their contracts are the laws.
#![tactic(auto)]

ghost use Rattle.outline_terms.specs.Laws.{ExtrusionCloses, ExtrusionHasVolume, ExtrusionIsSolid, NoEdgeReturns, VerticesAreOnce};

/// Each vertex starts one edge and ends one, and where loops have three vertices or more no edge has one that runs back.
pub fn vertices_are_once()
    ensures vertices { VerticesAreOnce }
    ensures returns { NoEdgeReturns }
{}

/// The triangles of an extrusion are closed, have three different vertices, use all points, and enclose three times the height
/// between times the doubled area.
pub fn extrusion_closes()
    ensures closed { ExtrusionCloses }
    ensures solid { ExtrusionIsSolid }
    ensures volume { ExtrusionHasVolume }
{}
