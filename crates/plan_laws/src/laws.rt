//! The main laws, each as the contract of a function that does nothing.

ghost use Rattle.plan_laws.specs.Alone.{AloneFillsItself, AloneHasNoCrossings, AloneIsItsRegion};
ghost use Rattle.plan_laws.specs.Needless.{NeedlessByEdges};
ghost use Rattle.plan_laws.specs.Ordered.{FilledByFirsts, WalklessFillNothing};
ghost use Rattle.plan_laws.specs.Placed.{FacesAreInOrder, FacesArePlaced, OverIsPlaced};
ghost use Rattle.plan_laws.specs.Sorting.{BoundariesAreTested, SortedAlike};
ghost use Rattle.plan_laws.specs.Standing.{AllPiecesFill, AloneFillsSide, RegionsFillSide};
ghost use Rattle.plan_laws.specs.Twice.{AllPointsAre, WeldsOnce};

/// A triangle that is alone in its plane, of which no edge is cut, is the one region of its side, and its rim the walk round it.
pub fn alone_is_its_region()
    ensures { AloneIsItsRegion }
{}

/// No edges cross in its plane.
pub fn alone_has_no_crossings()
    ensures { AloneHasNoCrossings }
{}

/// It fills itself, from its least corner.
pub fn alone_fills_itself()
    ensures { AloneFillsItself }
{}

/// Points that are welded again with others are welded as all together; so the points of remeshing are the places of the mesh's points and those in which edges cross.
pub fn welds_once()
    ensures { WeldsOnce }
{}

/// See `welds_once`.
pub fn all_points_are()
    ensures { AllPointsAre }
{}

/// Which places are needless is told by what edges there are, whatever their order.
pub fn needless_by_edges()
    ensures { NeedlessByEdges }
{}

/// The triangles of a mesh over places: those with three places that aren't flat are those of the definition.
pub fn faces_are_placed()
    ensures { FacesArePlaced }
{}

/// They have their rims and labels, and stand in the order of their numbers.
pub fn faces_are_in_order()
    ensures { FacesAreInOrder }
{}

/// What is gathered over the places of a mesh's points, and further ones, are they.
pub fn over_is_placed()
    ensures { OverIsPlaced }
{}

/// What fills the sides of all planes, triangle by triangle: each side stands at its first triangle.
pub fn filled_by_firsts()
    ensures { FilledByFirsts }
{}

/// Regions without walks fill nothing.
pub fn walkless_fill_nothing()
    ensures { WalklessFillNothing }
{}

/// The regions that stand by the first triangle of a side are filled as the side is.
pub fn regions_fill_side()
    ensures { RegionsFillSide }
{}

/// A triangle that is alone in its plane stands as the filling of its side.
pub fn alone_fills_side()
    ensures { AloneFillsSide }
{}

/// Edges of one chain with the reversed ones of another in order, and the reverse of each in order, are one list exactly where the chains have one boundary.
pub fn sorted_alike()
    ensures { SortedAlike }
{}

/// That is what the definition tests.
pub fn boundaries_are_tested()
    ensures { BoundariesAreTested }
{}

/// Where at each triangle stands what fills its side, all pieces are what fills the sides.
pub fn all_pieces_fill()
    ensures { AllPiecesFill }
{}
