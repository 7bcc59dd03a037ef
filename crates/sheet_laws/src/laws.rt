//! The main laws, each as the contract of a function that does nothing.

ghost use Rattle.sheet_laws.specs.Planes.{SoundPlanesAreKept, SoundRegionsTurnLeft};
ghost use Rattle.sheet_laws.specs.Promises.{RemeshedIsGiven, SoundPlanesDoNotFold};

/// Each plane that is filled anew keeps its boundary, once edges are cut where places lie on them; how often each of its points
/// is covered, those that face one side less those that face the other; and its area.
pub fn planes_are_kept()
    ensures { SoundPlanesAreKept }
{}

/// Each triangle of a region turns left in its plane, so none is flat.
pub fn regions_turn_left()
    ensures { SoundRegionsTurnLeft }
{}

/// Where all new triangles of a plane face the side of its first old one, each place off their edges lies inside as many of them as the net number of the
/// old ones says.
pub fn planes_do_not_fold()
    ensures { SoundPlanesDoNotFold }
{}

/// What remeshing makes of a mesh that a run may hold is such a mesh again, where it has not too many triangles: accepted, on the grid, with a label of the given
/// mesh for each triangle, and of the same volume. Where the filling is taken, there is one fan at each vertex and each directed edge is there at most once; where it
/// is not, the mesh is the given one.
pub fn remeshed_is_given()
    ensures { RemeshedIsGiven }
{}
