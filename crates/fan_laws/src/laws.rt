//! The main laws, each as the contract of a function that does nothing.

ghost use Rattle.fan_laws.specs.Fanned.{FannedIsClean};
ghost use Rattle.fan_laws.specs.Laws.{ChangesSettle, FansPart, TwinsByAngleArePaired};

/// Half-edges that match as brackets round their edge are twins of one another, and each runs back along the other.
pub fn twins_by_angle_are_paired()
    ensures { TwinsByAngleArePaired }
{}

/// A change of twins parts the fan at each end of the two half-edges, so changes come to an end. Then no half-edge runs between the same fans as another.
pub fn changes_settle()
    ensures { ChangesSettle }
{}

/// One vertex for each fan makes a closed mesh: three different vertices in each triangle, one fan at each vertex, each directed edge once. Each vertex was one of
/// the given ones, so places stay as they are.
pub fn fans_part()
    ensures { FansPart }
{}

/// The mesh whose vertices are the fans of closed triangles, by the angles round their edges: it is accepted, with one fan at each vertex and each directed edge
/// once, and each triangle has the places that it had. Places that no triangle uses do no harm.
pub fn fanned_is_clean()
    ensures { FannedIsClean }
{}
