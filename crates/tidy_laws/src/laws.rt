//! The main laws, each as the contract of a function that does nothing.

ghost use Rattle.tidy_laws.specs.Laws.{
  CollapsesDropOne,
  KeepsPoints,
  KeepsVolume,
  NothingElseOpens,
  StaysClean,
  StaysClosed,
  StaysThree,
  TidyMeshes,
  TidyingTidies,
};

/// Closed triangles of three different vertices stay so, whichever two vertices are joined.
pub fn collapses_stay_closed()
    ensures closed { StaysClosed }
    ensures three { StaysThree }
{}

/// Where the two lie at one point, the volume stays, and how many triangles lie at three different points.
pub fn collapses_keep_points()
    ensures volume { KeepsVolume }
    ensures points { KeepsPoints }
{}

/// Where an edge is the only one between its ends, the only edges join both to the third vertices of its two triangles and
/// no other vertex is joined to both, the fan of each vertex stays its only one.
pub fn collapses_stay_clean()
    ensures { StaysClean }
{}

/// Where an edge can be collapsed exactly two triangles go, and of the vertices in use the end alone.
pub fn collapses_drop_one()
    ensures { CollapsesDropOne }
{}

/// By a collapse no edge becomes one that can be collapsed but those from the vertex that stays to the two third vertices, and
/// the one between these.
pub fn nothing_else_opens()
    ensures { NothingElseOpens }
{}

/// The tidied mesh is accepted, with one fan at each vertex where the given mesh is so; no half-edge of it can be collapsed; it has
/// the volume, and as many triangles at each three different points.
pub fn tidy_meshes()
    ensures { TidyMeshes }
{}

/// Tidied triangles stay closed, with one fan at each vertex where it was so; their volume stays, and how many lie at three
/// different points; and no half-edge is left that can be collapsed.
pub fn tidying_tidies()
    ensures { TidyingTidies }
{}
