//! The main laws, each as the contract of a function that does nothing.

ghost use Rattle.made_laws.specs.Laws.{SolidsAreGiven, MotionsKeepGiven};

/// Under lawful limits a solid that is not refused has an accepted mesh, at points of the grid and within the limits.
pub fn solids_are_given()
    ensures { SolidsAreGiven }
{}

/// A motion that is not refused makes of an accepted mesh at points of the grid another, with as many points and triangles.
pub fn motions_keep_given()
    ensures { MotionsKeepGiven }
{}
