//! The main law, as the contract of a function that does nothing.

ghost use Rattle.cover_laws.specs.Covers.{TrianglesCoverOnce};

/// The edges of a triangle pass below a place inside it once more to the right than to the left where the triangle turns left,
/// once less where it turns right, and as often either way where the place is outside.
pub fn triangles_cover_once()
    ensures { TrianglesCoverOnce }
{}
