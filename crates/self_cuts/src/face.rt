// Triangles as places with their normal.
ghost use Rattle.self_cuts.specs.Places.{IsNormalOf};

use crate::normal::Normal;
use crate::place::Place;

/// The places of the corners of a triangle, with the cross product of the ways from the first to the others.
#[derive(Clone, Copy, Drop)]
pub struct Face {
    pub a: Place,
    pub b: Place,
    pub c: Place,
    pub normal: Normal,
    ghost normal_is: { IsNormalOf normal a b c },
}
