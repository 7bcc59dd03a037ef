// Triangles as places.
use crate::place::Place;

/// The places of the corners of a triangle.
#[derive(Clone, Copy, Drop)]
pub struct Triangle {
    pub a: Place,
    pub b: Place,
    pub c: Place,
}
