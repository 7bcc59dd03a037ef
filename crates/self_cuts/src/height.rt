// How far a triangle's corners are over another.

/// Six times the volume of each corner with the other triangle.
#[derive(Clone, Copy, Drop)]
pub struct Heights {
    pub a: i128,
    pub b: i128,
    pub c: i128,
}
