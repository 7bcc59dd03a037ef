// Solids.
use mb_base::Point;

/// A solid.
#[derive(Clone, Copy, Drop)]
pub enum Solid {
    /// The box between two corners.
    Box(Point, Point),
    /// A tetrahedron with a right angle at a corner, and its size.
    Tetra(Point, i32),
    /// A prism with a right angle at a corner, its size and its height.
    Prism(Point, i32, i32),
    /// The number of boxes along each axis, and a seed.
    Lattice(u32, u32),
}
