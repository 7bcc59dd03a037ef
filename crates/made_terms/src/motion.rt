// Motions.

/// A motion of a mesh. Axes are 0 to 2 for x to z.
#[derive(Clone, Copy, Drop)]
pub enum Motion {
    /// This is added to each point.
    Shift([i32; 3]),
    /// Each coordinate is multiplied by this.
    Scale(u32),
    /// The coordinate on the axis gets the other sign.
    Mirror(u8),
    /// A quarter turn about the axis.
    Turn(u8),
}
