// Bridges.

/// A bridge from the start of the hole in hand to a place of a ring.
#[derive(Clone, Copy, Debug, PartialEq, Eq, Drop)]
pub struct Bridge {
    /// The ring's number.
    pub ring: usize,
    /// The place in it.
    pub place: usize,
    /// The squared distance, in square grid steps.
    pub squared_length: u64,
}
