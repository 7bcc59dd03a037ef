//! What is kept of boundary pairs.

ghost use Rattle.std.specs.Prelude.{◌≤◌, unsigned_abs};

/// The count of a boundary pair, and, where it is not 0, whether P is beyond Q.
#[derive(Clone, Copy, Drop)]
pub(crate) struct Pair {
    pub count: i8,
    pub above: bool,
    ghost small: { unsigned_abs count ≤ 1 },
}

/// The start of an edge with a face, its end with the face, and the edge with the three edges of the face.
#[derive(Clone, Copy, Drop)]
pub(crate) struct Pairs {
    pub start: Pair,
    pub end: Pair,
    pub first: Pair,
    pub second: Pair,
    pub third: Pair,
}
