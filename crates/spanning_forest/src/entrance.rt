// How a vertex is entered.

/// How a vertex is entered: as the first of its component, or as the end of a half-edge whose start was entered before.
#[derive(Clone, Copy, Debug, PartialEq, Eq, Drop)]
pub enum Entrance {
    Root(u32),
    Along(u32),
}
