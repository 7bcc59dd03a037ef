// What the names of a script hold.

/// The kind of what a name of a script holds.
#[derive(Clone, Copy, Debug, PartialEq, Eq, Drop)]
pub enum HeldKind {
    /// A mesh.
    Mesh,
    /// An outline.
    Outline,
}
