// Which kernels an operation is taken under.

/// What decides in the shadow tests of an operation.
#[derive(Clone, Copy, Debug, PartialEq, Eq, Drop)]
pub enum KernelKind {
    /// Rounded values, and the marks of the first mesh where they are equal.
    Grid,
    /// Exact signs, as if the first mesh were moved by a hair.
    Exact,
}
