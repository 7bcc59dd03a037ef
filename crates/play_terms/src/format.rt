// Formats of files.

/// A format of a mesh's file.
#[derive(Clone, Copy, Debug, PartialEq, Eq, Drop)]
pub enum Format {
    /// OBJ.
    Obj,
    /// ASCII STL.
    Stl,
}
