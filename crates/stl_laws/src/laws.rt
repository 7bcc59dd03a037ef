//! The law, as the contract of a function that does nothing.

ghost use Rattle.stl_laws.specs.ReadingBack.{StlTextsReadBack};

/// Wherever the STL text of an accepted mesh within the limits stands, in a file that is not too long, the mesh is read of it
/// welded: no two of its points are at one place, its triangles are, in order and place by place, those of the mesh that have
/// three different places, and it is closed.
pub fn stl_texts_read_back()
    ensures { StlTextsReadBack }
{}
