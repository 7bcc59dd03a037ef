//! Laws of reading and writing OBJ, each as the contract of a function that does nothing.
//!
//! Under lawful limits the text of a mesh within them, whatever the digits, reads as the same points, triangles and labels in
//! the same order, and is short enough to be read; and what is read of any file is such a mesh, with a label for each triangle.
//! The lemmas stand in `proofs/`: bytes, lines, words and numbers, what one line gives its reader, and what all lines give.

ghost use Rattle.format_laws.specs.ObjFiles.{FilesRead};
ghost use Rattle.format_laws.specs.ReadingBack.{MeshesReadBack, FilesGiveMeshes, ReadMeshesReadBack};

/// What files of the profile give, and each kind of fault, spelled out.
pub fn spelled_files_read()
    ensures { FilesRead }
{}

/// Under lawful limits the text of a mesh within them, whatever the digits, reads as the mesh, and its length is within the
/// limit of a file.
pub fn meshes_read_back()
    ensures { MeshesReadBack }
{}

/// What is read of a file under lawful limits, whatever the file, is a mesh within them, and so its text reads back.
pub fn read_meshes_read_back()
    ensures meshes { FilesGiveMeshes }
    ensures again { ReadMeshesReadBack }
{}
