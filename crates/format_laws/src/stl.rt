//! Laws of reading and writing ASCII STL, each as the contract of a function that does nothing.
//!
//! What is read of any file under lawful limits is a mesh within them with empty labels, whose OBJ text so reads back; and the STL text
//! of a mesh within them reads as the welded mesh: its points in the order in which the corners have them, those at one place as one,
//! and without the triangles that then have a point twice. The lemmas stand in `proofs/`.

ghost use Rattle.format_laws.specs.StlFiles.{FilesRead};
ghost use Rattle.format_laws.specs.StlReading.{FilesGiveMeshes};
ghost use Rattle.format_laws.specs.Welding.{MeshesReadWelded};

/// What files of the profile give, and each kind of fault, spelled out.
pub fn spelled_files_read()
    ensures { FilesRead }
{}

/// What is read of a file under lawful limits, whatever the file, is a mesh within them with empty labels.
pub fn files_give_meshes()
    ensures { FilesGiveMeshes }
{}

/// Under lawful limits the text of a mesh within them, whatever the digits, reads as the welded mesh with empty labels.
pub fn meshes_read_welded()
    ensures { MeshesReadWelded }
{}
