//! The law of plain faces, as the contract of a function that does nothing.

ghost use Rattle.source_faces.specs.Plain.{PlainFacesAreCopied};

/// Where a face has no records, and its vertices are prescribed one number of times, its filling is copies of it.
pub fn plain_faces_are_copied()
    ensures { PlainFacesAreCopied }
{}
