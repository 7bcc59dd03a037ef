//! Laws of runs and records, each as the contract of a function that does nothing.

ghost use Rattle.source_faces.specs.Laws.{ListsCanBeSegments, ListsGiveSegments, PrescribedHaveLists};

/// The runs of both sides' vertices and the sorted records of the hits tell the prescribed copies.
pub fn copies_have_lists()
    ensures { PrescribedHaveLists }
{}

/// Runs and records that tell all copies give each face its segments, and where each list has as many starts as ends, they
/// can be paired.
pub fn lists_give_segments()
    ensures segments { ListsGiveSegments }
    ensures paired { ListsCanBeSegments }
{}
