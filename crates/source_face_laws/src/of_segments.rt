//! The laws, each as the contract of a function that does nothing.

ghost use Rattle.source_face_laws.specs.SegmentLaws.{
  CopiesOccur,
  FacesCancel,
  LoopsHaveCopies,
  LoopsAreLong,
  PrescribedAreNamed,
  SegmentsAreOneToOne,
  SegmentsJoinCopies,
  TriplesAreClosed,
  VerticesStay,
};

/// The segments of a source face run between copies. Where each copy stands in none or two of the lists of each face and
/// each list has as many starts as ends, each copy that occurs in them starts one and ends one.
///
/// So they fall into loops whose vertices are copies.
pub fn segments_form_loops()
    ensures join { SegmentsJoinCopies }
    ensures once { SegmentsAreOneToOne }
    ensures vertices { LoopsHaveCopies }
{}

/// The segments of all source faces together cancel: every odd function of their ends adds up to nothing.
///
/// So triples that bound each face's segments are closed all together.
pub fn faces_cancel()
    ensures segments { FacesCancel }
    ensures triples { TriplesAreClosed }
{}

/// Where no two triples of a side are opposite, no loop of a face has fewer than three vertices.
///
/// Beside lists and balance as above, this asks of the copies how they are named, and prescribed ones are named so.
pub fn loops_are_long()
    ensures long { LoopsAreLong }
    ensures named { PrescribedAreNamed }
{}

/// Where lists and balance are as above, each copy starts a segment of some face. Where moreover no two triples of a side are
/// opposite and the copies are named as above, it stays a vertex of triples that bound the segments of that face.
pub fn copies_occur()
    ensures start { CopiesOccur }
    ensures stay { VerticesStay }
{}
