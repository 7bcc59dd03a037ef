//! The laws, each as the contract of a function that does nothing.

ghost use Rattle.source_face_laws.specs.FillingLaws.{
  FacesAreFilled,
  FacesFormLoops,
  FillingsAreAccepted,
  FillingsAreFew,
  SegmentsAreCounted,
};

/// There are as many segments in all source faces as starts in all lists, and those of each face form loops that can be
/// filled.
pub fn faces_form_loops()
    ensures counted { SegmentsAreCounted }
    ensures loops { FacesFormLoops }
{}

/// The filling of each source face has the boundary of its segments, three different vertices in each triangle and at most
/// five triangles for three segments.
pub fn faces_are_filled()
    ensures filled { FacesAreFilled }
{}

/// All fillings together are a closed mesh that uses each copy, and has at most five triangles for three starts.
pub fn fillings_close()
    ensures accepted { FillingsAreAccepted }
    ensures few { FillingsAreFew }
{}
