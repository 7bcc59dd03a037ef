//! Definitions of the two sides of an operation: corners in fine steps, boxes, sides, hits, and how their numbers are conserved; and
//! of what the parts of a result are assembled from: the vertices that numbers prescribe, in order, and the lists of each source face
//! in which their copies stand.
#![tactic(auto)]

ghost use Rattle.side_terms.specs.PointLaws.{CornersGivePoints};

/// The corners of points lie at those points.
pub fn corners_give_points()
    ensures { CornersGivePoints }
{}
