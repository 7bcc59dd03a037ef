//! Crossings under exact kernels, with what geometry says of their numbers. The calls are those of `cross`.

ghost use Rattle.std.specs.Prelude.{◌≡◌};
ghost use Rattle.side_terms.specs.Corners.{AllFine, corner_at};
ghost use Rattle.edge_face.specs.Crossings.{number_of};
ghost use Rattle.exact_kernels.specs.Exact.{position};
ghost use Rattle.crossing_laws.specs.Through.{moved_through, through_moved};

use edge_face::{Cross, Crosses};
use exact_kernels::Exact;
use mb_base::Corner;
use rounding::Rounding;

/// The crossing of an edge of P and a face of Q: the edge, moved by the hair, goes through the face once, or not at all.
pub fn exact_crossing<R: Rounding>(
    edge: &[Corner; 2],
    face: &[Corner; 3],
    kernels: &Exact<R>,
) -> Option<Cross>
    requires edge_fine { AllFine edge.now }
    requires face_fine { AllFine face.now }
    ensures number { number_of result ≡ moved_through (position (corner_at edge.now 0)) (position (corner_at edge.now 1))
        (position (corner_at face.now 0)) (position (corner_at face.now 1)) (position (corner_at face.now 2)) }
{
    kernels.cross(edge, face)
}

/// The crossing of a face of P and an edge of Q: the edge goes through the moved face once, or not at all.
pub fn exact_crossing_back<R: Rounding>(
    face: &[Corner; 3],
    edge: &[Corner; 2],
    kernels: &Exact<R>,
) -> Option<Cross>
    requires face_fine { AllFine face.now }
    requires edge_fine { AllFine edge.now }
    ensures number { number_of result ≡ through_moved (position (corner_at edge.now 0)) (position (corner_at edge.now 1))
        (position (corner_at face.now 0)) (position (corner_at face.now 1)) (position (corner_at face.now 2)) }
{
    kernels.cross(face, edge)
}
