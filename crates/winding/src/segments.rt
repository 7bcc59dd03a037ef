// How often the segment between two corners of one side crosses the faces of the other.
ghost use Rattle.std.specs.Prelude.{◌≡◌, ◌≤◌, ◌*◌, nat_abs, length};
ghost use Rattle.edge_face.specs.Crossings.{number_of};
ghost use Rattle.side_terms.specs.Corners.{AllFine};
ghost use Rattle.winding.specs.Segments.{segment_total};

use crossings::EdgeFace;
use edge_face::Cross;
use lean::Side;
use mb_base::{Corner, box_of};

/// The sum of the numbers of a segment with all faces. The faces are looked at whose boxes touch its own; with the others
/// it has no crossing.
pub fn crossings_between<C: EdgeFace>(segment: &[Corner; 2], faces: &Side, pairs: &C) -> i64
    requires { AllFine segment.now }
    ensures value { result ≡ segment_total (C.crossing_of pairs.now) segment.now faces.now }
    ensures size { nat_abs result ≤ 128 * length faces.now.triples }
{
    let mut sum: i64 = 0;
    for face in faces.tree().touching(box_of(segment)) {
        sum += number_of(pairs.crossing(segment, &faces.face(face)));
    }
    sum
}

// The number of an answer: 0 where there is none.
fn number_of(answer: Option<Cross>) -> i64
    ensures value { result ≡ number_of answer }
    ensures size { nat_abs result ≤ 128 }
{
    match answer {
        None => 0,
        Some(cross) => cross.number as i64,
    }
}
