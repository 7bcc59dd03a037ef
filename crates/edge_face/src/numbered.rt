//! The crossing of an edge and a face, under any rule.

ghost use Rattle.std.specs.Prelude.{◌≡◌};
ghost use Rattle.side_terms.specs.Corners.{AllFine};
ghost use Rattle.shadow_kernels.specs.Entries.{spot_of};
ghost use Rattle.edge_face.specs.Pairs.{spot_at};
ghost use Rattle.edge_face.specs.Sides.{ends_on, edges_on, pairs_on, crossing_on};

use crate::Cross;
use crate::pairs::{other, pairs_of};
use crate::points::edge_point;
use mb_base::Corner;
use shadow_kernels::{Edge, Rules, Sights, Spot, edges_meet, face_meet, spot_of};

/// The crossing of an edge and a face of the other side.
pub fn crossing<K: Sights>(
    kernel: &K,
    of: Edge,
    edge: &[Corner; 2],
    face: &[Corner; 3],
) -> Option<Cross>
    requires edge_fine { AllFine edge.now }
    requires face_fine { AllFine face.now }
    ensures value { result ≡ crossing_on of (K.rule_of kernel.now) (K.between_of kernel.now) (K.settle_of kernel.now) edge.now face.now }
{
    let pairs = pairs_of(kernel, of, edge, face);
    let number = pairs.number();
    if number == 0 {
        return None;
    }
    let below = spot_on(kernel, of, edge, face, pairs.first_on(false));
    let above = spot_on(kernel, of, edge, face, pairs.first_on(true));
    let at = edge_point(kernel, of, &below, &above)?;
    Some(Cross { number, at })
}

/// The spot of the pair that has this place: start, end, first, second and third edge of the face.
fn spot_on<K: Rules>(
    kernel: &K,
    of: Edge,
    edge: &[Corner; 2],
    face: &[Corner; 3],
    place: usize,
) -> Spot
    requires edge_fine { AllFine edge.now }
    requires face_fine { AllFine face.now }
    ensures { result ≡ spot_at (pairs_on of (K.rule_of kernel.now) (K.between_of kernel.now) edge.now face.now) place }
{
    match place {
        0 => face_spot(kernel, of, &[edge[0]], face),
        1 => face_spot(kernel, of, &[edge[1]], face),
        2 => edges_spot(kernel, of, edge, &[face[0], face[1]]),
        3 => edges_spot(kernel, of, edge, &[face[1], face[2]]),
        4 => edges_spot(kernel, of, edge, &[face[2], face[0]]),
        _ => spot_of(&None),
    }
}

/// The spot of a vertex of the edge's side and the face.
fn face_spot<K: Rules>(kernel: &K, of: Edge, vertex: &[Corner; 1], face: &[Corner; 3]) -> Spot
    requires vertex_fine { AllFine vertex.now }
    requires face_fine { AllFine face.now }
    ensures { result ≡ spot_of (ends_on of (K.rule_of kernel.now) (K.between_of kernel.now) vertex.now face.now) }
{
    spot_of(&face_meet(kernel, other(of), &vertex[0], face))
}

/// The spot of the edge and an edge of the face.
fn edges_spot<K: Rules>(kernel: &K, of: Edge, edge: &[Corner; 2], other: &[Corner; 2]) -> Spot
    requires edge_fine { AllFine edge.now }
    requires other_fine { AllFine other.now }
    ensures { result ≡ spot_of (edges_on of (K.rule_of kernel.now) (K.between_of kernel.now) edge.now other.now) }
{
    match of {
        Edge::OfP => spot_of(&edges_meet(kernel, edge, other)),
        Edge::OfQ => spot_of(&edges_meet(kernel, other, edge)),
    }
}
