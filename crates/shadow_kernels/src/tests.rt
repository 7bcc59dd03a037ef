//! The shadow tests of edges and faces, under any rule.

ghost use Rattle.std.specs.Prelude.{◌≡◌};
ghost use Rattle.side_terms.specs.Corners.{corner_at, IsFineCorner, AllFine};
ghost use Rattle.shadow_kernels.specs.Edges.{edge_meet};
ghost use Rattle.shadow_kernels.specs.Levels.{face_meet};
ghost use Rattle.shadow_kernels.specs.Shadows.{edge_edge};

use crate::edges::edge_meet;
use crate::tally::{edge_edge_tally, face_tally};
use crate::{Edge, Meet, Rules};
use mb_base::Corner;

/// The answer of a vertex and the edge from c to d of the other side, which the edge is named for.
pub fn end_meet<K: Rules>(
    kernel: &K,
    edge: Edge,
    vertex: &Corner,
    c: &Corner,
    d: &Corner,
) -> Option<Meet>
    requires vertex_fine { IsFineCorner vertex.now }
    requires c_fine { IsFineCorner c.now }
    requires d_fine { IsFineCorner d.now }
    ensures { result ≡ edge_meet edge (K.rule_of kernel.now) (K.between_of kernel.now) vertex.now c.now d.now }
{
    edge_meet(kernel, edge, vertex, c, d)
}

/// The answer of two edges.
pub fn edges_meet<K: Rules>(kernel: &K, p: &[Corner; 2], q: &[Corner; 2]) -> Option<Meet>
    requires p_fine { AllFine p.now }
    requires q_fine { AllFine q.now }
    ensures { result ≡ edge_edge (K.rule_of kernel.now) (K.between_of kernel.now) p.now q.now }
{
    let tally = edge_edge_tally(kernel, p, q);
    let count = tally.count();
    if count == 0 {
        return None;
    }
    let spot = tally.spot(kernel);
    let above = kernel.is_over_edges_at(p, q, &spot);
    Some(Meet { count, above, spot })
}

/// The answer of a vertex and a face of the other side.
pub fn face_meet<K: Rules>(
    kernel: &K,
    of: Edge,
    vertex: &Corner,
    face: &[Corner; 3],
) -> Option<Meet>
    requires vertex_fine { IsFineCorner vertex.now }
    requires face_fine { AllFine face.now }
    ensures { result ≡ face_meet of (K.rule_of kernel.now) (K.between_of kernel.now) vertex.now (corner_at face.now 0) (corner_at face.now 1) (corner_at face.now 2) }
{
    let tally = face_tally(kernel, of, vertex, face);
    let count = tally.count();
    if count == 0 {
        return None;
    }
    let spot = tally.spot(kernel);
    let above = kernel.is_over_face_at(of, vertex, face, &spot);
    Some(Meet { count, above, spot })
}
