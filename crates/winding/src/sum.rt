// The winding number of a corner of one side in the other.
//
// A sum of `winding` asks for the faces whose boxes touch half of the vertical line at the corner: downwards for a
// corner of P, upwards for one of Q. The faces on the other half may have answers, but by the law `side` these are
// not above, so their shadows are 0. `winding_at`, which makes one sum, looks at all faces: a tree would cost more
// than it saves.
ghost use Rattle.std.specs.Prelude.{◌≡◌, ◌≤◌, ◌<◌, ◌+◌, nat_abs, length, IfSome, IsNone};
ghost use Rattle.side_terms.specs.Corners.{IsFineCorner};
ghost use Rattle.winding.specs.Windings.{minus_shadows, winding, winding_back};

use crate::shadows::{PVertices, QVertices, VertexFace};
use edge_face::Kernels;
use lean::Side;
use mb_base::{Corner, Steps};
use shadow_kernels::Meets;
use std::sync::ledger::Ledger;

/// The winding number of a corner of P in Q: minus the sum of its shadows on all faces of Q. The corner's coordinates
/// lie within `UNIT * 2^30` fine steps of 0. It counts one step and takes no memory.
pub fn winding_sum<K: Kernels, L: Ledger>(
    p: &Corner,
    q: &Side,
    kernels: &K,
    steps: &mut Steps<L>,
) -> i64
    requires { IsFineCorner p.now }
    ensures value { result ≡ winding (⟦<K as Meets<1, 3>>⟧.meet_of kernels.now) p.now q.now }
    ensures size { nat_abs result ≤ length q.now.triples }
    ensures cost { steps.new ≡ steps.old + 1 }
{
    minus_shadows(p, q, &PVertices(kernels), steps)
}

/// The winding number of a corner of Q in P: minus the sum of the shadows of all faces of P on it. The corner's
/// coordinates lie within `UNIT * 2^30` fine steps of 0. It counts one step and takes no memory.
pub fn winding_sum_back<K: Kernels, L: Ledger>(
    p: &Side,
    q: &Corner,
    kernels: &K,
    steps: &mut Steps<L>,
) -> i64
    requires { IsFineCorner q.now }
    ensures value { result ≡ winding_back (⟦<K as Meets<3, 1>>⟧.meet_of kernels.now) p.now q.now }
    ensures size { nat_abs result ≤ length p.now.triples }
    ensures cost { steps.new ≡ steps.old + 1 }
{
    minus_shadows(q, p, &QVertices(kernels), steps)
}

/// Minus the sum of the shadows of a vertex and all faces of a side, counted as one step.
pub fn minus_shadows<S: VertexFace, L: Ledger>(
    vertex: &Corner,
    faces: &Side,
    shadows: &S,
    steps: &mut Steps<L>,
) -> i64
    requires { IsFineCorner vertex.now }
    ensures value { result ≡ minus_shadows (S.vertex_shadow shadows.now vertex.now) faces.now }
    ensures size { nat_abs result ≤ length faces.now.triples }
    ensures cost { steps.new ≡ steps.old + 1 }
{
    steps.tick();
    let all = faces.triples().len();
    match minus_few_shadows(vertex, faces, shadows, all) {
        None => 0,
        Some(winding) => winding,
    }
}

/// The same, uncounted. The faces are looked at whose boxes touch the half of the vertical line at the vertex where faces
/// can have shadows; the others have none. Where there are more of them than `most`, there is no answer.
pub fn minus_few_shadows<S: VertexFace>(
    vertex: &Corner,
    faces: &Side,
    shadows: &S,
    most: usize,
) -> Option<i64>
    requires { IsFineCorner vertex.now }
    ensures value { IfSome result (λ sum. sum ≡ minus_shadows (S.vertex_shadow shadows.now vertex.now) faces.now) }
    ensures size { IfSome result (λ sum. nat_abs sum ≤ length faces.now.triples) }
    ensures none { IsNone result → most < length faces.now.triples }
{
    let mut winding: i64 = 0;
    let mut left = most;
    for face in faces.tree().touching(shadows.half_line(vertex)) {
        if left == 0 {
            return None;
        }
        left -= 1;
        winding -= shadows.shadow(vertex, &faces.face(face));
    }
    Some(winding)
}
