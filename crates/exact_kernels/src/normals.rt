//! Two edges, and a vertex and a face of the other side.

ghost use Rattle.std.specs.Prelude.{◌≡◌, ◌≤◌, ◌<◌, ◌^◌, ◌-ℤ◌, ◌*ℤ◌, unsigned_abs};
ghost use Rattle.std.specs.List.{All};
ghost use Rattle.side_terms.specs.Corners.{corner_at, IsFineCorner, AllFine};
ghost use Rattle.plane_laws.specs.Decisions.{way, cross_product, scalar, is_above, leading};
ghost use Rattle.exact_kernels.specs.Exact.{exact_edges, exact_face, position};
ghost use Rattle.exact_kernels.specs.Vectors.{vector, number_on};

use crate::signs::{less, part, product, same_sign, sum, way};
use mb_base::Corner;
use shadow_kernels::Edge;

/// The way from one corner to another.
fn ways(from: &Corner, to: &Corner) -> [i64; 3]
    requires from_fine { IsFineCorner from.now }
    requires to_fine { IsFineCorner to.now }
    ensures value { vector result ≡ way (position from.now) (position to.now) }
    ensures small { All (λ x. unsigned_abs x ≤ 2 ^ 39) result }
{
    [way(0, from, to), way(1, from, to), way(2, from, to)]
}

/// The cross product of two ways.
fn cross_product(e: &[i64; 3], f: &[i64; 3]) -> [i128; 3]
    requires e_small { All (λ x. unsigned_abs x ≤ 2 ^ 39) e.now }
    requires f_small { All (λ x. unsigned_abs x ≤ 2 ^ 39) f.now }
    ensures value { vector result ≡ cross_product (vector e.now) (vector f.now) }
    ensures small { All (λ n. unsigned_abs n ≤ 2 ^ 79) result }
{
    [
        cross_on(e, f, 1, 2),
        cross_on(e, f, 2, 0),
        cross_on(e, f, 0, 1),
    ]
}

/// One number of it; i and j are the two axes after its own.
fn cross_on(e: &[i64; 3], f: &[i64; 3], i: usize, j: usize) -> i128
    requires i { i < 3 }
    requires j { j < 3 }
    requires e_small { All (λ x. unsigned_abs x ≤ 2 ^ 39) e.now }
    requires f_small { All (λ x. unsigned_abs x ≤ 2 ^ 39) f.now }
    ensures value { result ≡ number_on e.now i *ℤ number_on f.now j -ℤ number_on e.now j *ℤ number_on f.now i }
    ensures small { unsigned_abs result ≤ 2 ^ 79 }
{
    less(product(e[i], f[j]), product(e[j], f[i]))
}

/// The scalar product of a normal and a way.
fn scalar(n: &[i128; 3], w: &[i64; 3]) -> i128
    requires n_small { All (λ x. unsigned_abs x ≤ 2 ^ 79) n.now }
    requires w_small { All (λ x. unsigned_abs x ≤ 2 ^ 39) w.now }
    ensures value { result ≡ scalar (vector n.now) (vector w.now) }
    ensures small { unsigned_abs result < 2 ^ 120 }
{
    sum(part(n[0], w[0]), part(n[1], w[1]), part(n[2], w[2]))
}

/// The first number of a normal that is not 0, if one is not.
fn leading(n: &[i128; 3]) -> i128
    ensures { result ≡ leading (vector n.now) }
{
    let [x, y, z] = *n;
    if x != 0 {
        x
    } else if y != 0 {
        y
    } else {
        z
    }
}

/// Whether the height over the plane of a normal, or, where that is 0, the leading number, has the sign of the normal in z.
fn has_sign(n: &[i128; 3], height: i128) -> bool
    ensures { result ≡ is_above (vector n.now) height }
{
    if height == 0 {
        same_sign(leading(n), n[2])
    } else {
        same_sign(height, n[2])
    }
}

/// The same of the height that the way from the plane to a corner gives.
fn is_above(n: &[i128; 3], w: &[i64; 3]) -> bool
    requires n_small { All (λ x. unsigned_abs x ≤ 2 ^ 79) n.now }
    requires w_small { All (λ x. unsigned_abs x ≤ 2 ^ 39) w.now }
    ensures { result ≡ is_above (vector n.now) (scalar (vector n.now) (vector w.now)) }
{
    has_sign(n, scalar(n, w))
}

/// Whether an edge of P is beyond one of Q in z.
pub(crate) fn is_edge_over_edge(p: &[Corner; 2], q: &[Corner; 2]) -> bool
    requires p_fine { AllFine p.now }
    requires q_fine { AllFine q.now }
    ensures { result ≡ exact_edges (corner_at p.now 0) (corner_at p.now 1) (corner_at q.now 0) (corner_at q.now 1) }
{
    let [a, b] = p;
    let [c, d] = q;
    let normal = cross_product(&ways(a, b), &ways(c, d));
    is_above(&normal, &ways(c, a))
}

/// Whether P is beyond Q in z at a vertex and a face of the other side.
pub(crate) fn is_over_face(of: Edge, vertex: &Corner, face: &[Corner; 3]) -> bool
    requires vertex_fine { IsFineCorner vertex.now }
    requires face_fine { AllFine face.now }
    ensures { result ≡ exact_face of vertex.now (corner_at face.now 0) (corner_at face.now 1) (corner_at face.now 2) }
{
    let [u, v, t] = face;
    let normal = cross_product(&ways(u, v), &ways(u, t));
    match of {
        Edge::OfP => is_above(&normal, &ways(vertex, u)),
        Edge::OfQ => is_above(&normal, &ways(u, vertex)),
    }
}
