//! The rule of the grid: the values at a spot decide, and P's marks where they are equal.

ghost use Rattle.std.specs.Prelude.{◌≡◌, ◌<ℤ◌, IsTrue, IfSome};
ghost use Rattle.std.specs.List.{All};
ghost use Rattle.side_terms.specs.Boxes.{IsBelow};
ghost use Rattle.side_terms.specs.Corners.{axis, IsFineCorner, AllFine};
ghost use Rattle.shadow_kernels.specs.Hulls.{IsBeyond};
ghost use Rattle.shadow_kernels.specs.Lawful.{grid_rule};
ghost use Rattle.shadow_kernels.specs.Rules.{grid, of_q};
ghost use Rattle.shadow_kernels.specs.Shadows.{vertex_face, face_vertex};

use crate::spots::{edge_value, exceeds, mark_between};
use crate::tally::{edge_edge_tally, face_tally};
use crate::{Edge, Grid, Rules, Sights, Spot};
use mb_base::Corner;
use rounding::Rounding;

impl<R: Rounding> Rounding for Grid<R> {
    ghost between_of = { λ k. R.between_of k.rounding };

    ghost settle_of = { λ k. R.settle_of k.rounding };

    ghost within = { λ k. R.within k.rounding };

    ghost starts = { λ k. R.starts k.rounding };

    ghost ends = { λ k. R.ends k.rounding };

    ghost monotone = { λ k. R.monotone k.rounding };

    ghost units = { λ k. R.units k.rounding };

    fn between(&self, u: i64, v: i64, a: i64, b: i64) -> i64 {
        self.rounding.between(u, v, a, b)
    }

    fn settle(&self, fine: i64) -> i32 {
        self.rounding.settle(fine)
    }
}

impl<R: Rounding> Rules for Grid<R> {
    ghost rule_of = { λ k. grid };

    ghost lawful = { λ k. grid_rule (R.between_of k.rounding) (record { within = R.within k.rounding }) };

    fn is_beyond(&self, p: &Corner, q: &Corner) -> bool {
        exceeds(p.at[0], q.at[0], p.up[0])
    }

    fn is_over_edge_at(
        &self,
        edge: Edge,
        vertex: &Corner,
        left: &Corner,
        right: &Corner,
        spot: &Spot,
    ) -> bool {
        exceeds(spot.py, spot.qy, spot.up[1])
    }

    fn is_over_edges_at(&self, p: &[Corner; 2], q: &[Corner; 2], spot: &Spot) -> bool {
        exceeds(spot.pz, spot.qz, spot.up[2])
    }

    fn is_over_face_at(&self, of: Edge, vertex: &Corner, face: &[Corner; 3], spot: &Spot) -> bool {
        exceeds(spot.pz, spot.qz, spot.up[2])
    }
}

impl Edge {
    /// Whether the edge is Q's, and the vertex P's.
    fn is_of_q(self) -> bool
        ensures { result ≡ of_q self }
    {
        match self {
            Edge::OfP => false,
            Edge::OfQ => true,
        }
    }
}

/// Whether a corner is strictly below all corners of a simplex in z.
fn is_lower(low: &Corner, corners: &[Corner]) -> bool
    ensures { IsTrue result → All (λ c. axis 2 low.now <ℤ axis 2 c) corners.now }
{
    for c in corners {
        if c.at[2] <= low.at[2] {
            return false;
        }
    }
    true
}

/// Whether all corners of one simplex are strictly below all of another in z.
fn is_below(ps: &[Corner], qs: &[Corner]) -> bool
    ensures { IsTrue result → IsBelow 2 ps.now qs.now }
{
    for p in ps {
        if !is_lower(p, qs) {
            return false;
        }
    }
    true
}

/// Which of two simplices is beyond the other in z, where their boxes are strictly apart there.
fn beyond_in_z(ps: &[Corner], qs: &[Corner]) -> Option<bool>
    ensures { IfSome result (λ b. IsBeyond 2 ps.now qs.now b) }
{
    if is_below(ps, qs) {
        return Some(false);
    }
    if is_below(qs, ps) { Some(true) } else { None }
}

// A value is placed by the rounding only where the boxes of the two simplices leave open which is beyond.
impl<R: Rounding> Sights for Grid<R> {
    fn is_over_edge(&self, edge: Edge, vertex: &Corner, left: &Corner, right: &Corner) -> bool {
        let [x, y, _] = vertex.at;
        if left.at[1] < y && right.at[1] < y {
            return edge.is_of_q();
        }
        if y < left.at[1] && y < right.at[1] {
            return !edge.is_of_q();
        }
        let value = edge_value(&self.rounding, left, right, x, 1);
        match edge {
            Edge::OfP => {
                let up = mark_between(x - left.at[0], right.at[0] - x, left.up[1], right.up[1]);
                exceeds(value, y, up)
            }
            Edge::OfQ => exceeds(y, value, vertex.up[1]),
        }
    }

    fn is_over_edges(&self, p: &[Corner; 2], q: &[Corner; 2]) -> bool {
        match beyond_in_z(p, q) {
            Some(above) => above,
            None => edge_edge_tally(self, p, q).is_above(&self.rounding),
        }
    }

    fn is_over_face(&self, of: Edge, vertex: &Corner, face: &[Corner; 3]) -> bool {
        match of {
            Edge::OfP => is_face_above_vertex(self, face, &[*vertex]),
            Edge::OfQ => is_vertex_above_face(self, &[*vertex], face),
        }
    }
}

/// Whether a vertex is beyond a face in z, where their answer is not None.
fn is_vertex_above_face<R: Rounding>(kernel: &Grid<R>, p: &[Corner; 1], q: &[Corner; 3]) -> bool
    requires p_fine { AllFine p.now }
    requires q_fine { AllFine q.now }
    ensures { IfSome (vertex_face grid (R.between_of kernel.now.rounding) p.now q.now) (λ m. m.above ≡ result) }
{
    match beyond_in_z(p, q) {
        Some(above) => above,
        None => face_tally(kernel, Edge::OfQ, &p[0], q).is_above(&kernel.rounding),
    }
}

/// Whether a face is beyond a vertex in z, where their answer is not None.
fn is_face_above_vertex<R: Rounding>(kernel: &Grid<R>, p: &[Corner; 3], q: &[Corner; 1]) -> bool
    requires p_fine { AllFine p.now }
    requires q_fine { AllFine q.now }
    ensures { IfSome (face_vertex grid (R.between_of kernel.now.rounding) p.now q.now) (λ m. m.above ≡ result) }
{
    match beyond_in_z(p, q) {
        Some(above) => above,
        None => face_tally(kernel, Edge::OfP, &q[0], p).is_above(&kernel.rounding),
    }
}
