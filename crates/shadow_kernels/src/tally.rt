//! The tally of boundary pairs: the sum of their shadows, and the spots of those that are above and are not.

ghost use Rattle.std.specs.Prelude.{◌≡◌, ◌≤◌, ◌∷◌, [], ◌+ℤ◌, pos, unsigned_abs, true, false};
ghost use Rattle.side_terms.specs.Corners.{corner_at, IsFineCorner, AllFine};
ghost use Rattle.shadow_kernels.specs.Spots.{no_spot, spot_between, above_z};
ghost use Rattle.shadow_kernels.specs.Counts.{shadow_of, turned, chosen};
ghost use Rattle.shadow_kernels.specs.Bounds.{IsFinePair, IsTallyOf, IsFineTally};
ghost use Rattle.shadow_kernels.specs.Edges.{rim};
ghost use Rattle.shadow_kernels.specs.Shadows.{boundary11};
ghost use Rattle.shadow_kernels.specs.Sizes.{IsSized};

use crate::edges::edge_meet;
use crate::spots::{exceeds, gap_in_y, mark_between, spot_between_spots, spot_of};
use crate::{Edge, Meet, Rules, Spot};
use mb_base::Corner;
use rounding::Rounding;

/// The sum of the shadows of boundary pairs, and the spots of the first pair that is not above and of the first that is.
#[derive(Clone, Copy, Drop)]
pub(crate) struct Tally {
    count: i8,
    below: Spot,
    above: Spot,
}

impl Tally {
    /// No pairs.
    fn none() -> Tally
        ensures { result ≡ record { count = pos 0; below = no_spot; above = no_spot } }
    {
        let nothing = spot_of(&None);
        Tally {
            count: 0,
            below: nothing,
            above: nothing,
        }
    }

    /// Puts a pair before the others.
    fn put(&mut self, pair: &Option<Meet>)
        requires few { unsigned_abs self.old.count ≤ 3 }
        requires sized { IsSized pair.now }
        ensures count { self.new.count ≡ shadow_of pair.now +ℤ self.old.count }
        ensures below { self.new.below ≡ chosen false pair.now self.old.below }
        ensures above { self.new.above ≡ chosen true pair.now self.old.above }
    {
        if let Some(m) = pair {
            if m.above {
                self.count += m.count;
                self.above = m.spot;
            } else {
                self.below = m.spot;
            }
        }
    }
}

/// The answer with the sign of its count turned.
fn turned(pair: &Option<Meet>) -> Option<Meet>
    requires { IsSized pair.now }
    ensures { result ≡ turned pair.now }
{
    match pair {
        None => None,
        Some(m) => Some(Meet {
            count: -m.count,
            above: m.above,
            spot: m.spot,
        }),
    }
}

/// The tally of three boundary pairs. The last goes first, since each is put before the others.
fn tally_of_three(first: &Option<Meet>, second: &Option<Meet>, third: &Option<Meet>) -> Tally
    requires first_fine { IsFinePair first.now }
    requires second_fine { IsFinePair second.now }
    requires third_fine { IsFinePair third.now }
    ensures tally { IsTallyOf (first.now ∷ second.now ∷ third.now ∷ []) result }
    ensures fine { IsFineTally result }
    ensures few { unsigned_abs result.count ≤ 3 }
{
    let mut tally = Tally::none();
    tally.put(third);
    tally.put(second);
    tally.put(first);
    tally
}

/// The tally of a vertex with the three edges of a face.
pub(crate) fn face_tally<K: Rules>(
    kernel: &K,
    edge: Edge,
    vertex: &Corner,
    face: &[Corner; 3],
) -> Tally
    requires vertex_fine { IsFineCorner vertex.now }
    requires face_fine { AllFine face.now }
    ensures tally { IsTallyOf (rim edge (K.rule_of kernel.now) (K.between_of kernel.now) vertex.now (corner_at face.now 0) (corner_at face.now 1) (corner_at face.now 2)) result }
    ensures fine { IsFineTally result }
{
    tally_of_three(
        &edge_meet(kernel, edge, vertex, &face[0], &face[1]),
        &edge_meet(kernel, edge, vertex, &face[1], &face[2]),
        &edge_meet(kernel, edge, vertex, &face[2], &face[0]),
    )
}

/// The tally of the ends of two edges with the other edge. The first pair goes last, since it is put before the others.
pub(crate) fn edge_edge_tally<K: Rules>(kernel: &K, p: &[Corner; 2], q: &[Corner; 2]) -> Tally
    requires p_fine { AllFine p.now }
    requires q_fine { AllFine q.now }
    ensures tally { IsTallyOf (boundary11 (K.rule_of kernel.now) (K.between_of kernel.now) (corner_at p.now 0) (corner_at p.now 1) (corner_at q.now 0) (corner_at q.now 1)) result }
    ensures fine { IsFineTally result }
{
    let start = edge_meet(kernel, Edge::OfQ, &p[0], &q[0], &q[1]);
    let to = edge_meet(kernel, Edge::OfP, &q[1], &p[0], &p[1]);
    let from = edge_meet(kernel, Edge::OfP, &q[0], &p[0], &p[1]);
    let mut tally = tally_of_three(&turned(&start), &to, &turned(&from));
    tally.put(&edge_meet(kernel, Edge::OfQ, &p[1], &q[0], &q[1]));
    tally
}

impl Tally {
    /// The sum of the shadows.
    pub(crate) fn count(&self) -> i8
        ensures { result ≡ self.now.count }
    {
        self.count
    }

    /// The spot between the two spots.
    pub(crate) fn spot<K: Rounding>(&self, rounding: &K) -> Spot
        requires { IsFineTally self.now }
        ensures { result ≡ spot_between (K.between_of rounding.now) self.now.below self.now.above }
    {
        spot_between_spots(rounding, &self.below, &self.above)
    }

    /// Whether on the grid P is beyond Q in z there.
    pub(crate) fn is_above<K: Rounding>(&self, rounding: &K) -> bool
        requires { IsFineTally self.now }
        ensures { result ≡ above_z (spot_between (K.between_of rounding.now) self.now.below self.now.above) }
    {
        let below = &self.below;
        let above = &self.above;
        let a = gap_in_y(below);
        let b = gap_in_y(above);
        let pz = rounding.between(below.pz, above.pz, a, b);
        let qz = rounding.between(below.qz, above.qz, a, b);
        exceeds(pz, qz, mark_between(a, b, below.up[2], above.up[2]))
    }
}
