//! The shadow tests of two simplices, one of P and one of Q: how often their shadows meet, with a sign, and whether P
//! is beyond Q there. All decisions about which part of a mesh lies where rest on them. Whatever a lawful rounding
//! does to positions, the laws of `Meets` and `Flats` hold, so the counts never contradict each other. After
//! J. M. Smith's thesis "Towards robust inexact geometric computation" and the Manifold library.
#![tactic(auto)]

ghost use Rattle.std.specs.Prelude.{◌≡◌, ◌∷◌, [], ℤ, ◌-ℤ◌, ◌+ℤ◌, Option, Some, List};
ghost use Rattle.mb_base.specs.declared.point.Corner.{Corner};
ghost use Rattle.side_terms.specs.Corners.{AllFine};
ghost use Rattle.shadow_kernels.specs.declared.Meet.{Meet};
ghost use Rattle.shadow_kernels.specs.Counts.{count_of, shadow_of};
ghost use Rattle.shadow_kernels.specs.ShadowLaws.{ShadowLaws};

pub use grid::Grid;
use mb_base::Corner;
pub use rules::{Rules, Sights};
pub use shadows::{edge_vertex_shadow, vertex_edge_shadow};
pub use spots::{gap_of, spot_of};
pub use tests::{edges_meet, end_meet, face_meet};

mod edges;
mod grid;
mod grid_rule;
mod rules;
mod shadows;
mod spots;
mod tally;
mod tests;

/// The values of P and of Q where the shadows of a pair of simplices meet, in fine steps, and on which axes P counts as
/// moved up there.
#[derive(Clone, Copy, Debug, PartialEq, Eq, Drop)]
pub struct Spot {
    pub x: i64,
    pub py: i64,
    pub qy: i64,
    pub pz: i64,
    pub qz: i64,
    pub up: [bool; 3],
}

/// Whose an edge is: a vertex or a face that it meets is of the other side.
#[derive(Clone, Copy, Drop)]
pub enum Edge {
    OfP,
    OfQ,
}

/// How often the shadows of a pair meet, with its sign, whether P is beyond Q there, and where.
#[derive(Clone, Copy, Debug, PartialEq, Eq, Drop)]
pub struct Meet {
    pub count: i8,
    pub above: bool,
    pub spot: Spot,
}

impl Meet {
    /// The count where P is beyond Q, else 0.
    pub fn shadow(&self) -> i8
        ensures { result ≡ shadow_of (Some self.now) }
    {
        if self.above { self.count } else { 0 }
    }
}

/// The shadow test of a simplex of P with M corners and one of Q with N corners: 1 a vertex, 2 an edge, 3 a face. Every
/// coordinate lies within `UNIT * 2^30` of 0. There is no answer where the count is 0.
pub trait Meets<const M: usize, const N: usize> {
    /// What `meet` answers.
    ghost meet_of: { Self → List Corner → List Corner → Option Meet };

    /// The answer for the corners of p and of q.
    fn meet(&self, p: &[Corner; M], q: &[Corner; N]) -> Option<Meet>
        requires p_fine { AllFine p.now }
        requires q_fine { AllFine q.now }
        ensures { result ≡ meet_of self.now p.now q.now };

    /// The laws: exchanging two corners turns the sign of the count and keeps the rest; the count is -1, 0 or 1; but
    /// for two vertices the spot lies in the boxes of both; boxes strictly apart on one of the first M + N - 2 axes give no
    /// answer, and such on the next axis say whether p is beyond q.
    ghost laws: { (k : Self) → ShadowLaws M N (meet_of k) };
}

/// The tests of vertices and edges. Their counts are the signed sums of the shadows of their boundary pairs.
pub trait Flats: Meets<1, 1> + Meets<1, 2> + Meets<2, 1> + Meets<2, 2> {
    /// A vertex and an edge.
    ghost lift_01: { (k : Self) (p c d : Corner) → AllFine (p ∷ []) → AllFine (c ∷ d ∷ []) →
        count_of (⟦<Self as Meets<1, 2>>⟧.meet_of k (p ∷ []) (c ∷ d ∷ []))
        ≡ shadow_of (⟦<Self as Meets<1, 1>>⟧.meet_of k (p ∷ []) (c ∷ []))
        -ℤ shadow_of (⟦<Self as Meets<1, 1>>⟧.meet_of k (p ∷ []) (d ∷ [])) };

    /// An edge and a vertex.
    ghost lift_10: { (k : Self) (a b q : Corner) → AllFine (a ∷ b ∷ []) → AllFine (q ∷ []) →
        count_of (⟦<Self as Meets<2, 1>>⟧.meet_of k (a ∷ b ∷ []) (q ∷ []))
        ≡ shadow_of (⟦<Self as Meets<1, 1>>⟧.meet_of k (b ∷ []) (q ∷ []))
        -ℤ shadow_of (⟦<Self as Meets<1, 1>>⟧.meet_of k (a ∷ []) (q ∷ [])) };

    /// Two edges.
    ghost lift_11: { (k : Self) (a b c d : Corner) → AllFine (a ∷ b ∷ []) → AllFine (c ∷ d ∷ []) →
        count_of (⟦<Self as Meets<2, 2>>⟧.meet_of k (a ∷ b ∷ []) (c ∷ d ∷ []))
        ≡ shadow_of (⟦<Self as Meets<1, 2>>⟧.meet_of k (b ∷ []) (c ∷ d ∷ []))
        -ℤ shadow_of (⟦<Self as Meets<1, 2>>⟧.meet_of k (a ∷ []) (c ∷ d ∷ []))
        +ℤ shadow_of (⟦<Self as Meets<2, 1>>⟧.meet_of k (a ∷ b ∷ []) (d ∷ []))
        -ℤ shadow_of (⟦<Self as Meets<2, 1>>⟧.meet_of k (a ∷ b ∷ []) (c ∷ [])) };
}
