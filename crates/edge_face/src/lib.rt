//! How often an edge of one side crosses a face of the other, with its sign, and where. The number is what the shadow
//! tests of the edge's ends and of the edge itself leave over, so under every lawful rounding crossings and winding
//! numbers agree with each other. After J. M. Smith's thesis "Towards robust inexact geometric computation" and the
//! Manifold library.
#![tactic(auto)]

ghost use Rattle.std.specs.Prelude.{◌≡◌, ◌∷◌, [], Option, List};
ghost use Rattle.chain_terms.specs.Sums.{total};
ghost use Rattle.mb_base.specs.declared.point.Corner.{Corner};
ghost use Rattle.side_terms.specs.Corners.{AllFine};
ghost use Rattle.shadow_kernels.specs.Counts.{count_of, shadow_of};
ghost use Rattle.edge_face.specs.declared.Cross.{Cross};
ghost use Rattle.edge_face.specs.Crossings.{number_of, face_edges, mirror, edge_number};
ghost use Rattle.edge_face.specs.CrossingLaws.{CrossingLaws};

use mb_base::{Corner, Point};
pub use numbered::crossing;
use shadow_kernels::{Flats, Meets};

mod grid;
mod numbered;
mod pair;
mod pairs;
mod points;

/// How often an edge crosses a face, with its sign, and the point of the grid where it does.
#[derive(Clone, Copy, Debug, PartialEq, Eq, Drop)]
pub struct Cross {
    pub number: i8,
    pub at: Point,
}

/// The crossings of a simplex of P with M corners and one of Q with N corners, of which one is an edge (2) and the other
/// a face (3). Every coordinate lies within `UNIT * 2^30` of 0. There is no answer where the number is 0.
pub trait Crosses<const M: usize, const N: usize> {
    /// What `cross` answers.
    ghost crossing_of: { Self → List Corner → List Corner → Option Cross };

    /// The answer for the corners of p and of q.
    fn cross(&self, p: &[Corner; M], q: &[Corner; N]) -> Option<Cross>
        requires p_fine { AllFine p.now }
        requires q_fine { AllFine q.now }
        ensures { result ≡ crossing_of self.now p.now q.now };

    /// The laws: the number of an answer is not 0 and lies from -2 to 2; exchanging the ends of the edge turns its sign; boxes
    /// strictly apart on an axis give no answer; and where every coordinate is a multiple of `UNIT`, the point lies in the
    /// box of the edge.
    ghost laws: { (k : Self) → CrossingLaws M N (crossing_of k) };
}

/// All shadow tests and crossings. Their counts and numbers are the signed sums of the shadows of their boundary pairs.
pub trait Kernels: Flats + Meets<1, 3> + Meets<3, 1> + Crosses<2, 3> + Crosses<3, 2> {
    /// A vertex and a face.
    ghost lift_vertex_face: { (k : Self) (p u v w : Corner) → AllFine (p ∷ []) → AllFine (u ∷ v ∷ w ∷ []) →
        count_of (⟦<Self as Meets<1, 3>>⟧.meet_of k (p ∷ []) (u ∷ v ∷ w ∷ []))
        ≡ total (λ e. shadow_of (⟦<Self as Meets<1, 2>>⟧.meet_of k (p ∷ []) e)) (face_edges u v w) };

    /// A face and a vertex.
    ghost lift_face_vertex: { (k : Self) (u v w q : Corner) → AllFine (u ∷ v ∷ w ∷ []) → AllFine (q ∷ []) →
        count_of (⟦<Self as Meets<3, 1>>⟧.meet_of k (u ∷ v ∷ w ∷ []) (q ∷ []))
        ≡ total (λ e. shadow_of (⟦<Self as Meets<2, 1>>⟧.meet_of k e (q ∷ []))) (face_edges u v w) };

    /// An edge of P and a face of Q.
    ghost lift_12: { (k : Self) (a b u v w : Corner) → AllFine (a ∷ b ∷ []) → AllFine (u ∷ v ∷ w ∷ []) →
        number_of (⟦<Self as Crosses<2, 3>>⟧.crossing_of k (a ∷ b ∷ []) (u ∷ v ∷ w ∷ []))
        ≡ edge_number (⟦<Self as Meets<1, 3>>⟧.meet_of k) (⟦<Self as Meets<2, 2>>⟧.meet_of k) a b u v w };

    /// A face of P and an edge of Q.
    ghost lift_21: { (k : Self) (u v w c d : Corner) → AllFine (u ∷ v ∷ w ∷ []) → AllFine (c ∷ d ∷ []) →
        number_of (⟦<Self as Crosses<3, 2>>⟧.crossing_of k (u ∷ v ∷ w ∷ []) (c ∷ d ∷ []))
        ≡ edge_number (mirror (⟦<Self as Meets<3, 1>>⟧.meet_of k)) (mirror (⟦<Self as Meets<2, 2>>⟧.meet_of k)) c d u v w };
}
