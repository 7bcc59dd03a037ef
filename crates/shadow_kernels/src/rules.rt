//! What decides which of two simplices is beyond the other: the shadow tests count and place alike under every rule.
//!
//! What decides what is beyond what is a value (`Rule`), and the definitions and laws of shadow tests and crossings
//! are said once, under any lawful rule. On the grid it looks at the spot alone, under exact kernels at the corners
//! alone. Code has it as two traits, `Rules` at a spot and `Sights` without one: the tests of the grid call the sums
//! of shadows, which call the rule, and in one trait that would be a circle.

ghost use Rattle.std.specs.Prelude.{◌≡◌, IfSome};
ghost use Rattle.side_terms.specs.Corners.{axis, corner_at, IsFineCorner, AllFine};
ghost use Rattle.shadow_kernels.specs.Edges.{rim};
ghost use Rattle.shadow_kernels.specs.Hulls.{IsAlong};
ghost use Rattle.shadow_kernels.specs.Lawful.{IsRule};
ghost use Rattle.shadow_kernels.specs.Levels.{face_meet};
ghost use Rattle.shadow_kernels.specs.Rules.{Rule, spot_and_side};
ghost use Rattle.shadow_kernels.specs.Shadows.{edge_edge};

use crate::{Edge, Spot};
use mb_base::Corner;
use rounding::Rounding;

/// A rule, beside the rounding that places spots.
pub trait Rules: Rounding {
    /// What it decides.
    ghost rule_of: { Self → Rule };

    /// Whether a vertex of P is beyond one of Q in x.
    fn is_beyond(&self, p: &Corner, q: &Corner) -> bool
        ensures { result ≡ (rule_of self.now).beyond_in_x p.now q.now };

    /// Whether P is beyond Q in y at the spot of a vertex and an edge of the other side.
    fn is_over_edge_at(
        &self,
        edge: Edge,
        vertex: &Corner,
        left: &Corner,
        right: &Corner,
        spot: &Spot,
    ) -> bool
        requires vertex_fine { IsFineCorner vertex.now }
        requires left_fine { IsFineCorner left.now }
        requires right_fine { IsFineCorner right.now }
        ensures { result ≡ (rule_of self.now).over_edge edge vertex.now left.now right.now spot.now };

    /// Whether P is beyond Q in z at the spot of two edges.
    fn is_over_edges_at(&self, p: &[Corner; 2], q: &[Corner; 2], spot: &Spot) -> bool
        requires p_fine { AllFine p.now }
        requires q_fine { AllFine q.now }
        ensures { result ≡ (rule_of self.now).over_edges (corner_at p.now 0) (corner_at p.now 1) (corner_at q.now 0) (corner_at q.now 1) spot.now };

    /// Whether P is beyond Q in z at the spot of a vertex and a face of the other side.
    fn is_over_face_at(&self, of: Edge, vertex: &Corner, face: &[Corner; 3], spot: &Spot) -> bool
        requires vertex_fine { IsFineCorner vertex.now }
        requires face_fine { AllFine face.now }
        ensures { result ≡ (rule_of self.now).over_face of vertex.now (corner_at face.now 0) (corner_at face.now 1) (corner_at face.now 2) spot.now };

    /// It is lawful under the rounding.
    ghost lawful: { (k : Self) → IsRule (rule_of k) (⟦<Self as Rounding>⟧.between_of k) };
}

/// What a rule decides, with no spot handed in.
pub trait Sights: Rules {
    /// Whether P is beyond Q in y at a vertex and an edge of the other side.
    fn is_over_edge(&self, edge: Edge, vertex: &Corner, left: &Corner, right: &Corner) -> bool
        requires along { IsAlong left.now right.now (axis 0 vertex.now) }
        requires vertex_fine { IsFineCorner vertex.now }
        ensures { result ≡ (spot_and_side (⟦<Self as Rules>⟧.rule_of self.now) (⟦<Self as Rounding>⟧.between_of self.now) edge vertex.now left.now right.now).0 };

    /// Whether an edge of P is beyond one of Q in z, where their answer is not None.
    fn is_over_edges(&self, p: &[Corner; 2], q: &[Corner; 2]) -> bool
        requires p_fine { AllFine p.now }
        requires q_fine { AllFine q.now }
        ensures { IfSome (edge_edge (⟦<Self as Rules>⟧.rule_of self.now) (⟦<Self as Rounding>⟧.between_of self.now) p.now q.now) (λ m. m.above ≡ result) };

    /// Whether P is beyond Q in z at a vertex and a face of the other side, where their answer is not None.
    fn is_over_face(&self, of: Edge, vertex: &Corner, face: &[Corner; 3]) -> bool
        requires vertex_fine { IsFineCorner vertex.now }
        requires face_fine { AllFine face.now }
        ensures { IfSome (face_meet of (⟦<Self as Rules>⟧.rule_of self.now) (⟦<Self as Rounding>⟧.between_of self.now) vertex.now
            (corner_at face.now 0) (corner_at face.now 1) (corner_at face.now 2)) (λ m. m.above ≡ result) };
}
