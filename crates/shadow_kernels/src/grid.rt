//! The shadow tests on the grid, under any lawful rounding.

ghost use Rattle.std.specs.Prelude.{◌≡◌, ◌+◌, ◌∷◌, [], pos, ◌-ℤ◌, ◌+ℤ◌};
ghost use Rattle.side_terms.specs.Corners.{corner_at, AllFine};
ghost use Rattle.shadow_kernels.specs.Counts.{count_of, shadow_of};
ghost use Rattle.shadow_kernels.specs.Lawful.{grid_rule};
ghost use Rattle.shadow_kernels.specs.Rules.{grid};
ghost use Rattle.shadow_kernels.specs.Shadows.{vertex_vertex, vertex_edge, edge_vertex, edge_edge, vertex_face, face_vertex};
ghost use Rattle.shadow_kernels.specs.RuleLaws.{laws00, laws01, laws10, laws11, laws02, laws20, lift01, lift10, lift11};

use crate::edges::edge_meet;
use crate::spots::vertex_vertex_spot;
use crate::tests::{edges_meet, face_meet};
use crate::{Edge, Flats, Meet, Meets, Rules, Spot};
use mb_base::Corner;
use rounding::Rounding;

/// The shadow tests on the grid, with spots placed by the rounding.
#[derive(Clone, Copy, Drop)]
pub struct Grid<R: Rounding> {
    pub rounding: R,
}

impl<R: Rounding> Meets<1, 1> for Grid<R> {
    ghost meet_of = { λ k. vertex_vertex grid };

    ghost laws = { λ k. laws00 (grid_rule (R.between_of k.rounding) (record { within = R.within k.rounding })) };

    fn meet(&self, p: &[Corner; 1], q: &[Corner; 1]) -> Option<Meet>
        ensures value { result ≡ vertex_vertex grid p.now q.now }
        ensures one { count_of result ≡ pos 1 }
    {
        Some(Meet {
            count: 1,
            above: self.is_beyond(&p[0], &q[0]),
            spot: vertex_vertex_spot(&p[0], &q[0]),
        })
    }
}

impl<R: Rounding> Meets<1, 2> for Grid<R> {
    ghost meet_of = { λ k. vertex_edge grid (R.between_of k.rounding) };

    ghost laws = { λ k. laws01 (grid_rule (R.between_of k.rounding) (record { within = R.within k.rounding })) };

    fn meet(&self, p: &[Corner; 1], q: &[Corner; 2]) -> Option<Meet> {
        edge_meet(self, Edge::OfQ, &p[0], &q[0], &q[1])
    }
}

impl<R: Rounding> Meets<2, 1> for Grid<R> {
    ghost meet_of = { λ k. edge_vertex grid (R.between_of k.rounding) };

    ghost laws = { λ k. laws10 (grid_rule (R.between_of k.rounding) (record { within = R.within k.rounding })) };

    fn meet(&self, p: &[Corner; 2], q: &[Corner; 1]) -> Option<Meet> {
        edge_meet(self, Edge::OfP, &q[0], &p[0], &p[1])
    }
}

impl<R: Rounding> Meets<2, 2> for Grid<R> {
    ghost meet_of = { λ k. edge_edge grid (R.between_of k.rounding) };

    ghost laws = { λ k. laws11 (grid_rule (R.between_of k.rounding) (record { within = R.within k.rounding })) };

    fn meet(&self, p: &[Corner; 2], q: &[Corner; 2]) -> Option<Meet> {
        edges_meet(self, p, q)
    }
}

impl<R: Rounding> Meets<1, 3> for Grid<R> {
    ghost meet_of = { λ k. vertex_face grid (R.between_of k.rounding) };

    ghost laws = { λ k. laws02 (grid_rule (R.between_of k.rounding) (record { within = R.within k.rounding })) };

    fn meet(&self, p: &[Corner; 1], q: &[Corner; 3]) -> Option<Meet>
        requires p_fine { AllFine p.now }
        requires q_fine { AllFine q.now }
        ensures value { result ≡ vertex_face grid (R.between_of self.now.rounding) p.now q.now }
        ensures lift { count_of result
            ≡ shadow_of (⟦<Grid<R> as Meets<1, 2>>⟧.meet_of self.now p.now (corner_at q.now 0 ∷ corner_at q.now 1 ∷ []))
            +ℤ (shadow_of (⟦<Grid<R> as Meets<1, 2>>⟧.meet_of self.now p.now (corner_at q.now 1 ∷ corner_at q.now 2 ∷ []))
            +ℤ (shadow_of (⟦<Grid<R> as Meets<1, 2>>⟧.meet_of self.now p.now (corner_at q.now 2 ∷ corner_at q.now 0 ∷ []))
            +ℤ pos 0)) }
    {
        face_meet(self, Edge::OfQ, &p[0], q)
    }
}

impl<R: Rounding> Meets<3, 1> for Grid<R> {
    ghost meet_of = { λ k. face_vertex grid (R.between_of k.rounding) };

    ghost laws = { λ k. laws20 (grid_rule (R.between_of k.rounding) (record { within = R.within k.rounding })) };

    fn meet(&self, p: &[Corner; 3], q: &[Corner; 1]) -> Option<Meet>
        requires p_fine { AllFine p.now }
        requires q_fine { AllFine q.now }
        ensures value { result ≡ face_vertex grid (R.between_of self.now.rounding) p.now q.now }
        ensures lift { count_of result
            ≡ shadow_of (⟦<Grid<R> as Meets<2, 1>>⟧.meet_of self.now (corner_at p.now 0 ∷ corner_at p.now 1 ∷ []) q.now)
            +ℤ (shadow_of (⟦<Grid<R> as Meets<2, 1>>⟧.meet_of self.now (corner_at p.now 1 ∷ corner_at p.now 2 ∷ []) q.now)
            +ℤ (shadow_of (⟦<Grid<R> as Meets<2, 1>>⟧.meet_of self.now (corner_at p.now 2 ∷ corner_at p.now 0 ∷ []) q.now)
            +ℤ pos 0)) }
    {
        face_meet(self, Edge::OfP, &q[0], p)
    }
}

impl<R: Rounding> Flats for Grid<R> {
    ghost lift_01 = { λ k p c d a b. lift01 grid (R.between_of k.rounding) p c d };

    ghost lift_10 = { λ k c d q a b. lift10 grid (R.between_of k.rounding) c d q };

    ghost lift_11 = { λ k a b c d s t. lift11 grid (R.between_of k.rounding) a b c d };
}
