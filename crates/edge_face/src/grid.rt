//! The crossings on the grid, under any lawful rounding.

ghost use Rattle.std.specs.Prelude.{◌≡◌};
ghost use Rattle.shadow_kernels.specs.Lawful.{grid_rule};
ghost use Rattle.shadow_kernels.specs.RuleLaws.{lift02, lift20};
ghost use Rattle.shadow_kernels.specs.Rules.{grid};
ghost use Rattle.shadow_kernels.specs.Shadows.{edge_edge, vertex_face, face_vertex};
ghost use Rattle.edge_face.specs.Crossings.{mirror, p_point, q_point, edge_face_crossing, face_edge_crossing};
ghost use Rattle.edge_face.specs.Laws.{lift, edge_face_laws, face_edge_laws};

use crate::numbered::crossing;
use crate::{Cross, Crosses, Kernels};
use mb_base::Corner;
use rounding::Rounding;
use shadow_kernels::{Edge, Grid};

impl<R: Rounding> Crosses<2, 3> for Grid<R> {
    ghost crossing_of = { λ k. edge_face_crossing grid (R.between_of k.rounding) (R.settle_of k.rounding) };

    ghost laws = { λ k. edge_face_laws (grid_rule (R.between_of k.rounding) (record { within = R.within k.rounding }))
        (R.settle_of k.rounding) (record { monotone = R.monotone k.rounding; units = R.units k.rounding }) };

    fn cross(&self, p: &[Corner; 2], q: &[Corner; 3]) -> Option<Cross> {
        crossing(self, Edge::OfP, p, q)
    }
}

impl<R: Rounding> Crosses<3, 2> for Grid<R> {
    ghost crossing_of = { λ k. face_edge_crossing grid (R.between_of k.rounding) (R.settle_of k.rounding) };

    ghost laws = { λ k. face_edge_laws (grid_rule (R.between_of k.rounding) (record { within = R.within k.rounding }))
        (R.settle_of k.rounding) (record { monotone = R.monotone k.rounding; units = R.units k.rounding }) };

    fn cross(&self, p: &[Corner; 3], q: &[Corner; 2]) -> Option<Cross> {
        crossing(self, Edge::OfQ, q, p)
    }
}

impl<R: Rounding> Kernels for Grid<R> {
    ghost lift_vertex_face = { λ k p u v w a b. lift02 grid (R.between_of k.rounding) p u v w };

    ghost lift_face_vertex = { λ k u v w q a b. lift20 grid (R.between_of k.rounding) u v w q };

    ghost lift_12 = { λ k a b u v w s t. lift (vertex_face grid (R.between_of k.rounding)) (edge_edge grid (R.between_of k.rounding))
        (p_point (R.between_of k.rounding) (R.settle_of k.rounding)) a b u v w };

    ghost lift_21 = { λ k u v w c d s t. lift (mirror (face_vertex grid (R.between_of k.rounding))) (mirror (edge_edge grid (R.between_of k.rounding)))
        (q_point (R.between_of k.rounding) (R.settle_of k.rounding)) c d u v w };
}
