//! Exact shadow tests and crossings: which of two simplices is beyond the other is decided by the signs of whole numbers, as
//! if P were moved by a hair in x, by a lesser one in y and by a still lesser one in z. No mark and no rounded value decides
//! anything. Counts are the sums that the kernels of the grid take too, and spots and points are placed as theirs, by a
//! rounding; so all laws of kernels hold. Moreover every crossing number is -1, 0 or 1. The idea is the simulation of
//! simplicity of H. Edelsbrunner and E. P. Mücke.
//!
//! The definitions stand in `specs/Exact.antt`, and why they are lawful in the other files there, over the laws of
//! `plane_laws`. `heights` compares a vertex with an edge in y, and `normals` two edges, or a vertex and a face, in z.
#![tactic(auto)]

ghost use Rattle.std.specs.Prelude.{◌≡◌, ◌≤ℤ◌, pos, negsuc};
ghost use Rattle.side_terms.specs.Corners.{AllFine};
ghost use Rattle.shadow_kernels.specs.Counts.{count_of};
ghost use Rattle.shadow_kernels.specs.RuleLaws.{laws00, laws01, laws10, laws11, laws02, laws20, lift01, lift10, lift11, lift02, lift20};
ghost use Rattle.shadow_kernels.specs.Shadows.{vertex_vertex, vertex_edge, edge_vertex, edge_edge, vertex_face, face_vertex};
ghost use Rattle.edge_face.specs.Crossings.{number_of, mirror, p_point, q_point, edge_face_crossing, face_edge_crossing};
ghost use Rattle.edge_face.specs.Laws.{lift, edge_face_laws, face_edge_laws};
ghost use Rattle.exact_kernels.specs.Exact.{exact};
ghost use Rattle.exact_kernels.specs.ExactRule.{exact_rule};

use edge_face::{Cross, Crosses, Kernels, crossing};
use mb_base::Corner;
use rounding::Rounding;
use shadow_kernels::{
    Edge, Flats, Meet, Meets, Rules, Sights, Spot, edges_meet, end_meet, face_meet,
};

mod heights;
mod normals;
mod signs;

/// The exact kernels, with spots and points placed by the rounding. They take no memory. Every coordinate of a corner lies
/// within `UNIT * 2^30` of 0, as all kernels ask; no sum or product of such coordinates wraps.
#[derive(Clone, Copy, Drop)]
pub struct Exact<R: Rounding> {
    pub rounding: R,
}

impl<R: Rounding> Rounding for Exact<R> {
    ghost between_of = { λ k. R.between_of k.rounding };

    ghost settle_of = { λ k. R.settle_of k.rounding };

    ghost within = { λ k. R.within k.rounding };

    ghost starts = { λ k. R.starts k.rounding };

    ghost ends = { λ k. R.ends k.rounding };

    ghost monotone = { λ k. R.monotone k.rounding };

    ghost units = { λ k. R.units k.rounding };

    fn between(&self, u: i64, v: i64, a: i64, b: i64) -> i64 {
        self.rounding.between(u, v, a, b)
    }

    fn settle(&self, fine: i64) -> i32 {
        self.rounding.settle(fine)
    }
}

impl<R: Rounding> Rules for Exact<R> {
    ghost rule_of = { λ k. exact };

    ghost lawful = { λ k. exact_rule (R.between_of k.rounding) (record { within = R.within k.rounding }) };

    fn is_beyond(&self, p: &Corner, q: &Corner) -> bool {
        heights::is_beyond(p, q)
    }

    fn is_over_edge_at(
        &self,
        edge: Edge,
        vertex: &Corner,
        left: &Corner,
        right: &Corner,
        spot: &Spot,
    ) -> bool {
        heights::is_over_edge(edge, vertex, left, right)
    }

    fn is_over_edges_at(&self, p: &[Corner; 2], q: &[Corner; 2], spot: &Spot) -> bool {
        normals::is_edge_over_edge(p, q)
    }

    fn is_over_face_at(&self, of: Edge, vertex: &Corner, face: &[Corner; 3], spot: &Spot) -> bool {
        normals::is_over_face(of, vertex, face)
    }
}

impl<R: Rounding> Sights for Exact<R> {
    fn is_over_edge(&self, edge: Edge, vertex: &Corner, left: &Corner, right: &Corner) -> bool {
        heights::is_over_edge(edge, vertex, left, right)
    }

    fn is_over_edges(&self, p: &[Corner; 2], q: &[Corner; 2]) -> bool {
        normals::is_edge_over_edge(p, q)
    }

    fn is_over_face(&self, of: Edge, vertex: &Corner, face: &[Corner; 3]) -> bool {
        normals::is_over_face(of, vertex, face)
    }
}

impl<R: Rounding> Meets<1, 1> for Exact<R> {
    ghost meet_of = { λ k. vertex_vertex exact };

    ghost laws = { λ k. laws00 (exact_rule (R.between_of k.rounding) (record { within = R.within k.rounding })) };

    fn meet(&self, p: &[Corner; 1], q: &[Corner; 1]) -> Option<Meet>
        ensures value { result ≡ vertex_vertex exact p.now q.now }
        ensures one { count_of result ≡ pos 1 }
    {
        let [x, y, z] = p[0].at;
        Some(Meet {
            count: 1,
            above: heights::is_beyond(&p[0], &q[0]),
            spot: Spot {
                x,
                py: y,
                qy: q[0].at[1],
                pz: z,
                qz: q[0].at[2],
                up: p[0].up,
            },
        })
    }
}

impl<R: Rounding> Meets<1, 2> for Exact<R> {
    ghost meet_of = { λ k. vertex_edge exact (R.between_of k.rounding) };

    ghost laws = { λ k. laws01 (exact_rule (R.between_of k.rounding) (record { within = R.within k.rounding })) };

    fn meet(&self, p: &[Corner; 1], q: &[Corner; 2]) -> Option<Meet> {
        end_meet(self, Edge::OfQ, &p[0], &q[0], &q[1])
    }
}

impl<R: Rounding> Meets<2, 1> for Exact<R> {
    ghost meet_of = { λ k. edge_vertex exact (R.between_of k.rounding) };

    ghost laws = { λ k. laws10 (exact_rule (R.between_of k.rounding) (record { within = R.within k.rounding })) };

    fn meet(&self, p: &[Corner; 2], q: &[Corner; 1]) -> Option<Meet> {
        end_meet(self, Edge::OfP, &q[0], &p[0], &p[1])
    }
}

impl<R: Rounding> Meets<2, 2> for Exact<R> {
    ghost meet_of = { λ k. edge_edge exact (R.between_of k.rounding) };

    ghost laws = { λ k. laws11 (exact_rule (R.between_of k.rounding) (record { within = R.within k.rounding })) };

    fn meet(&self, p: &[Corner; 2], q: &[Corner; 2]) -> Option<Meet> {
        edges_meet(self, p, q)
    }
}

impl<R: Rounding> Meets<1, 3> for Exact<R> {
    ghost meet_of = { λ k. vertex_face exact (R.between_of k.rounding) };

    ghost laws = { λ k. laws02 (exact_rule (R.between_of k.rounding) (record { within = R.within k.rounding })) };

    fn meet(&self, p: &[Corner; 1], q: &[Corner; 3]) -> Option<Meet> {
        face_meet(self, Edge::OfQ, &p[0], q)
    }
}

impl<R: Rounding> Meets<3, 1> for Exact<R> {
    ghost meet_of = { λ k. face_vertex exact (R.between_of k.rounding) };

    ghost laws = { λ k. laws20 (exact_rule (R.between_of k.rounding) (record { within = R.within k.rounding })) };

    fn meet(&self, p: &[Corner; 3], q: &[Corner; 1]) -> Option<Meet> {
        face_meet(self, Edge::OfP, &q[0], p)
    }
}

impl<R: Rounding> Flats for Exact<R> {
    ghost lift_01 = { λ k p c d a b. lift01 exact (R.between_of k.rounding) p c d };

    ghost lift_10 = { λ k c d q a b. lift10 exact (R.between_of k.rounding) c d q };

    ghost lift_11 = { λ k a b c d s t. lift11 exact (R.between_of k.rounding) a b c d };
}

impl<R: Rounding> Crosses<2, 3> for Exact<R> {
    ghost crossing_of = { λ k. edge_face_crossing exact (R.between_of k.rounding) (R.settle_of k.rounding) };

    ghost laws = { λ k. edge_face_laws (exact_rule (R.between_of k.rounding) (record { within = R.within k.rounding }))
        (R.settle_of k.rounding) (record { monotone = R.monotone k.rounding; units = R.units k.rounding }) };

    /// The crossing of an edge of P and a face of Q, whose number is -1, 0 or 1.
    fn cross(&self, p: &[Corner; 2], q: &[Corner; 3]) -> Option<Cross>
        requires p_fine { AllFine p.now }
        requires q_fine { AllFine q.now }
        ensures value { result ≡ edge_face_crossing exact (R.between_of self.now.rounding) (R.settle_of self.now.rounding) p.now q.now }
        ensures once { (negsuc 0 ≤ℤ number_of result) × (number_of result ≤ℤ pos 1) }
    {
        crossing(self, Edge::OfP, p, q)
    }
}

impl<R: Rounding> Crosses<3, 2> for Exact<R> {
    ghost crossing_of = { λ k. face_edge_crossing exact (R.between_of k.rounding) (R.settle_of k.rounding) };

    ghost laws = { λ k. face_edge_laws (exact_rule (R.between_of k.rounding) (record { within = R.within k.rounding }))
        (R.settle_of k.rounding) (record { monotone = R.monotone k.rounding; units = R.units k.rounding }) };

    /// The crossing of a face of P and an edge of Q, whose number is -1, 0 or 1.
    fn cross(&self, p: &[Corner; 3], q: &[Corner; 2]) -> Option<Cross>
        requires p_fine { AllFine p.now }
        requires q_fine { AllFine q.now }
        ensures value { result ≡ face_edge_crossing exact (R.between_of self.now.rounding) (R.settle_of self.now.rounding) p.now q.now }
        ensures once { (negsuc 0 ≤ℤ number_of result) × (number_of result ≤ℤ pos 1) }
    {
        crossing(self, Edge::OfQ, q, p)
    }
}

impl<R: Rounding> Kernels for Exact<R> {
    ghost lift_vertex_face = { λ k p u v w a b. lift02 exact (R.between_of k.rounding) p u v w };

    ghost lift_face_vertex = { λ k u v w q a b. lift20 exact (R.between_of k.rounding) u v w q };

    ghost lift_12 = { λ k a b u v w s t. lift (vertex_face exact (R.between_of k.rounding)) (edge_edge exact (R.between_of k.rounding))
        (p_point (R.between_of k.rounding) (R.settle_of k.rounding)) a b u v w };

    ghost lift_21 = { λ k u v w c d s t. lift (mirror (face_vertex exact (R.between_of k.rounding))) (mirror (edge_edge exact (R.between_of k.rounding)))
        (q_point (R.between_of k.rounding) (R.settle_of k.rounding)) c d u v w };
}
