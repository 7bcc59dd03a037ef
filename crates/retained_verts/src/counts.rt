// How many vertices, crossings and half-edges are prescribed.
ghost use Rattle.std.specs.Prelude.{◌≡◌, ◌≤◌, ◌<◌, ◌+◌, ◌*◌, ◌^◌, ◌∷◌, [], length, pos, nat_abs, get_or};
ghost use Rattle.std.specs.List.{All};
ghost use Rattle.side_terms.specs.Prescribed.{crossing_count, hit_count, p_kept, q_kept, prescribed_halfedges, vertex_count, vertex_halfedges};
ghost use Rattle.mesh_terms.specs.Limits.{most_points, most_triangles};
ghost use Rattle.mesh_terms.specs.Meshes.{HasThree, IsBelow, triples_of};
ghost use Rattle.retained_verts.specs.Handed.{FitSides, numbers};
ghost use Rattle.retained_verts.specs.Parts.{vertex_number};
ghost use Rattle.retained_verts.specs.Small.{AreSmallWindings, most_hits};
ghost use Rattle.side_terms.specs.Hits.{IsNumber};

use crate::operand::{Operand, hit_number};
use lean::Side;
use mb_base::{Hit, Hits, Op, Windings};

/// How many vertices are prescribed of each mesh, how many are crossings, and the half-edges at all of them.
#[derive(Clone, Copy, Drop)]
pub struct Counts {
    pub kept: [u64; 2],
    pub crossings: u64,
    pub halfedges: u64,
}

/// The counts of what is prescribed. It takes no memory.
pub fn count(op: Op, p: &Side, q: &Side, windings: &Windings, hits: &Hits) -> Counts
    requires fit { FitSides p.now q.now windings.now hits.now }
    ensures kept { result.kept ≡ p_kept op (numbers windings.now hits.now) ∷ q_kept op (numbers windings.now hits.now) ∷ [] }
    ensures crossings { result.crossings ≡ crossing_count op (numbers windings.now hits.now) }
    ensures halfedges { result.halfedges ≡ prescribed_halfedges op p.now q.now (numbers windings.now hits.now) }
    ensures p_few { p_kept op (numbers windings.now hits.now) ≤ 100000001 * most_points }
    ensures q_few { q_kept op (numbers windings.now hits.now) ≤ 100000001 * most_points }
    ensures crossings_few { crossing_count op (numbers windings.now hits.now) ≤ 4 * most_hits }
{
    let p_triples = p.triples();
    let q_triples = q.triples();
    let p_kept = vertex_count(op, Operand::P, &windings.w03);
    let q_kept = vertex_count(op, Operand::Q, &windings.w30);
    let crossings = hit_count(op, &hits.x12) + hit_count(op, &hits.x21);
    let p_halfedges = halfedges(op, Operand::P, &windings.w03, p_triples);
    let q_halfedges = halfedges(op, Operand::Q, &windings.w30, q_triples);
    Counts {
        kept: [p_kept, q_kept],
        crossings,
        halfedges: p_halfedges + q_halfedges + 3 * crossings,
    }
}

// How many vertices of a mesh are prescribed.
fn vertex_count(op: Op, operand: Operand, windings: &[i64]) -> u64
    requires small { AreSmallWindings windings.now }
    requires few { length windings.now ≤ most_points }
    ensures value { result ≡ vertex_count (vertex_number op operand) windings.now }
    ensures small { result ≤ 100000001 * most_points }
{
    let mut count = 0;
    for winding in windings {
        count += operand.number(op, *winding).unsigned_abs();
    }
    count
}

// How many vertices are crossings of one mesh's edges.
fn hit_count(op: Op, hits: &[Hit]) -> u64
    requires numbers { All (λ h. IsNumber h.number) hits.now }
    requires few { length hits.now ≤ most_hits }
    ensures value { result ≡ hit_count op hits.now }
    ensures small { result ≤ 2 * most_hits }
{
    let mut count = 0;
    for hit in hits {
        count += hit_number(op, hit.number).unsigned_abs();
    }
    count
}

// The half-edges at the prescribed vertices of a mesh.
fn halfedges(op: Op, operand: Operand, windings: &[i64], triples: &[[u32; 3]]) -> u64
    requires small { AreSmallWindings windings.now }
    requires below { All (IsBelow (length windings.now)) (triples_of triples.now) }
    requires three { All HasThree (triples_of triples.now) }
    requires few { length triples.now ≤ most_triangles }
    ensures value { result ≡ vertex_halfedges (vertex_number op operand) windings.now (triples_of triples.now) }
    ensures small { result ≤ 300000003 * most_triangles }
{
    let mut halfedges = 0;
    for [a, b, c] in triples {
        halfedges += count_at(op, operand, windings, *a)
            + count_at(op, operand, windings, *b)
            + count_at(op, operand, windings, *c);
    }
    halfedges
}

// How often a vertex is prescribed.
fn count_at(op: Op, operand: Operand, windings: &[i64], vertex: u32) -> u64
    requires small { AreSmallWindings windings.now }
    requires below { vertex < length windings.now }
    ensures value { result ≡ nat_abs (vertex_number op operand (get_or windings.now vertex (pos 0))) }
    ensures small { result ≤ 100000001 }
{
    operand.number(op, windings[vertex as usize]).unsigned_abs()
}
