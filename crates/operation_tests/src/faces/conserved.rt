// Whether numbers that are handed in are conserved: winding numbers change along the half-edges by the numbers of the hits, and
// these agree for each pair of faces.
ghost use Rattle.std.specs.Prelude.{◌≡◌, ◌==◌, ◌&&◌, ◌<◌, ◌+◌, ◌*◌, ◌-ℤ◌, neg_ℤ, pos, cond, ℕ, IfSome, IsTrue, get_or, length};
ghost use Rattle.chain_terms.specs.Chains.{all_edges};
ghost use Rattle.chain_terms.specs.Ranks.{finish, start};
ghost use Rattle.chain_terms.specs.Sums.{total, upto};
ghost use Rattle.retained_verts.specs.Handed.{numbers};
ghost use Rattle.side_terms.specs.Standing.{AreConserved};
ghost use Rattle.side_terms.specs.Conservation.{EdgeIdentity, PairIdentity, half_number, hit_number};

use lean::Side;
use mb_base::{Hit, Hits, Windings};

/// Whether they are, where there is a winding number for each corner.
pub fn are_conserved(p: &Side, q: &Side, windings: &Windings, hits: &Hits) -> bool
    requires w03 { length windings.now.w03.items ≡ length p.now.corners }
    requires w30 { length windings.now.w30.items ≡ length q.now.corners }
    ensures { IsTrue result → AreConserved p.now q.now (numbers windings.now hits.now) }
{
    let (p_faces, q_faces) = (p.triples().len() as u32, q.triples().len() as u32);
    edges_agree(p, &windings.w03, &hits.x12, q_faces)
        && edges_agree(q, &windings.w30, &hits.x21, p_faces)
        && pairs_agree(p, q, &hits.x12, &hits.x21)
}

// The number that hits give an edge with a face, unless a sum leaves an i64.
fn hit_number(hits: &[Hit], edge: u32, face: u32) -> Option<i64>
    ensures { IfSome result (λ n. n ≡ hit_number hits.now edge face) }
{
    let mut sum: i64 = 0;
    for (i, hit) in hits.iter().enumerate() {
        sum = sum.checked_add(number_in(hit, edge, face))?;
    }
    Some(sum)
}

// What one hit gives them.
fn number_in(hit: &Hit, edge: u32, face: u32) -> i64
    ensures { result ≡ cond ((hit.now.edge == edge) && (hit.now.face == face)) hit.now.number (pos 0) }
{
    if hit.edge == edge && hit.face == face {
        hit.number as i64
    } else {
        0
    }
}

// That of a half-edge.
fn half_number(side: &Side, hits: &[Hit], half: u32, face: u32) -> Option<i64>
    requires { half < 3 * length side.now.triples }
    ensures { IfSome result (λ n. n ≡ half_number (all_edges side.now.triples) hits.now half face) }
{
    let twin = side.twins().twin(half);
    if half < twin {
        return hit_number(hits, half, face);
    }
    hit_number(hits, twin, face)?.checked_neg()
}

// Those of a half-edge with all faces, added up.
fn sum_over_faces(side: &Side, hits: &[Hit], half: u32, faces: u32) -> Option<i64>
    requires { half < 3 * length side.now.triples }
    ensures { IfSome result (λ n. n ≡ total (half_number (all_edges side.now.triples) hits.now half) (upto faces)) }
{
    let mut sum: i64 = 0;
    for face in 0..faces {
        sum = sum.checked_add(half_number(side, hits, half, face)?)?;
    }
    Some(sum)
}

// Whether the winding number changes along a half-edge by those.
fn edge_agrees(side: &Side, windings: &[i64], hits: &[Hit], half: u32, faces: u32) -> bool
    requires half { half < 3 * length side.now.triples }
    requires windings { length windings.now ≡ length side.now.corners }
    ensures { IsTrue result →
        (get_or windings.now (finish (all_edges side.now.triples) half) (pos 0) -ℤ get_or windings.now (start (all_edges side.now.triples) half) (pos 0))
        ≡ neg_ℤ (total (half_number (all_edges side.now.triples) hits.now half) (upto faces)) }
{
    let from = windings[side.start(half) as usize];
    let to = windings[side.start(side.twins().next(half)) as usize];
    match sum_over_faces(side, hits, half, faces) {
        Some(sum) => changes_by(from, to, sum),
        None => false,
    }
}

// Whether the second number and the sum make the first.
fn changes_by(from: i64, to: i64, sum: i64) -> bool
    ensures { IsTrue result → (to -ℤ from) ≡ neg_ℤ sum }
{
    match to.checked_add(sum) {
        Some(end) => end == from,
        None => false,
    }
}

// Whether it does along each half-edge.
fn edges_agree(side: &Side, windings: &[i64], hits: &[Hit], faces: u32) -> bool
    requires { length windings.now ≡ length side.now.corners }
    ensures { IsTrue result → EdgeIdentity (all_edges side.now.triples) faces
        (λ v. get_or windings.now v (pos 0)) (half_number (all_edges side.now.triples) hits.now) }
{
    for half in 0..3 * side.triples().len() as u32 {
        if !edge_agrees(side, windings, hits, half, faces) {
            return false;
        }
    }
    true
}

// The numbers of the half-edges of a face with another side's face, added up.
fn pair_number(side: &Side, hits: &[Hit], face: u32, other: u32) -> Option<i64>
    requires { face < length side.now.triples }
    ensures { IfSome result (λ n. n ≡ total (λ i. half_number (all_edges side.now.triples) hits.now (3 * face + i) other) (upto 3)) }
{
    let _ = side.triples();
    let mut sum: i64 = 0;
    for i in 0..3 {
        sum = sum.checked_add(half_number(side, hits, 3 * face + i, other)?)?;
    }
    Some(sum)
}

// Whether the two faces of a pair have the same.
fn pair_agrees(p: &Side, q: &Side, x12: &[Hit], x21: &[Hit], f: u32, g: u32) -> bool
    requires f { f < length p.now.triples }
    requires g { g < length q.now.triples }
    ensures { IsTrue result → total (λ i. half_number (all_edges p.now.triples) x12.now (3 * f + i) g) (upto 3) ≡
        total (λ i. half_number (all_edges q.now.triples) x21.now (3 * g + i) f) (upto 3) }
{
    match (pair_number(p, x12, f, g), pair_number(q, x21, g, f)) {
        (Some(one), Some(other)) => one == other,
        _ => false,
    }
}

// Whether those of a face of the first side have, with each of the second's.
fn row_agrees(p: &Side, q: &Side, x12: &[Hit], x21: &[Hit], f: u32) -> bool
    requires { f < length p.now.triples }
    ensures { IsTrue result → ((g : ℕ) → g < length q.now.triples →
        total (λ i. half_number (all_edges p.now.triples) x12.now (3 * f + i) g) (upto 3)
        ≡ total (λ i. half_number (all_edges q.now.triples) x21.now (3 * g + i) f) (upto 3)) }
{
    for g in 0..q.triples().len() as u32 {
        if !pair_agrees(p, q, x12, x21, f, g) {
            return false;
        }
    }
    true
}

// Whether all pairs of faces have.
fn pairs_agree(p: &Side, q: &Side, x12: &[Hit], x21: &[Hit]) -> bool
    ensures { IsTrue result → PairIdentity (length p.now.triples) (length q.now.triples)
        (half_number (all_edges p.now.triples) x12.now) (half_number (all_edges q.now.triples) x21.now) }
{
    for f in 0..p.triples().len() as u32 {
        if !row_agrees(p, q, x12, x21, f) {
            return false;
        }
    }
    true
}
