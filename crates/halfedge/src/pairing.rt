// Twins, bucket by bucket.
//
// A mesh is checked by its half-edges in buckets: by the lesser end of each, modulo one more than the number of
// triangles, so that there always is a bucket and the memory does not depend on the vertex numbers. A half-edge runs
// up where it ends at a greater vertex than it starts from, else down. In each bucket those that run up are sorted,
// and those that run down are turned and sorted. Where the two lists run the same way place by place, the half-edges
// at one place are twins. Where in some bucket they do not, the mesh is open: then all half-edges are sorted, and all
// turned ones, and one walk along both finds the least open edge. Each point of a soup is in a triangle, so at most
// three points share a bucket, and the time is linear where each vertex has few triangles; where one vertex is the
// lesser end of very many half-edges, sorting these takes longer. Short lists have no way of their own: all are
// sorted by comparing.
ghost use Rattle.std.specs.Prelude.{◌≡◌, ◌<◌, ◌≤◌, ◌↔◌, ◌+◌, ◌%◌, ℕ, List, IfOk, IsNone, IfSome, IsSorted, IsTrue, length, map};
ghost use Rattle.std.specs.List.{All};
ghost use Rattle.chain_terms.specs.Chains.{all_edges, IsClosed};
ghost use Rattle.chain_terms.specs.Sums.{upto};
ghost use Rattle.chain_terms.specs.Ranks.{twin};
ghost use Rattle.mesh_terms.specs.Limits.{most_triangles};
ghost use Rattle.mesh_terms.specs.Meshes.{HasThree, triples_of};
ghost use Rattle.places_by_key.specs.Buckets.{places_of};
ghost use Rattle.halfedge.specs.Laws.{AreSingle};
ghost use Rattle.halfedge.specs.Pairing.{ends_of};
ghost use Rattle.halfedge.specs.Ways.{bucket_of, ArePaired, ArePartners, AreWritten};

use crate::ways::{Half, bucket_numbers, ways};
use mb_base::NoMemory;
use places_by_key::Buckets;
use std::alloc::Global;

/// The twin of each half-edge, and whether no two run the same way; none where the triangles are not
/// closed. The half-edges lie in buckets by their lesser ends, modulo the number of buckets, which is
/// one more than that of the triangles, so that there always is one. In each bucket those that run up,
/// sorted, must run as those that run down, turned and sorted: so the k-th from a to b stands beside
/// the k-th from b to a.
pub fn paired(alloc: Global, triples: &[[u32; 3]]) -> Result<Option<(Vec<u32>, bool)>, NoMemory>
    requires few { length triples.now ≤ most_triangles }
    requires three { All HasThree (triples_of triples.now) }
    ensures none { IfOk result (λ r. IsNone r → IsClosed (all_edges (triples_of triples.now)) → ⊥) }
    ensures closed { IfOk result (λ r. IfSome r (λ _. IsClosed (all_edges (triples_of triples.now)))) }
    ensures twins { IfOk result (λ r. IfSome r (λ p. p.0.items ≡
        map (twin (all_edges (triples_of triples.now))) (upto (length (all_edges (triples_of triples.now)))))) }
    ensures single { IfOk result (λ r. IfSome r (λ p. IsTrue p.1 ↔ AreSingle (all_edges (triples_of triples.now)))) }
{
    let count = triples.len() as u32 + 1;
    let numbers = bucket_numbers(alloc, triples, count)?;
    let buckets = Buckets::by_key(alloc, &numbers, count as usize)?;
    // The bucket numbers are no longer needed; each is written over by a twin.
    let mut twins = numbers;
    match pair_buckets(alloc, triples, &buckets, &mut twins)? {
        Some(single) => Ok(Some((twins, single))),
        None => Ok(None),
    }
}

// Pairs the half-edges of each bucket, and says whether no two run the same way; none where those of some bucket run more
// often one way than back.
fn pair_buckets(
    alloc: Global,
    triples: &[[u32; 3]],
    buckets: &Buckets,
    twins: &mut [u32],
) -> Result<Option<bool>, NoMemory>
    requires few { length triples.now ≤ most_triangles }
    requires gathered { buckets.now ≡
        map (places_of (map (bucket_of (length triples.now + 1)) (all_edges (triples_of triples.now)))) (upto (length triples.now + 1)) }
    requires full { length twins.old ≡ length (all_edges (triples_of triples.now)) }
    ensures none { IfOk result (λ r. IsNone r → IsClosed (all_edges (triples_of triples.now)) → ⊥) }
    ensures paired { IfOk result (λ r. IfSome r (λ single.
        ArePaired (all_edges (triples_of triples.now)) (λ a. a % (length triples.now + 1)) (length triples.now + 1) twins.new single)) }
{
    let mut lists = (Vec::new(alloc), Vec::new(alloc));
    let mut single = true;
    for k in 0..triples.len() + 1 {
        let (ups, downs) = ways(triples, buckets.bucket(k), lists)?;
        match pair_ways(&ups, &downs, twins) {
            Some(alone) => single &= alone,
            None => return Ok(None),
        }
        lists = (ups, downs);
    }
    Ok(Some(single))
}

// Makes the half-edges at each place of the two lists each other's twins, and says whether no two run the same way; none
// where the lists do not run the same way, place by place.
fn pair_ways(ups: &[Half], downs: &[Half], twins: &mut [u32]) -> Option<bool>
    requires sorted { IsSorted ⟦<(u32, u32, u32) as Ord>⟧.cmp ups.now }
    requires ups_within { All (λ e. e.2 < length twins.old) ups.now }
    requires downs_within { All (λ e. e.2 < length twins.old) downs.now }
    ensures none { IsNone result → (ends_of ups.now ≡ ends_of downs.now) → ⊥ }
    ensures same { IfSome result (λ _. ends_of ups.now ≡ ends_of downs.now) }
    ensures length { length twins.new ≡ length twins.old }
    ensures written { IfSome result (λ _. (partner : ℕ → ℕ) →
        ArePartners partner ups.now downs.now → AreWritten partner ups.now downs.now twins.old twins.new) }
    ensures single { IfSome result (λ alone. IsTrue alone ↔ AreSingle (ends_of ups.now)) }
{
    if !run_alike(ups, downs) {
        return None;
    }
    pair_up(ups, downs, twins);
    Some(are_single(ups))
}

// Whether both lists run the same way, place by place.
fn run_alike(ups: &[Half], downs: &[Half]) -> bool
    ensures { IsTrue result ↔ (ends_of ups.now ≡ ends_of downs.now) }
{
    if ups.len() != downs.len() {
        return false;
    }
    for i in 0..ups.len() {
        if (ups[i].0, ups[i].1) != (downs[i].0, downs[i].1) {
            return false;
        }
    }
    true
}

// Makes the half-edges at each place of the two lists each other's twins.
fn pair_up(ups: &[Half], downs: &[Half], twins: &mut [u32])
    requires same_length { length downs.now ≡ length ups.now }
    requires ups_within { All (λ e. e.2 < length twins.old) ups.now }
    requires downs_within { All (λ e. e.2 < length twins.old) downs.now }
    ensures length { length twins.new ≡ length twins.old }
    ensures written { (partner : ℕ → ℕ) → ArePartners partner ups.now downs.now → AreWritten partner ups.now downs.now twins.old twins.new }
{
    for i in 0..ups.len() {
        let (_, _, up) = ups[i];
        let (_, _, down) = downs[i];
        twins[up as usize] = down;
        twins[down as usize] = up;
    }
}

// Whether no two half-edges of the sorted list run the same way.
fn are_single(edges: &[Half]) -> bool
    requires { IsSorted ⟦<(u32, u32, u32) as Ord>⟧.cmp edges.now }
    ensures { IsTrue result ↔ AreSingle (ends_of edges.now) }
{
    for i in 1..edges.len() {
        if (edges[i - 1].0, edges[i - 1].1) == (edges[i].0, edges[i].1) {
            return false;
        }
    }
    true
}
