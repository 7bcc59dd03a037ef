// Half-edges in buckets by their lesser ends, and the two ways of a bucket: what runs up, from a
// lesser vertex to a greater one, and what runs down.
ghost use Rattle.std.specs.Prelude.{◌≡◌, ◌<◌, ◌≤◌, ◌*◌, List, IfOk, length, map};
ghost use Rattle.std.specs.List.{All, filter};
ghost use Rattle.chain_terms.specs.Chains.{all_edges};
ghost use Rattle.chain_terms.specs.Ranks.{start, finish};
ghost use Rattle.mesh_terms.specs.Limits.{most_triangles};
ghost use Rattle.mesh_terms.specs.Meshes.{triples_of};
ghost use Rattle.halfedge.specs.Pairing.{turned, IsSortOf};
ghost use Rattle.halfedge.specs.Ways.{half_of, bucket_of, lesser_end, runs_up};

use mb_base::NoMemory;
use std::alloc::Global;

/// A half-edge: where it starts, where it ends, and its number. In a list of turned half-edges the
/// end stands first and then the start.
pub type Half = (u32, u32, u32);

/// What runs up, and what runs down, turned.
pub type Ways = (Vec<Half>, Vec<Half>);

/// The bucket of each half-edge: its lesser end, modulo the number of buckets.
pub fn bucket_numbers(alloc: Global, triples: &[[u32; 3]], count: u32) -> Result<Vec<u32>, NoMemory>
    requires few { length triples.now ≤ most_triangles }
    requires some { 0 < count }
    ensures { IfOk result (λ numbers. numbers.items ≡ map (bucket_of count) (all_edges (triples_of triples.now))) }
{
    let mut numbers = Vec::with_capacity(alloc, 3 * triples.len())?;
    for [a, b, c] in triples {
        numbers.push(bucket_number(*a, *b, count))?;
        numbers.push(bucket_number(*b, *c, count))?;
        numbers.push(bucket_number(*c, *a, count))?;
    }
    Ok(numbers)
}

// The bucket of the half-edge from a to b. It divides only where it must, which takes less time.
fn bucket_number(a: u32, b: u32, count: u32) -> u32
    requires { 0 < count }
    ensures { result ≡ bucket_of count (a, b) }
{
    let lesser = lesser_end(a, b);
    if lesser < count {
        lesser
    } else {
        lesser % count
    }
}

// The lesser end of the half-edge from a to b.
fn lesser_end(a: u32, b: u32) -> u32
    ensures { result ≡ lesser_end (a, b) }
{
    if a < b { a } else { b }
}

/// Of the half-edges of a bucket, given by their numbers, those that run up, each as its start, its end
/// and its number, sorted; and those that run down, each as its end, its start and its number, sorted.
/// The given lists are emptied and filled again, so that their memory serves all buckets.
pub fn ways(triples: &[[u32; 3]], bucket: &[u32], lists: Ways) -> Result<Ways, NoMemory>
    requires few { length triples.now ≤ most_triangles }
    requires within { All (λ h. h < 3 * length triples.now) bucket.now }
    ensures ups { IfOk result (λ r. IsSortOf (filter runs_up (map (half_of (all_edges (triples_of triples.now))) bucket.now)) r.0.items) }
    ensures downs { IfOk result (λ r. IsSortOf (filter runs_up (map turned (map (half_of (all_edges (triples_of triples.now))) bucket.now))) r.1.items) }
{
    let (mut ups, mut downs) = split(triples, bucket, lists)?;
    ups.sort_unstable();
    downs.sort_unstable();
    Ok((ups, downs))
}

// The same two lists, not sorted: each in the order of the bucket.
fn split(triples: &[[u32; 3]], bucket: &[u32], lists: Ways) -> Result<Ways, NoMemory>
    requires few { length triples.now ≤ most_triangles }
    requires within { All (λ h. h < 3 * length triples.now) bucket.now }
    ensures ups { IfOk result (λ r. r.0.items ≡ filter runs_up (map (half_of (all_edges (triples_of triples.now))) bucket.now)) }
    ensures downs { IfOk result (λ r. r.1.items ≡ filter runs_up (map turned (map (half_of (all_edges (triples_of triples.now))) bucket.now))) }
{
    let (mut ups, mut downs) = lists;
    ups.clear();
    downs.clear();
    for half in bucket {
        let (from, to) = ends(triples, *half);
        if from < to {
            ups.push((from, to, *half))?;
        } else if to < from {
            downs.push((to, from, *half))?;
        }
    }
    Ok((ups, downs))
}

// Where a half-edge starts, and where it ends.
fn ends(triples: &[[u32; 3]], half: u32) -> (u32, u32)
    requires { half < 3 * length triples.now }
    ensures { result ≡ (start (all_edges (triples_of triples.now)) half, finish (all_edges (triples_of triples.now)) half) }
{
    let [a, b, c] = triples[half as usize / 3];
    match half % 3 {
        0 => (a, b),
        1 => (b, c),
        _ => (c, a),
    }
}
