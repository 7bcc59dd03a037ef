// Triangles in buckets by their least vertices, and the two ways of a bucket: read from the least
// vertex on, the triangles whose second vertex is below the third, and the rest, turned over.
ghost use Rattle.std.specs.Prelude.{◌≡◌, ◌<◌, IfOk, length, map};
ghost use Rattle.std.specs.List.{All, filter};
ghost use Rattle.halfedge.specs.Pairing.{turned, IsSortOf};
ghost use Rattle.halfedge.specs.Ways.{half_of, runs_up};
ghost use Rattle.mesh_terms.specs.Meshes.{triples_of};
ghost use Rattle.mesh_check.specs.Cancelling.{vertices_of, halves_of, bucket_of_triple};
ghost use Rattle.mesh_check.specs.Orientations.{orientation_edges, IsNarrow};

use crate::oriented::Oriented;
use mb_base::NoMemory;
use std::alloc::Global;

/// The bucket of each triangle: its least vertex, modulo the number of buckets.
pub fn bucket_numbers(alloc: Global, triples: &[[u32; 3]], count: u32) -> Result<Vec<u32>, NoMemory>
    requires { 0 < count }
    ensures { IfOk result (λ numbers. numbers.items ≡ map (bucket_of_triple count) (triples_of triples.now)) }
{
    let mut numbers = Vec::with_capacity(alloc, triples.len())?;
    for triple in triples {
        // Only the least vertex is asked for, so any place will do.
        numbers.push(Oriented::of(triple, 0).least % count)?;
    }
    Ok(numbers)
}

/// Of the triangles of a bucket, given by their places and each read from its least vertex on: those
/// whose second vertex is below the third, sorted; and those whose third is below the second, turned
/// over, sorted. So opposite triangles have the same vertices in the two lists. The given lists are
/// emptied and filled again, so that their memory serves all buckets.
pub fn oriented_ways(
    triples: &[[u32; 3]],
    bucket: &[u32],
    lists: (Vec<Oriented>, Vec<Oriented>),
) -> Result<(Vec<Oriented>, Vec<Oriented>), NoMemory>
    requires { All (λ place. place < length triples.now) bucket.now }
    ensures ones { IfOk result (λ r. IsSortOf (filter runs_up (map (half_of (orientation_edges (triples_of triples.now))) bucket.now)) (halves_of r.0.items)) }
    ensures others { IfOk result (λ r. IsSortOf
        (filter runs_up (map turned (map (half_of (orientation_edges (triples_of triples.now))) bucket.now))) (halves_of r.1.items)) }
{
    let (mut ones, mut others) = split(triples, bucket, lists)?;
    ones.sort_unstable();
    others.sort_unstable();
    Ok((ones, others))
}

// The same two lists, not sorted: each in the order of the bucket.
fn split(
    triples: &[[u32; 3]],
    bucket: &[u32],
    lists: (Vec<Oriented>, Vec<Oriented>),
) -> Result<(Vec<Oriented>, Vec<Oriented>), NoMemory>
    requires { All (λ place. place < length triples.now) bucket.now }
    ensures ones { IfOk result (λ r. halves_of r.0.items ≡ filter runs_up (map (half_of (orientation_edges (triples_of triples.now))) bucket.now)) }
    ensures others { IfOk result (λ r. halves_of r.1.items ≡
        filter runs_up (map turned (map (half_of (orientation_edges (triples_of triples.now))) bucket.now))) }
    ensures ones_narrow { IfOk result (λ r. All (λ o. IsNarrow (vertices_of o)) r.0.items) }
    ensures others_narrow { IfOk result (λ r. All (λ o. IsNarrow (vertices_of o)) r.1.items) }
{
    let (mut ones, mut others) = lists;
    ones.clear();
    others.clear();
    for place in bucket {
        let one = Oriented::of(&triples[*place as usize], *place);
        if one.second < one.third {
            ones.push(one)?;
        } else if one.third < one.second {
            others.push(one.turned_over())?;
        }
    }
    Ok((ones, others))
}
