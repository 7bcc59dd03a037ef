// Triangles that cancel: on the same three vertices, the k-th of one orientation with the k-th of the
// other.
ghost use Rattle.std.specs.Prelude.{◌≡◌, ◌<◌, ◌≤◌, ◌+◌, ℕ, List, IfOk, length};
ghost use Rattle.std.specs.List.{All};
ghost use Rattle.halfedge.specs.Ways.{EndsDiffer, AreWays};
ghost use Rattle.mesh_terms.specs.Limits.{most_triangles};
ghost use Rattle.mesh_terms.specs.Meshes.{triples_of};
ghost use Rattle.mesh_check.specs.Cancelling.{halves_of, AreMarked};
ghost use Rattle.mesh_check.specs.Orientations.{IsTriangle};
ghost use Rattle.mesh_check.specs.Reduced.{kept_marks};

use crate::oriented::Oriented;
use crate::oriented_ways::{bucket_numbers, oriented_ways};
use mb_base::NoMemory;
use places_by_key::Buckets;
use std::alloc::Global;
use std::cmp::Ordering;

/// For each triangle whether it stays when, for each three vertices, the k-th of one orientation goes
/// with the k-th of the other. The triangles lie in buckets by their least vertices, modulo the number
/// of buckets, which is one more than that of the triangles, so that there always is one; so all on the
/// same three vertices lie in one bucket. In each the two orientations make two lists, which are sorted
/// and read side by side.
pub fn uncancelled(alloc: Global, triples: &[[u32; 3]]) -> Result<Vec<bool>, NoMemory>
    requires few { length triples.now ≤ most_triangles }
    requires triangles { All IsTriangle (triples_of triples.now) }
    ensures { IfOk result (λ marks. marks.items ≡ kept_marks (triples_of triples.now)) }
{
    let count = triples.len() as u32 + 1;
    let numbers = bucket_numbers(alloc, triples, count)?;
    let buckets = Buckets::by_key(alloc, &numbers, count as usize)?;
    // True for each triangle that is left over.
    let mut left = vec![in alloc; true; triples.len()]?;
    let mut lists = (Vec::new(alloc), Vec::new(alloc));
    for k in 0..count as usize {
        let (ones, others) = oriented_ways(triples, buckets.bucket(k), lists)?;
        left = cancel(&ones, &others, left);
        lists = (ones, others);
    }
    Ok(left)
}

// Takes away the marks of the triangles that cancel: of the two ways of a bucket, both sorted, the
// k-th with some vertices in the one cancels with the k-th with the same vertices in the other.
fn cancel(ones: &[Oriented], others: &[Oriented], mut left: Vec<bool>) -> Vec<bool>
    requires ones { All (λ o. o.place < length left.items) ones.now }
    requires others { All (λ o. o.place < length left.items) others.now }
    ensures { (es : List (ℕ × ℕ)) (key : ℕ → ℕ) (k : ℕ) → AreWays es key k (halves_of ones.now) (halves_of others.now) →
        EndsDiffer es → AreMarked es key k left.items → AreMarked es key (k + 1) result.items }
{
    let mut i = 0;
    let mut j = 0;
    while i < ones.len() && j < others.len() {
        match others[j].vertices().cmp(&ones[i].vertices()) {
            Ordering::Less => j += 1,
            Ordering::Equal => {
                left[ones[i].place as usize] = false;
                left[others[j].place as usize] = false;
                i += 1;
                j += 1;
            }
            Ordering::Greater => i += 1,
        }
    }
    left
}
