// Triangles that are copies of a face.
ghost use Rattle.std.specs.Prelude.{◌≡◌, ◌<◌, ◌≤◌, true, IsTrue, length, get_or, map};
ghost use Rattle.chain_terms.specs.Sums.{upto};
ghost use Rattle.source_faces.specs.ListParts.{AreRuns};
ghost use Rattle.mesh_terms.specs.Limits.{most_points};
ghost use Rattle.mesh_terms.specs.Meshes.{triples_of};
ghost use Rattle.source_faces.specs.Adding.{are_equal_runs, copy_triple, face_copies};

use lean::Surface;
use source_faces::{CopyRange, are_equal, copy_triple};

/// Whether the vertices of a face are prescribed one number of times, and triangles are just its copies, in their order.
pub fn are_copies(side: &Surface, runs: &[CopyRange], face: u32, part: &[[u32; 3]]) -> bool
    requires face { face < length side.now.triples }
    requires runs { AreRuns side.now most_points runs.now }
    ensures equal { IsTrue result → are_equal_runs runs.now (get_or side.now.triples face (0, 0, 0)) ≡ true }
    ensures copies { IsTrue result → triples_of part.now ≡ (face_copies side.now runs.now face).triples }
{
    let triple = side.triples()[face as usize];
    if !are_equal(runs, triple) {
        return false;
    }
    let [a, b, c] = triple;
    let (a, b, c) = (runs[a as usize], runs[b as usize], runs[c as usize]);
    if part.len() != a.count as usize {
        return false;
    }
    are_numbered(a, b, c, part)
}

// Whether each triangle has the copies of three vertices with its number.
fn are_numbered(a: CopyRange, b: CopyRange, c: CopyRange, part: &[[u32; 3]]) -> bool
    requires a { a.first ≤ most_points }
    requires b { b.first ≤ most_points }
    requires c { c.first ≤ most_points }
    requires few { length part.now ≤ most_points }
    ensures { IsTrue result → triples_of part.now ≡ map (copy_triple a b c) (upto (length part.now)) }
{
    for (i, triple) in part.iter().enumerate() {
        if *triple != copy_triple(a, b, c, i as u32) {
            return false;
        }
    }
    true
}
