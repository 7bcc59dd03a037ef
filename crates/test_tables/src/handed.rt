// Numbers that are handed in: whether they are of two sides.
ghost use Rattle.std.specs.Prelude.{◌≡◌, ◌<◌, ◌≤◌, ◌*◌, IsTrue, length, nat_abs};
ghost use Rattle.std.specs.List.{All};
ghost use Rattle.chain_terms.specs.Chains.{all_edges};
ghost use Rattle.chain_terms.specs.Ranks.{twin};
ghost use Rattle.mesh_terms.specs.Limits.{most_triangles};
ghost use Rattle.side_terms.specs.Hits.{AreHits, IsBefore, IsNumber};

use lean::Side;
use mb_base::Hit;

/// Whether there is a small number for each corner.
pub fn are_windings(side: &Side, windings: &[i64]) -> bool
    ensures length { IsTrue result → length windings.now ≡ length side.now.corners }
    ensures small { IsTrue result → All (λ w. nat_abs w ≤ most_triangles) windings.now }
{
    windings.len() == side.corners().len()
        && windings.iter().all(|w| w.unsigned_abs() <= 100_000_000)
}

/// Whether the hits are those of edges and faces of two sides, in order.
pub fn are_hits(edges: &Side, faces: &Side, hits: &[Hit]) -> bool
    ensures { IsTrue result → AreHits (all_edges edges.now.triples) (length faces.now.triples) hits.now }
{
    for (i, hit) in hits.iter().enumerate() {
        if !is_hit(edges, faces, hit) || !follows(&hits[..i], hit) {
            return false;
        }
    }
    true
}

// Whether the hit is of a lower half-edge and a face, with a number from -2 to 2.
fn is_hit(edges: &Side, faces: &Side, hit: &Hit) -> bool
    ensures inside { IsTrue result → hit.now.edge < length (all_edges edges.now.triples) }
    ensures lower { IsTrue result → hit.now.edge < twin (all_edges edges.now.triples) hit.now.edge }
    ensures face { IsTrue result → hit.now.face < length faces.now.triples }
    ensures number { IsTrue result → IsNumber hit.now.number }
{
    let inside = (hit.edge as usize) < 3 * edges.triples().len();
    inside
        && hit.edge < edges.twins().twin(hit.edge)
        && (hit.face as usize) < faces.triples().len()
        && -2 <= hit.number
        && hit.number <= 2
}

// Whether the hit comes after all of these.
fn follows(before: &[Hit], hit: &Hit) -> bool
    ensures { IsTrue result → All (λ h. IsBefore h hit.now) before.now }
{
    before.iter().all(|h| { h.edge < hit.edge || h.edge == hit.edge && h.face < hit.face })
}
