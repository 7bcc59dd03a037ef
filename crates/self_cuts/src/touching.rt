// Edges of more than two triangles.
ghost use Rattle.std.specs.Prelude.{◌≡◌, ◌<◌, ◌≤◌, ℕ, IfOk, length, get_or, map};
ghost use Rattle.inspection_terms.specs.Inspected.{touching_count};
ghost use Rattle.inspection_laws.specs.Sharing.{AreFirsts, edges_upto};
ghost use Rattle.mesh_terms.specs.Meshes.{Mesh};
ghost use Rattle.places_by_key.specs.Buckets.{places_of};
ghost use Rattle.chain_terms.specs.Sums.{upto};

use crate::edges::{EdgeEnds, edges};
use crate::uses::met_often;
use mb_base::NoMemory;
use mesh_check::Mesh;
use places_by_key::Buckets;
use std::alloc::Global;

/// How many pairs of places are an edge of more than two triangles that are not flat, where the first point at the place of each
/// point is known. The edges are gathered by their greater ends, and then it is counted how often each lesser end stands there.
pub fn touching(alloc: Global, mesh: &Mesh, firsts: &[u32]) -> Result<u64, NoMemory>
    requires { AreFirsts mesh.now.points firsts.now }
    ensures { IfOk result (λ n. n ≡ touching_count mesh.now) }
{
    // Read so that what the type of the mesh keeps is known here.
    let _ = mesh.triples();
    let points = firsts.len();
    let edges = edges(alloc, mesh, firsts)?;
    let by_high = Buckets::by_key(alloc, &edges.highs, points)?;
    let mut uses = vec![in alloc; 0; points]?;
    Ok(touching_of(mesh, firsts, &edges, &by_high, &mut uses))
}

// The same over these edges.
fn touching_of(
    mesh: &Mesh,
    firsts: &[u32],
    edges: &EdgeEnds,
    by_high: &Buckets,
    uses: &mut [u32],
) -> u64
    requires firsts { AreFirsts mesh.now.points firsts.now }
    requires lows { edges.now.lows.items ≡ map (λ x. x.0) (edges_upto mesh.now firsts.now (length mesh.now.triples)) }
    requires highs { edges.now.highs.items ≡ map (λ x. x.1) (edges_upto mesh.now firsts.now (length mesh.now.triples)) }
    requires by_high { by_high.now ≡ map (places_of edges.now.highs.items) (upto (length mesh.now.points)) }
    requires full { length uses.old ≡ length mesh.now.points }
    requires none { (s : ℕ) → get_or uses.old s 0 ≡ 0 }
    ensures { result ≡ touching_count mesh.now }
{
    // Read so that what the type of the mesh keeps is known here.
    let _ = mesh.triples();
    let mut count = 0;
    for v in 0..firsts.len() {
        let more = met_often(&edges.lows, by_high.bucket(v), uses);
        count += u64::from(more);
    }
    count
}
