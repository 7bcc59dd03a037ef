// The winding numbers of the corners of one side, carried along its edges.
//
// Winding numbers are carried along half-edges from one sum for each connected component. Two ways to a vertex are
// not compared: both give the sum there, since along every half-edge the sums change by its crossings. The hits of an
// edge are a run of the list, found by halving it twice, and only where a mark says that the triangle has a hit on
// one of its edges.
ghost use Rattle.std.specs.Prelude.{◌≡◌, ◌≤◌, ◌+◌, ◌^◌, ℕ, ◌<◌, nat_abs, IfOk, length, map};
ghost use Rattle.std.specs.List.{All};
ghost use Rattle.chain_terms.specs.Chains.{all_edges};
ghost use Rattle.chain_terms.specs.Ranks.{finish};
ghost use Rattle.side_terms.specs.Conservation.{half_number, EdgeIdentity};
ghost use Rattle.side_terms.specs.Hits.{AreHits};
ghost use Rattle.winding.specs.Segments.{SegmentIdentity, crossings_to};
ghost use Rattle.winding.specs.Windings.{components_of, minus_shadows, number_at};

use crate::along::{crossed_triangles, crossings_along};
use crate::jump::{Known, number_from};
use crate::shadows::VertexFace;
use crossings::EdgeFace;
use lean::Side;
use mb_base::{Hit, NoMemory, Steps};
use spanning_forest::{Entrance, forest};
use std::alloc::Global;
use std::sync::ledger::Ledger;

/// The winding numbers of the corners of one side in the other: at most one sum for the first corner of each connected
/// component, or the crossings of the segment from the first corner of the component before. From there, along
/// each half-edge, the number changes by minus the half-edge's numbers with all faces, which the hits tell.
pub fn corner_windings<S: VertexFace, C: EdgeFace, L: Ledger>(
    alloc: Global,
    vertices: &Side,
    faces: &Side,
    hits: &[Hit],
    shadows: &S,
    pairs: &C,
    steps: &mut Steps<L>,
) -> Result<Vec<i64>, NoMemory>
    requires listed { AreHits (all_edges vertices.now.triples) (length faces.now.triples) hits.now }
    requires few { length hits.now ≤ 2 ^ 55 }
    requires size { (v : ℕ) → v < length vertices.now.corners →
        nat_abs (number_at (S.vertex_shadow shadows.now) vertices.now faces.now v) ≤ length faces.now.triples }
    requires identity { EdgeIdentity (all_edges vertices.now.triples) (length faces.now.triples)
        (number_at (S.vertex_shadow shadows.now) vertices.now faces.now) (half_number (all_edges vertices.now.triples) hits.now) }
    requires segments { SegmentIdentity (λ c. minus_shadows (S.vertex_shadow shadows.now c) faces.now) (crossings_to (C.crossing_of pairs.now) faces.now) }
    ensures value { IfOk result (λ w. w.items ≡ map (λ c. minus_shadows (S.vertex_shadow shadows.now c) faces.now) vertices.now.corners) }
    ensures size { IfOk result (λ w. All (λ n. nat_abs n ≤ length faces.now.triples) w.items) }
    ensures cost { steps.new ≤ steps.old + components_of vertices.now }
{
    // Read so that what sides keep is known here.
    let _ = faces.twins();
    let corners = vertices.corners();
    let crossed = crossed_triangles(alloc, vertices, hits)?;
    let mut numbers = vec![in alloc; 0; corners.len()]?;
    let mut known: Option<Known> = None;
    for entrance in &forest(alloc, vertices.triples(), corners.len())? {
        match *entrance {
            Entrance::Root(root) => {
                let corner = corners[root as usize];
                let number = number_from(&known, &corner, faces, shadows, pairs, steps);
                numbers[root as usize] = number;
                known = Some(Known { corner, number });
            }
            Entrance::Along(half) => {
                let before = numbers[vertices.start(half) as usize];
                let crossings = crossings_along(vertices, hits, &crossed, half);
                numbers[finish(vertices, half) as usize] = before - crossings;
            }
        }
    }
    Ok(numbers)
}

// Where a half-edge ends.
fn finish(side: &Side, half: u32) -> u32
    requires { half < length (all_edges side.now.triples) }
    ensures value { result ≡ finish (all_edges side.now.triples) half }
    ensures below { result < length side.now.corners }
{
    side.start(side.twins().next(half))
}
