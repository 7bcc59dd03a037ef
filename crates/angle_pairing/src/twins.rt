// Twins by brackets round each edge.
ghost use Rattle.std.specs.Prelude.{◌≡◌, ◌≤◌, ◌<◌, ◌*◌, ℕ, OnOk, IfOk, length, get_or, map};
ghost use Rattle.std.specs.List.{All, Contains};
ghost use Rattle.chain_terms.specs.Chains.{IsClosed, all_edges};
ghost use Rattle.mesh_terms.specs.Limits.{most_triangles};
ghost use Rattle.mesh_terms.specs.Meshes.{HasThree, IsBelow, triples_of};
ghost use Rattle.sheet_terms.specs.Chains.{upward};
ghost use Rattle.sheet_terms.specs.Twins.{between, bracket_twin, twins_by_angle};
ghost use Rattle.angle_pairing.specs.Gathered.{AreGathered};

use crate::alike::GatheredEdges;
use crate::angle::round_edge;
use crate::brackets::{join, pair_round};
use mb_base::{NoMemory, Point};
use std::alloc::Global;

/// The twin of each half-edge, from the half-edges of each edge. Where an edge has two they are twins; where it has more, those behind which the solid begins, which run
/// from the greater end to the lesser, and those where it ends are opening and closing brackets on the circle of their angles, and those that match are twins.
pub fn twins_by_angle(
    alloc: Global,
    points: &[Point],
    triples: &[[u32; 3]],
    edges: &GatheredEdges,
) -> Result<Vec<u32>, NoMemory>
    requires few { length triples.now ≤ most_triangles }
    requires three { All HasThree (triples_of triples.now) }
    requires below { All (IsBelow (length points.now)) (triples_of triples.now) }
    requires closed { IsClosed (all_edges (triples_of triples.now)) }
    requires ways { edges.now.ways.items ≡ map upward (all_edges (triples_of triples.now)) }
    requires gathered { AreGathered (map upward (all_edges (triples_of triples.now))) edges.now.gathered.firsts.items edges.now.gathered.groups }
    ensures { IfOk result (λ twins. twins.items ≡ twins_by_angle points.now (triples_of triples.now)) }
{
    let mut twins = vec![in alloc; 0; 3 * triples.len()]?;
    for half in 0..3 * triples.len() {
        if edges.gathered.firsts[half] as usize == half {
            let (low, high) = edges.ways[half];
            pair_edge(
                alloc,
                &mut twins,
                points,
                triples,
                low,
                high,
                edges.gathered.groups.bucket(half),
            )?;
        }
    }
    Ok(twins)
}

// Makes the half-edges between two points, one of which is lesser, twins of one another.
fn pair_edge(
    alloc: Global,
    twins: &mut [u32],
    points: &[Point],
    triples: &[[u32; 3]],
    low: u32,
    high: u32,
    halves: &[u32],
) -> Result<(), NoMemory>
    requires few { length triples.now ≤ most_triangles }
    requires three { All HasThree (triples_of triples.now) }
    requires below { All (IsBelow (length points.now)) (triples_of triples.now) }
    requires closed { IsClosed (all_edges (triples_of triples.now)) }
    requires full { length twins.old ≡ 3 * length triples.now }
    requires low { low < high }
    requires high { high < length points.now }
    requires halves { halves.now ≡ between (all_edges (triples_of triples.now)) low high }
    ensures full { length twins.new ≡ length twins.old }
    ensures pairs { OnOk result ((h : ℕ) → Contains halves.now h → get_or twins.new h 0 ≡ bracket_twin points.now (all_edges (triples_of triples.now)) low high h) }
    ensures others { OnOk result ((h : ℕ) → (Contains halves.now h → ⊥) → get_or twins.new h 0 ≡ get_or twins.old h 0) }
{
    if halves.len() == 2 {
        join(twins, halves[0], halves[1]);
        return Ok(());
    }
    let order = round_edge(alloc, points, triples, low, high, halves)?;
    pair_round(alloc, twins, triples, high, &order)?;
    Ok(())
}
