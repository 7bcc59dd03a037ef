// The edges of triangles that may have places inside them.
ghost use Rattle.std.specs.Prelude.{◌≡◌, ◌≢◌, ◌<◌, ◌++◌, ◌∷◌, [], List, ℕ, IfOk, OnOk, length, map};
ghost use Rattle.std.specs.List.{All};
ghost use Rattle.chain_terms.specs.Chains.{all_edges, edges as edges_of};
ghost use Rattle.edge_cutting.specs.Edges.{AreLong, pair_of};
ghost use Rattle.edge_cutting.specs.Inside.{AreApart};
ghost use Rattle.edge_cutting.specs.Spans.{AreInSteps};
ghost use Rattle.mesh_terms.specs.Meshes.{IsBelow, triple_of, triples_of};

use crate::divisors::divisor;
use crate::steps::common_step;
use mb_base::{NoMemory, Point};
use std::alloc::Global;

/// The edges of triangles that run up, from a lesser place to a greater one, and may have places inside them.
pub fn long_edges(
    alloc: Global,
    points: &[Point],
    triples: &[[u32; 3]],
) -> Result<Vec<[u32; 2]>, NoMemory>
    requires apart { AreApart points.now }
    requires below { All (IsBelow (length points.now)) (triples_of triples.now) }
    ensures { IfOk result (λ edges. AreLong points.now (all_edges (triples_of triples.now)) (map pair_of edges.items)) }
{
    let unit = unit_of(points);
    let mut edges = Vec::new(alloc);
    for triple in triples {
        push_all(&mut edges, points, unit, *triple)?;
    }
    Ok(edges)
}

// Adds those of the edges of a triangle.
fn push_all(
    edges: &mut Vec<[u32; 2]>,
    points: &[Point],
    unit: u64,
    triple: [u32; 3],
) -> Result<(), NoMemory>
    requires apart { AreApart points.now }
    requires unit { AreInSteps unit points.now }
    requires below { IsBelow (length points.now) (triple_of triple) }
    ensures { OnOk result ((seen : List (ℕ × ℕ)) → AreLong points.now seen (map pair_of edges.old.items) →
        AreLong points.now (seen ++ edges_of (triple_of triple)) (map pair_of edges.new.items)) }
{
    let [a, b, c] = triple;
    push_long(edges, points, unit, a, b)?;
    push_long(edges, points, unit, b, c)?;
    push_long(edges, points, unit, c, a)?;
    Ok(())
}

// The greatest number of which all steps between places on all axes are multiples; 0 where there are none.
fn unit_of(points: &[Point]) -> u64
    ensures { AreInSteps result points.now }
{
    let mut unit = 0;
    for point in points {
        unit = divisor(unit, common_step(points[0], *point));
        if unit == 1 {
            return 1;
        }
    }
    unit
}

// Adds the edge from a to b where it runs up and may have a place inside it: where its steps have a greater common divisor than those between all places.
fn push_long(
    edges: &mut Vec<[u32; 2]>,
    points: &[Point],
    unit: u64,
    a: u32,
    b: u32,
) -> Result<(), NoMemory>
    requires apart { AreApart points.now }
    requires unit { AreInSteps unit points.now }
    requires a { a < length points.now }
    requires b { b < length points.now }
    ensures { OnOk result ((seen : List (ℕ × ℕ)) → AreLong points.now seen (map pair_of edges.old.items) → AreLong points.now (seen ++ (a, b) ∷ []) (map pair_of edges.new.items)) }
{
    if a < b && common_step(points[a as usize], points[b as usize]) > unit {
        edges.push([a, b])?;
    }
    Ok(())
}
