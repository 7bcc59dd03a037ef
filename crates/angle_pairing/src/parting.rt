// One vertex for each fan.
ghost use Rattle.std.specs.Prelude.{◌≡◌, ◌≤◌, ◌<◌, ◌*◌, ℕ, IfOk, length, map};
ghost use Rattle.std.specs.List.{All};
ghost use Rattle.chain_terms.specs.Chains.{all_edges, dir};
ghost use Rattle.chain_terms.specs.Ranks.{start};
ghost use Rattle.face_plane.specs.Planes.{point_at};
ghost use Rattle.halfedge.specs.Clean.{IsClean};
ghost use Rattle.mesh_terms.specs.Limits.{most_triangles};
ghost use Rattle.mesh_terms.specs.Meshes.{IsAccepted, IsBelow, triples_of};
ghost use Rattle.sheet_terms.specs.Twins.{twins_by_angle};
ghost use Rattle.sheet_terms.specs.Vertices.{over_fans, settled};
ghost use Rattle.fan_laws.specs.Laws.{parted};

use crate::alike::gather_edges;
use crate::changes::settle;
use crate::fans::fans_by;
use crate::twins::twins_by_angle;
use halfedge::halves::start;
use mb_base::{NoMemory, Point};
use std::alloc::Global;

/// Points and triangles in which no half-edge runs between the same two vertices as another.
#[derive(Drop)]
pub struct Parted {
    pub points: Vec<Point>,
    pub triples: Vec<[u32; 3]>,
}

/// Closed triangles with one vertex for each fan, by twins that are told by the angle round their edge, so that no two half-edges run between the same two vertices.
/// The vertices go by their old vertex, and at one vertex by the least half-edge of the fan; the triangles keep their order.
pub fn part_fans(alloc: Global, points: &[Point], triples: &[[u32; 3]]) -> Result<Parted, NoMemory>
    requires { IsAccepted (length points.now) (triples_of triples.now) }
    ensures triples { IfOk result (λ p. triples_of p.triples.items ≡ (parted points.now (triples_of triples.now)).triples) }
    ensures points { IfOk result (λ p. p.points.items ≡ map (point_at points.now) (parted points.now (triples_of triples.now)).from) }
    ensures accepted { IfOk result (λ p. IsAccepted (length p.points.items) (triples_of p.triples.items)) }
    ensures clean { IfOk result (λ p. IsClean (all_edges (triples_of p.triples.items))) }
    ensures once { IfOk result (λ p. (a b : ℕ) → dir (all_edges (triples_of p.triples.items)) a b ≤ 1) }
{
    let twins = settled_twins(alloc, points, triples)?;
    let fans = fans_by(alloc, points.len(), triples, &twins)?;
    let from = starts(alloc, triples, &fans.firsts)?;
    let at = points_at(alloc, points, &from)?;
    let made = over_fans(alloc, &fans.of, triples.len())?;
    Ok(Parted {
        points: at,
        triples: made,
    })
}

// The twins by the angle round their edge that are left once partners were changed.
fn settled_twins(
    alloc: Global,
    points: &[Point],
    triples: &[[u32; 3]],
) -> Result<Vec<u32>, NoMemory>
    requires { IsAccepted (length points.now) (triples_of triples.now) }
    ensures { let ts = triples_of triples.now in
        IfOk result (λ t. (n : ℕ) → All (IsBelow n) ts → t.items ≡ settled n ts (twins_by_angle points.now ts)) }
{
    let edges = gather_edges(alloc, triples)?;
    let first = twins_by_angle(alloc, points, triples, &edges)?;
    settle(alloc, triples, &edges.gathered, first)
}

// Where half-edges of the triangles start.
fn starts(alloc: Global, triples: &[[u32; 3]], halves: &[u32]) -> Result<Vec<u32>, NoMemory>
    requires { All (λ h. h < 3 * length triples.now) halves.now }
    ensures { IfOk result (λ from. from.items ≡ map (start (all_edges (triples_of triples.now))) halves.now) }
{
    let mut from = Vec::with_capacity(alloc, halves.len())?;
    for half in halves {
        from.push(start(triples, *half))?;
    }
    Ok(from)
}

// The points of these vertices.
fn points_at(alloc: Global, points: &[Point], vertices: &[u32]) -> Result<Vec<Point>, NoMemory>
    requires { All (λ v. v < length points.now) vertices.now }
    ensures { IfOk result (λ chosen. chosen.items ≡ map (point_at points.now) vertices.now) }
{
    let mut chosen = Vec::with_capacity(alloc, vertices.len())?;
    for vertex in vertices {
        chosen.push(points[*vertex as usize])?;
    }
    Ok(chosen)
}

// So many triangles over the fans of their half-edges.
fn over_fans(alloc: Global, of: &[u32], count: usize) -> Result<Vec<[u32; 3]>, NoMemory>
    requires full { length of.now ≡ 3 * count }
    requires few { count ≤ most_triangles }
    ensures { IfOk result (λ triples. triples_of triples.items ≡ over_fans of.now count) }
{
    let mut triples = Vec::with_capacity(alloc, count)?;
    for t in 0..count {
        triples.push([of[3 * t], of[3 * t + 1], of[3 * t + 2]])?;
    }
    Ok(triples)
}
