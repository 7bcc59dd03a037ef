// The lists of a split mesh, from its fans.
ghost use Rattle.std.specs.Prelude.{◌≡◌, ◌<◌, ◌≤◌, ◌*◌, IfOk, length};
ghost use Rattle.std.specs.List.{All};
ghost use Rattle.chain_terms.specs.Sums.{upto};
ghost use Rattle.mesh_terms.specs.Limits.{most_points, most_triangles};
ghost use Rattle.mesh_terms.specs.Meshes.{triples_of};
ghost use Rattle.pinch_split.specs.Given.{corners, starts_of, points_of};

use halfedge::halves::start;
use mb_base::{NoMemory, Point};
use std::alloc::Global;

/// The vertices where these half-edges of the triangles start.
pub fn starts(alloc: Global, triples: &[[u32; 3]], halves: &[u32]) -> Result<Vec<u32>, NoMemory>
    requires { All (λ h. h < 3 * length triples.now) halves.now }
    ensures { IfOk result (λ from. from.items ≡ starts_of (triples_of triples.now) halves.now) }
{
    let mut from = Vec::with_capacity(alloc, halves.len())?;
    for half in halves {
        from.push(start(triples, *half))?;
    }
    Ok(from)
}

/// The points of these vertices.
pub fn points_at(alloc: Global, points: &[Point], vertices: &[u32]) -> Result<Vec<Point>, NoMemory>
    requires { All (λ v. v < length points.now) vertices.now }
    ensures { IfOk result (λ chosen. chosen.items ≡ points_of points.now vertices.now) }
{
    let mut chosen = Vec::with_capacity(alloc, vertices.len())?;
    for vertex in vertices {
        chosen.push(points[*vertex as usize])?;
    }
    Ok(chosen)
}

/// So many triangles, whose half-edges start at these vertices.
pub fn corners(alloc: Global, of: &[u32], count: usize) -> Result<Vec<[u32; 3]>, NoMemory>
    requires full { length of.now ≡ 3 * count }
    requires few { count ≤ most_triangles }
    ensures { IfOk result (λ triples. triples_of triples.items ≡ corners of.now count) }
{
    let mut triples = Vec::with_capacity(alloc, count)?;
    for t in 0..count {
        triples.push([of[3 * t], of[3 * t + 1], of[3 * t + 2]])?;
    }
    Ok(triples)
}

/// The numbers from 0 on, so many.
pub fn numbers(alloc: Global, count: usize) -> Result<Vec<u32>, NoMemory>
    requires { count ≤ most_points }
    ensures { IfOk result (λ numbers. numbers.items ≡ upto count) }
{
    let mut numbers = Vec::with_capacity(alloc, count)?;
    for number in 0..count {
        numbers.push(number as u32)?;
    }
    Ok(numbers)
}
