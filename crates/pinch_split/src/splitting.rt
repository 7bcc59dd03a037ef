// A mesh with one vertex for each fan.
//
// The definition of fans in `split` is a function of the triangles, the half-edges that going around meets; that the
// lists of `fans` are those is a law. Twins are handed over to the split mesh; only where two half-edges run the same
// way are they found once more, to know whether some still do.
ghost use Rattle.std.specs.Prelude.{◌≡◌, ◌≤◌, ◌*◌, IfOk, length, map};
ghost use Rattle.std.specs.List.{All};
ghost use Rattle.chain_terms.specs.Chains.{all_edges, IsClosed};
ghost use Rattle.chain_terms.specs.Sums.{upto};
ghost use Rattle.mesh_terms.specs.Fans.{AreFans};
ghost use Rattle.mesh_terms.specs.Labels.{no_labels};
ghost use Rattle.mesh_terms.specs.Limits.{most_triangles};
ghost use Rattle.mesh_terms.specs.Meshes.{HasThree, IsAccepted, IsMesh, triples_of};
ghost use Rattle.mesh_terms.specs.Twins.{twins_of};
ghost use Rattle.halfedge.specs.Clean.{IsClean};
ghost use Rattle.pinch_split.specs.Back.{ComeFrom, named_by};
ghost use Rattle.pinch_split.specs.Split.{split_from, split_points, split_triples};
ghost use Rattle.pinch_split.specs.Given.{corners, starts_of, points_of};

use crate::lists::{corners, numbers, points_at, starts};
use crate::result::Split;
use halfedge::{Fans, TwinFault, Twins};
use mb_base::{NoMemory, Point, copied};
use mesh_check::Mesh;
use std::alloc::Global;

/// The closed mesh of these points and triangles with one vertex for each fan, which has the point of its
/// old vertex. The new vertices go by their old vertex, and at one vertex by the least half-edge of the
/// fan. The triangles keep their order, and each half-edge its twin; their labels are empty. `NoMemory` may come for any mesh.
/// First the twins are found, as in `Twins::of`. Where each vertex has one fan, which is then found out in time
/// linear in the triangles, the mesh is given as it is. Otherwise its fans are listed, which sorts its half-edges
/// by their starts, and the rest takes linear time; but where two half-edges run the same way, the twins are
/// found once more, to know whether some still do.
pub fn split(alloc: Global, points: &[Point], triples: &[[u32; 3]]) -> Result<Split, NoMemory>
    requires { IsAccepted (length points.now) (triples_of triples.now) }
    ensures points { IfOk result (λ s. s.mesh.points ≡ split_points points.now (triples_of triples.now)) }
    ensures triples { IfOk result (λ s. s.mesh.triples ≡ split_triples (length points.now) (triples_of triples.now)) }
    ensures from { IfOk result (λ s. s.from.items ≡ split_from (length points.now) (triples_of triples.now)) }
    ensures there { IfOk result (λ s. ComeFrom s.mesh.points points.now s.from.items) }
    ensures back { IfOk result (λ s. map (named_by s.from.items) s.mesh.triples ≡ triples_of triples.now) }
    ensures clean { IfOk result (λ s. IsClean (all_edges s.mesh.triples)) }
    ensures twins { IfOk result (λ s. twins_of s.mesh.triples ≡ twins_of (triples_of triples.now)) }
    ensures few { IfOk result (λ s. 2 * length s.mesh.points ≤ 3 * length s.mesh.triples) }
    ensures labels { IfOk result (λ s. s.mesh.labels ≡ no_labels s.mesh.triples) }
{
    let triples = copied(alloc, triples)?;
    split_over(alloc, points, triples)
}

/// The same of triangles that it takes over, of which it makes no copy.
pub fn split_over(
    alloc: Global,
    points: &[Point],
    triples: Vec<[u32; 3]>,
) -> Result<Split, NoMemory>
    requires { IsAccepted (length points.now) (triples_of triples.items) }
    ensures points { IfOk result (λ s. s.mesh.points ≡ split_points points.now (triples_of triples.items)) }
    ensures triples { IfOk result (λ s. s.mesh.triples ≡ split_triples (length points.now) (triples_of triples.items)) }
    ensures from { IfOk result (λ s. s.from.items ≡ split_from (length points.now) (triples_of triples.items)) }
    ensures there { IfOk result (λ s. ComeFrom s.mesh.points points.now s.from.items) }
    ensures back { IfOk result (λ s. map (named_by s.from.items) s.mesh.triples ≡ triples_of triples.items) }
    ensures clean { IfOk result (λ s. IsClean (all_edges s.mesh.triples)) }
    ensures twins { IfOk result (λ s. twins_of s.mesh.triples ≡ twins_of (triples_of triples.items)) }
    ensures few { IfOk result (λ s. 2 * length s.mesh.points ≤ 3 * length s.mesh.triples) }
    ensures labels { IfOk result (λ s. s.mesh.labels ≡ no_labels s.mesh.triples) }
{
    let twins = closed_twins(alloc, triples)?;
    if twins.are_clean(alloc, points.len())? {
        return whole(alloc, points, twins);
    }
    let fans = twins.fans(alloc)?;
    split_by(alloc, points, twins, fans)
}

// The twins of closed triangles.
fn closed_twins(alloc: Global, triples: Vec<[u32; 3]>) -> Result<Twins, NoMemory>
    requires three { All HasThree (triples_of triples.items) }
    requires few { length triples.items ≤ most_triangles }
    requires closed { IsClosed (all_edges (triples_of triples.items)) }
    ensures { IfOk result (λ twins. twins.triples ≡ triples_of triples.items) }
{
    match Twins::over(alloc, triples) {
        Ok(twins) => Ok(twins),
        Err(TwinFault::NoMemory) => Err(NoMemory),
        Err(TwinFault::Open { .. }) => unreachable!(),
    }
}

// The mesh as it is, where each vertex has one fan.
fn whole(alloc: Global, points: &[Point], twins: Twins) -> Result<Split, NoMemory>
    requires { IsMesh (length points.now) twins.triples }
    ensures points { IfOk result (λ s. s.mesh.points ≡ points.now) }
    ensures triples { IfOk result (λ s. s.mesh.triples ≡ twins.triples) }
    ensures from { IfOk result (λ s. s.from.items ≡ upto (length points.now)) }
    ensures there { IfOk result (λ s. ComeFrom s.mesh.points points.now s.from.items) }
    ensures back { IfOk result (λ s. map (named_by s.from.items) s.mesh.triples ≡ twins.triples) }
    ensures labels { IfOk result (λ s. s.mesh.labels ≡ no_labels s.mesh.triples) }
{
    let from = numbers(alloc, points.len())?;
    let points = points.to_vec(alloc)?;
    Ok(Split {
        mesh: Mesh::of_twins(points, twins),
        from,
    })
}

// The mesh with one vertex for each of these fans.
fn split_by(alloc: Global, points: &[Point], twins: Twins, fans: Fans) -> Result<Split, NoMemory>
    requires accepted { IsAccepted (length points.now) twins.triples }
    requires fans { AreFans (all_edges twins.triples) fans.of.items fans.first.items }
    ensures points { IfOk result (λ s. s.mesh.points ≡ points_of points.now (starts_of twins.triples fans.first.items)) }
    ensures triples { IfOk result (λ s. s.mesh.triples ≡ corners fans.of.items (length twins.triples)) }
    ensures from { IfOk result (λ s. s.from.items ≡ starts_of twins.triples fans.first.items) }
    ensures there { IfOk result (λ s. ComeFrom s.mesh.points points.now s.from.items) }
    ensures back { IfOk result (λ s. map (named_by s.from.items) s.mesh.triples ≡ twins.triples) }
    ensures few { IfOk result (λ s. 2 * length s.mesh.points ≤ 3 * length s.mesh.triples) }
    ensures labels { IfOk result (λ s. s.mesh.labels ≡ no_labels s.mesh.triples) }
{
    let from = starts(alloc, twins.triples(), &fans.first)?;
    let points = points_at(alloc, points, &from)?;
    let triples = corners(alloc, &fans.of, twins.triples().len())?;
    let twins = twins.renamed(alloc, triples)?;
    Ok(Split {
        mesh: Mesh::of_twins(points, twins),
        from,
    })
}
