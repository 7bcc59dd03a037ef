// The triangles of a mesh over its places.
ghost use Rattle.std.specs.Prelude.{◌≡◌, ◌≤◌, ◌++◌, IfOk, length};
ghost use Rattle.mesh_terms.specs.Limits.{most_points};
ghost use Rattle.sheet_terms.specs.Places.{place_points};
ghost use Rattle.plane_remesh.specs.Placed.{IsOver};

use edge_cutting::{faces_over, places_of};
use mb_base::{MOST_POINTS, NoMemory, Point};
use mesh_check::Mesh;
use std::alloc::Global;

/// Places: the different points of a mesh, and further ones; and its triangles over them, without those that have one place twice; for each its number in the mesh.
#[derive(Drop)]
pub struct OverPlaces {
    pub points: Vec<Point>,
    pub triples: Vec<[u32; 3]>,
    pub sources: Vec<u32>,
}

/// The triangles of a mesh over its places and further ones. `NoMemory` also comes where there would be more points than any mesh has.
pub fn over_places(alloc: Global, mesh: &Mesh, more: &[Point]) -> Result<OverPlaces, NoMemory>
    ensures { IfOk result (IsOver (place_points (mesh.now.points ++ more.now)) mesh.now) }
{
    let all = joined(alloc, mesh.points(), more)?;
    let places = places_of(alloc, &all)?;
    let faces = faces_over(alloc, mesh.triples(), &places.of)?;
    Ok(OverPlaces {
        points: places.points,
        triples: faces.triples,
        sources: faces.sources,
    })
}

// Points and further ones.
fn joined(alloc: Global, points: &[Point], more: &[Point]) -> Result<Vec<Point>, NoMemory>
    requires { length points.now ≤ most_points }
    ensures points { IfOk result (λ all. all.items ≡ points.now ++ more.now) }
    ensures few { IfOk result (λ all. length all.items ≤ most_points) }
{
    if more.len() > MOST_POINTS as usize - points.len() {
        return Err(NoMemory);
    }
    let mut all = Vec::with_capacity(alloc, points.len() + more.len())?;
    all.extend_from_slice(points)?;
    all.extend_from_slice(more)?;
    Ok(all)
}
