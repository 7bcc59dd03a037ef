// The measures of a mesh.
ghost use Rattle.std.specs.Prelude.{◌≡◌, ◌≤◌, IfOk, length};
ghost use Rattle.chain_terms.specs.Chains.{all_edges};
ghost use Rattle.component_terms.specs.Components.{HasComponents};
ghost use Rattle.component_terms.specs.Counts.{component_count};
ghost use Rattle.mesh_terms.specs.Euler.{euler_of};
ghost use Rattle.mesh_terms.specs.Limits.{most_points, most_triangles};
ghost use Rattle.mesh_terms.specs.Volume.{volume6_of};

use crate::components::components;
use crate::figures::Measure;
use crate::volume::volume6;
use mb_base::NoMemory;
use mesh_check::Mesh;
use std::alloc::Global;

/// The measures of the mesh. A component is a class of vertices that triangles join, also where they share that vertex
/// alone. The Euler characteristic is the number of points, less half of three times the triangles, and the triangles.
/// The time is linear in the mesh. `NoMemory` may come for any mesh.
pub fn measure(alloc: Global, mesh: &Mesh) -> Result<Measure, NoMemory>
    ensures points { IfOk result (λ m. m.points ≡ length mesh.now.points) }
    ensures triangles { IfOk result (λ m. m.triangles ≡ length mesh.now.triples) }
    ensures components { IfOk result (λ m. HasComponents (length mesh.now.points) (all_edges mesh.now.triples) m.components) }
    ensures count { IfOk result (λ m. m.components ≡ component_count (length mesh.now.points) (all_edges mesh.now.triples)) }
    ensures euler { IfOk result (λ m. m.euler ≡ euler_of (length mesh.now.points) (length mesh.now.triples)) }
    ensures volume { IfOk result (λ m. m.volume6 ≡ volume6_of mesh.now.points mesh.now.triples) }
{
    let points = mesh.points().len() as u64;
    let triangles = mesh.triples().len() as u64;
    Ok(Measure {
        points,
        triangles,
        components: components(alloc, mesh)?,
        euler: euler(points, triangles),
        volume6: volume6(mesh),
    })
}

// The Euler characteristic of a closed mesh with so many points and triangles.
fn euler(points: u64, triangles: u64) -> i64
    requires few_points { points ≤ most_points }
    requires few_triangles { triangles ≤ most_triangles }
    ensures { result ≡ euler_of points triangles }
{
    points as i64 - (3 * triangles / 2) as i64 + triangles as i64
}
