// The winding number of a point of the grid in a mesh.
ghost use Rattle.std.specs.Prelude.{◌≡◌, ◌≤◌, ◌+◌, IfOk, IsErr, nat_abs, neg_ℤ, length};
ghost use Rattle.std.specs.List.{All};
ghost use Rattle.mesh_terms.specs.Limits.{most_triangles};
ghost use Rattle.mesh_terms.specs.Meshes.{IsBelow, triples_of};
ghost use Rattle.side_terms.specs.Corners.{AllFine, IsFineCorner};
ghost use Rattle.chain_terms.specs.Sums.{total};
ghost use Rattle.side_terms.specs.Sides.{face_of};
ghost use Rattle.winding.specs.Windings.{winding_at};

use crate::shadows::{PVertices, VertexFace};
use lean::{corner_of, corners_of, face_of};
use mb_base::{Corner, NoMemory, Point, Steps};
use mesh_check::Mesh;
use rounding::Nearest;
use shadow_kernels::Grid;
use std::alloc::Global;
use std::sync::ledger::Ledger;

/// The winding number of a point in a mesh, over all its triangles as they stand, with spots placed to the nearest fine
/// step. The point and the mesh's vertices are up on no axis, so where two coordinates are equal the point is not
/// beyond. It looks at each triangle, which for one point takes less time than a tree over them. It counts one step.
/// `NoMemory` may come for any mesh, and counts none.
pub fn winding_at<L: Ledger>(
    alloc: Global,
    point: Point,
    mesh: &Mesh,
    steps: &mut Steps<L>,
) -> Result<i64, NoMemory>
    ensures value { IfOk result (λ number. number ≡ winding_at point mesh.now) }
    ensures size { IfOk result (λ number. nat_abs number ≤ length mesh.now.triples) }
    ensures cost { IfOk result (λ _. steps.new ≡ steps.old + 1) }
    ensures unused { IsErr result → steps.new ≡ steps.old }
{
    let ups = vec![in alloc; [false; 3]; mesh.points().len()]?;
    let corners = corners_of(alloc, mesh.points(), &ups)?;
    let p = corner_of(point, [false; 3]);
    let kernels = Grid { rounding: Nearest };
    steps.tick();
    Ok(minus_all(&p, &corners, mesh.triples(), &PVertices(&kernels)))
}

// Minus the sum of the shadows of a vertex and all triangles on these corners.
fn minus_all<S: VertexFace>(
    vertex: &Corner,
    corners: &[Corner],
    triples: &[[u32; 3]],
    shadows: &S,
) -> i64
    requires vertex_fine { IsFineCorner vertex.now }
    requires fine { AllFine corners.now }
    requires below { All (IsBelow (length corners.now)) (triples_of triples.now) }
    requires few { length triples.now ≤ most_triangles }
    ensures value { result ≡ neg_ℤ (total (λ t. S.vertex_shadow shadows.now vertex.now (face_of corners.now t)) (triples_of triples.now)) }
    ensures size { nat_abs result ≤ length triples.now }
{
    let mut winding: i64 = 0;
    for triple in triples {
        winding -= shadows.shadow(vertex, &face_of(corners, triple));
    }
    winding
}
