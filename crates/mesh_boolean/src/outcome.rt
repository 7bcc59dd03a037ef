// What an operation gives.
use mesh_check::Mesh;
use retained_verts::Prescribed;

/// The mesh that an operation gives, and where it comes from: the prescribed vertices, which of them each vertex of the mesh
/// is, and of which source face each triangle is, whose label it has. Source faces are those of the first reduced mesh, then
/// those of the second. `forced` counts the triangles that were cut where no place of their ring was an ear, or last and not
/// turning left.
#[derive(Drop)]
pub struct Outcome {
    pub mesh: Mesh,
    pub prescribed: Prescribed,
    pub from: Vec<u32>,
    pub source: Vec<u32>,
    pub forced: u64,
}
