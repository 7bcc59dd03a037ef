// What tidying gives.
use mesh_check::Mesh;

/// A tidied mesh, and how many edges were collapsed.
#[derive(Drop)]
pub struct Tidied {
    pub mesh: Mesh,
    pub collapsed: u64,
}
