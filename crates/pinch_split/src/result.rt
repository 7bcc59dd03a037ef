// What splitting gives.
//
// `split` says beside its value that each vertex has an old one with its point, that every old one stays, and that
// the triangles over old vertices are those that were given. So what holds face by face before splitting holds after
// it, over the vertices that `from` names.
use mesh_check::Mesh;

/// A mesh in which each vertex has one fan, and for each of its vertices the one that it was before.
#[derive(Drop)]
pub struct Split {
    pub mesh: Mesh,
    pub from: Vec<u32>,
}
