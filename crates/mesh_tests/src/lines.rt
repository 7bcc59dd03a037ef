// Meshes over points on a line, and whether a mesh is the wanted one.
use mb_base::{Point, Soup};
use mesh_check::Mesh;
use std::alloc::Global;
use std::process::Abort;
use test_tables::line_soup;

// A tetrahedron whose triangles come twice: two half-edges run the same way along each edge.
pub(crate) const DOUBLED: [[u32; 3]; 8] = [
    [0, 2, 1],
    [0, 1, 3],
    [1, 2, 3],
    [2, 0, 3],
    [0, 2, 1],
    [0, 1, 3],
    [1, 2, 3],
    [2, 0, 3],
];

// The mesh of a soup.
pub(crate) fn accepted(rt: &impl Abort, alloc: Global, soup: Soup) -> Mesh {
    Mesh::check(alloc, soup).expect(rt, "closed triangles")
}

// The mesh of these triangles over so many points on a line.
pub(crate) fn line_mesh(rt: &impl Abort, alloc: Global, count: u8, triples: &[[u32; 3]]) -> Mesh {
    accepted(
        rt,
        alloc,
        line_soup(alloc, count, triples).expect(rt, "a soup"),
    )
}

// Whether a point lies at this place on the line.
fn lies_at(point: &Point, place: u32) -> bool {
    let [x, y, z] = point.at();
    x as i64 == place as i64 && y == 0 && z == 0
}

// Whether these points lie at these places on the line.
pub(crate) fn lie_at(points: &[Point], places: &[u32]) -> bool {
    if points.len() != places.len() {
        return false;
    }
    for (point, place) in points.iter().zip(places) {
        if !lies_at(point, *place) {
            return false;
        }
    }
    true
}

// Whether a mesh has these points, by their places on the line, and these triangles.
pub(crate) fn consists_of(mesh: &Mesh, places: &[u32], triples: &[[u32; 3]]) -> bool {
    lie_at(mesh.points(), places) && mesh.triples() == triples
}

// Whether two meshes have the same points and triangles.
pub(crate) fn are_same(p: &Mesh, q: &Mesh) -> bool {
    p.points() == q.points() && p.triples() == q.triples()
}
