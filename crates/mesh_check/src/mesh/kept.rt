// A mesh of triangles whose twins are known.
ghost use Rattle.std.specs.Prelude.{◌≡◌, length};
ghost use Rattle.mesh_terms.specs.Labels.{no_labels};
ghost use Rattle.mesh_terms.specs.Meshes.{IsMesh};

use crate::mesh::Mesh;
use halfedge::Twins;
use mb_base::Point;

impl Mesh {
    /// The mesh of these points and of triangles with their twins, which it keeps, with empty labels. Nothing is searched or
    /// sorted, and no memory is taken.
    pub fn of_twins(points: Vec<Point>, twins: Twins) -> Mesh
        requires { IsMesh (length points.items) twins.triples }
        ensures points { result.points ≡ points.items }
        ensures triples { result.triples ≡ twins.triples }
        ensures labels { result.labels ≡ no_labels twins.triples }
    {
        // Read so that what the type of the twins keeps is known here.
        let _ = twins.triples();
        Mesh {
            points,
            twins,
            labels: None,
        }
    }
}
