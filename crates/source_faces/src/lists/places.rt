// Where the vertices of a side lie.
ghost use Rattle.std.specs.Prelude.{◌≡◌, ◌<◌, ◌*◌, length};
ghost use Rattle.chain_terms.specs.Chains.{all_edges};
ghost use Rattle.chain_terms.specs.Ranks.{start, finish};
ghost use Rattle.source_face_terms.specs.Planes.{plane_drop_of};
ghost use Rattle.source_face_terms.specs.Segments.{vertex_point, lower_half};

use face_plane::FacePlane;
use lean::Surface;
use mb_base::Point;
use retained_verts::point_of;

/// The plane of a face of a side.
pub fn plane_of(side: &Surface, face: u32) -> FacePlane
    requires { face < length side.now.triples }
    ensures axis { result.drop ≡ plane_drop_of side.now face }
    ensures below { result.drop < 3 }
{
    let [a, b, c] = side.triples()[face as usize];
    FacePlane::of(
        vertex_point(side, a),
        vertex_point(side, b),
        vertex_point(side, c),
    )
}

// The point of a vertex.
fn vertex_point(side: &Surface, vertex: u32) -> Point
    requires { vertex < length side.now.corners }
    ensures { result ≡ vertex_point side.now vertex }
{
    point_of(&side.corners()[vertex as usize])
}

/// The ends of an edge, whichever of its half-edges this is: of the lower one the point where it starts, and that where it
/// ends.
pub fn edge_ends(side: &Surface, half: u32) -> (Point, Point)
    requires { half < 3 * length side.now.triples }
    ensures from { result.0 ≡ vertex_point side.now (start (all_edges side.now.triples) (lower_half (all_edges side.now.triples) half)) }
    ensures to { result.1 ≡ vertex_point side.now (finish (all_edges side.now.triples) (lower_half (all_edges side.now.triples) half)) }
{
    let lower = half.min(side.twins().twin(half));
    let [a, b] = side.edge(lower);
    (point_of(&a), point_of(&b))
}
