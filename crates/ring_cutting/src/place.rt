// Places of a ring beside the points of their vertices.
ghost use Rattle.std.specs.Prelude.{◌≡◌, ◌<◌, IfOk, length};
ghost use Rattle.std.specs.List.{All};
ghost use Rattle.face_plane.specs.Planes.{Plane, face_plane};
ghost use Rattle.face_plane.specs.Rings.{vertex_at, vertex_before, vertex_after};
ghost use Rattle.ring_cutting.specs.Placed.{vertices_of, IsPlaced};

use face_plane::{FacePlane, FlatPoint};
use loop_ring::Ring;
use mb_base::{NoMemory, Point};
use std::alloc::Global;

// A place of a ring: its vertex, and the point of the vertex in the plane.
#[derive(Clone, Copy, Debug, Drop)]
pub struct Place {
    pub vertex: u32,
    pub at: FlatPoint,
}

// The places of a ring in a plane, read once round. The ring is freed.
pub(crate) fn placed(
    alloc: Global,
    plane: FacePlane,
    turned: bool,
    mut ring: Ring,
    points: &[Point],
) -> Result<Vec<Place>, NoMemory>
    requires { All (λ v. v < length points.now) ring }
    ensures vertices { IfOk result (λ ps. vertices_of ps.items ≡ ring) }
    ensures at { IfOk result (λ ps. IsPlaced (face_plane plane.drop turned points.now) ps.items) }
{
    let mut places = Vec::with_capacity(alloc, ring.len())?;
    for _ in 0..ring.len() {
        let vertex = ring.get();
        let at = plane.flat(turned, points[vertex as usize]);
        places.push(Place { vertex, at })?;
        ring.step();
    }
    Ok(places)
}

// The place at an index.
pub(crate) fn here(places: &[Place], i: usize) -> Place
    requires { i < length places.now }
    ensures vertex { result.vertex ≡ vertex_at (vertices_of places.now) i }
    ensures at { (at : Plane) → IsPlaced at places.now → result.at ≡ at (vertex_at (vertices_of places.now) i) }
{
    places[i]
}

// The place before it, round the ring.
pub(crate) fn before(places: &[Place], i: usize) -> Place
    requires { i < length places.now }
    ensures vertex { result.vertex ≡ vertex_before (vertices_of places.now) i }
    ensures at { (at : Plane) → IsPlaced at places.now → result.at ≡ at (vertex_before (vertices_of places.now) i) }
{
    let at = if i == 0 { places.len() - 1 } else { i - 1 };
    places[at]
}

// The place after it.
pub(crate) fn after(places: &[Place], i: usize) -> Place
    requires { i < length places.now }
    ensures vertex { result.vertex ≡ vertex_after (vertices_of places.now) i }
    ensures at { (at : Plane) → IsPlaced at places.now → result.at ≡ at (vertex_after (vertices_of places.now) i) }
{
    let at = if i + 1 == places.len() { 0 } else { i + 1 };
    places[at]
}
