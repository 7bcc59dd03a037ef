// The points of vertices in the plane of a face.
ghost use Rattle.std.specs.Prelude.{◌≡◌};
ghost use Rattle.std.specs.Int.{int_min, int_max};
ghost use Rattle.mesh_terms.specs.Points.{IsOnGrid};
ghost use Rattle.hole_joining.specs.Seen.{plane_at, flat_vertex, segment_of};

use face_plane::{FacePlane, FlatPoint};
use mb_base::Point;

/// The points of the vertices, seen in the plane of a face.
#[derive(Clone, Copy, Drop)]
pub struct FlatPoints<'a> {
    /// The plane.
    pub plane: FacePlane,
    /// Whether u and v are exchanged.
    pub turned: bool,
    /// The point of each vertex.
    pub points: &'a [Point],
}

/// A vertex with its point there.
#[derive(Clone, Copy, Drop)]
pub struct FlatVertex {
    /// The vertex.
    pub vertex: u32,
    /// Its point.
    pub at: FlatPoint,
}

/// The segment of a bridge.
#[derive(Clone, Copy, Drop)]
pub struct BridgeLine {
    /// The hole's start.
    pub from: FlatVertex,
    /// The vertex of the place.
    pub to: FlatVertex,
}

impl FlatPoints<'_> {
    /// The point of a vertex; the origin where the vertex has none.
    pub fn at(&self, vertex: u32) -> FlatPoint
        ensures { result ≡ plane_at self.now vertex }
    {
        match self.points.get(vertex as usize) {
            Some(point) => self.plane.flat(self.turned, *point),
            None => FlatPoint::of(0, 0),
        }
    }

    /// A vertex with its point.
    pub fn vertex(&self, vertex: u32) -> FlatVertex
        ensures { result ≡ flat_vertex (plane_at self.now) vertex }
    {
        let at = self.at(vertex);
        FlatVertex { vertex, at }
    }

    /// The segment between two vertices.
    pub fn segment(&self, from: u32, to: u32) -> BridgeLine
        ensures { result ≡ segment_of (plane_at self.now) from to }
    {
        BridgeLine {
            from: self.vertex(from),
            to: self.vertex(to),
        }
    }
}

// The lesser of two coordinates.
fn lesser_of(a: i64, b: i64) -> i32
    requires a_grid { IsOnGrid a }
    requires b_grid { IsOnGrid b }
    ensures value { result ≡ int_min a b }
    ensures on_grid { IsOnGrid result }
{
    a.min(b) as i32
}

// The greater one.
fn greater_of(a: i64, b: i64) -> i32
    requires a_grid { IsOnGrid a }
    requires b_grid { IsOnGrid b }
    ensures value { result ≡ int_max a b }
    ensures on_grid { IsOnGrid result }
{
    a.max(b) as i32
}

/// The lesser coordinates of two points.
pub fn lesser(a: FlatPoint, b: FlatPoint) -> FlatPoint
    ensures { result ≡ (int_min a.0 b.0, int_min a.1 b.1) }
{
    let u = lesser_of(a.u(), b.u());
    let v = lesser_of(a.v(), b.v());
    FlatPoint::of(u, v)
}

/// The greater ones.
pub fn greater(a: FlatPoint, b: FlatPoint) -> FlatPoint
    ensures { result ≡ (int_max a.0 b.0, int_max a.1 b.1) }
{
    let u = greater_of(a.u(), b.u());
    let v = greater_of(a.v(), b.v());
    FlatPoint::of(u, v)
}
