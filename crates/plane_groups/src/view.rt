// Planes as they are seen from one side.
ghost use Rattle.std.specs.Prelude.{◌≡◌, not, pos, int_lt};
ghost use Rattle.face_plane.specs.Planes.{flat_at, plane_drop};
ghost use Rattle.mesh_terms.specs.Points.{coordinate_of, cross_product};

use face_plane::{FacePlane, FlatPoint};
use mb_base::{Point, cross};

/// A plane as it is seen from one of its sides: what faces that side turns left.
#[derive(Clone, Copy, Debug, PartialEq, Eq, Drop)]
pub struct PlaneView {
    pub plane: FacePlane,
    pub turned: bool,
}

impl PlaneView {
    /// The plane of a triangle that isn't flat, as it is seen from the side that the triangle faces.
    pub fn towards(a: Point, b: Point, c: Point) -> PlaneView
        ensures drop { result.plane.drop ≡ plane_drop a b c }
        ensures turned { result.turned ≡ int_lt (coordinate_of (cross_product a b c) (plane_drop a b c)) (pos 0) }
    {
        let plane = FacePlane::of(a, b, c);
        let turned = cross(a, b, c)[plane.drop as usize] < 0;
        PlaneView { plane, turned }
    }

    /// The same plane from the other side.
    pub fn behind(self) -> PlaneView
        ensures drop { result.plane ≡ self.plane }
        ensures turned { result.turned ≡ not self.turned }
    {
        PlaneView {
            plane: self.plane,
            turned: !self.turned,
        }
    }

    /// A point of the plane.
    pub fn flat(self, point: Point) -> FlatPoint
        ensures { result ≡ flat_at self.plane.drop self.turned point }
    {
        self.plane.flat(self.turned, point)
    }
}
