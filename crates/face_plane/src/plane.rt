// The plane of a face.
ghost use Rattle.std.specs.Prelude.{◌≡◌, ◌<◌};
ghost use Rattle.face_plane.specs.Planes.{greatest_axis, plane_drop, flat_at};

use crate::FlatPoint;
use mb_base::{Point, cross};

/// The plane of a face, by the axis that it drops: 0 for x, 1 for y, 2 for z.
#[derive(Clone, Copy, Debug, PartialEq, Eq, Drop)]
pub struct FacePlane {
    pub drop: u8,
}

impl FacePlane {
    /// The plane of the face with these three points: it drops the axis along which their cross product is longest, and of
    /// equally long ones the last of x, y and z.
    pub fn of(a: Point, b: Point, c: Point) -> FacePlane
        ensures axis { result.drop ≡ plane_drop a b c }
        ensures below { result.drop < 3 }
    {
        let [x, y, z] = cross(a, b, c);
        let drop = greatest(x.unsigned_abs(), y.unsigned_abs(), z.unsigned_abs());
        FacePlane { drop }
    }

    /// A point in this plane: (x, y) where z is dropped, (z, x) where y is, (y, z) where x is; the two exchanged where
    /// the plane is turned.
    pub fn flat(self, turned: bool, point: Point) -> FlatPoint
        ensures { result ≡ flat_at self.drop turned point }
    {
        let [x, y, z] = point.at();
        let (u, v) = match self.drop {
            2 => (x, y),
            1 => (z, x),
            _ => (y, z),
        };
        if turned {
            FlatPoint::of(v, u)
        } else {
            FlatPoint::of(u, v)
        }
    }
}

// The axis of the greatest of three sizes.
fn greatest(x: u128, y: u128, z: u128) -> u8
    ensures axis { result ≡ greatest_axis x y z }
    ensures below { result < 3 }
{
    if z >= x && z >= y {
        2
    } else if y >= x {
        1
    } else {
        0
    }
}
