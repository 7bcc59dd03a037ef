// Places as they are seen in a plane.
ghost use Rattle.std.specs.Prelude.{◌≡◌, ◌<◌, length};
ghost use Rattle.std.specs.List.{All};
ghost use Rattle.face_plane.specs.Planes.{face_plane};
ghost use Rattle.plane_chains.specs.EdgeBoxes.{edge_box, pair_of};

use face_plane::{FacePlane, FlatPoint};
use mb_base::{Box3, Point};

/// The places of a mesh as they are seen in a plane: by the axis that it drops, and whether the two others are exchanged.
#[derive(Clone, Copy, Drop)]
pub struct FlatPlaces<'a> {
    pub plane: FacePlane,
    pub turned: bool,
    pub points: &'a [Point],
}

impl FlatPlaces<'_> {
    /// Where a place is.
    #[inline]
    pub fn at(&self, place: u32) -> FlatPoint
        requires { place < length self.now.points.now }
        ensures { result ≡ face_plane self.now.plane.drop self.now.turned self.now.points.now place }
    {
        self.plane.flat(self.turned, self.points[place as usize])
    }

    /// The box round an edge, in the plane where the third coordinate is 0.
    pub fn box_of(&self, edge: [u32; 2]) -> Box3
        requires { All (λ v. v < length self.now.points.now) edge }
        ensures { result ≡ edge_box (face_plane self.now.plane.drop self.now.turned self.now.points.now) (pair_of edge) }
    {
        let (a, b) = (self.at(edge[0]), self.at(edge[1]));
        Box3 {
            low: [a.u().min(b.u()), a.v().min(b.v()), 0],
            high: [a.u().max(b.u()), a.v().max(b.v()), 0],
        }
    }
}
