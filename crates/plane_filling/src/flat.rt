// Places as they are seen in a plane.
ghost use Rattle.std.specs.Prelude.{◌≡◌};
ghost use Rattle.plane_filling.specs.Begun.{seen_in};

use face_plane::FlatPoint;
use mb_base::Point;
use plane_groups::PlaneView;

/// The points of places, seen from one side of a plane.
#[derive(Clone, Copy, Drop)]
pub struct FlatPoints<'a> {
    pub view: PlaneView,
    pub points: &'a [Point],
}

impl FlatPoints<'_> {
    /// Where a place is seen; at the origin where it has no point.
    pub fn at(&self, place: u32) -> FlatPoint
        ensures { result ≡ seen_in self.now place }
    {
        match self.points.get(place as usize) {
            Some(point) => self.view.flat(*point),
            None => FlatPoint::of(0, 0),
        }
    }
}
