// Boxes of corners.
ghost use Rattle.std.specs.Prelude.{◌≡◌, ◌<◌, length, map};
ghost use Rattle.mb_base.specs.Boxes.{axis as coordinate_on, box_of, greatest, least, IsLeastBox};

use crate::point::{Box3, Corner};

/// The least box that holds the corners: on each axis from their least coordinate to their greatest.
#[inline]
pub fn box_of(corners: &[Corner]) -> Box3
    requires { 0 < length corners.now }
    ensures value { result ≡ box_of corners.now }
    ensures least { IsLeastBox corners.now result }
{
    Box3 {
        low: [
            least_on(corners, 0),
            least_on(corners, 1),
            least_on(corners, 2),
        ],
        high: [
            greatest_on(corners, 0),
            greatest_on(corners, 1),
            greatest_on(corners, 2),
        ],
    }
}

// The least coordinate on an axis.
#[inline]
fn least_on(corners: &[Corner], axis: usize) -> i64
    requires some { 0 < length corners.now }
    requires axis { axis < 3 }
    ensures { result ≡ least (map (coordinate_on axis) corners.now) }
{
    let mut least = corners[0].at[axis];
    for corner in corners {
        least = least.min(corner.at[axis]);
    }
    least
}

// The greatest coordinate on an axis.
#[inline]
fn greatest_on(corners: &[Corner], axis: usize) -> i64
    requires some { 0 < length corners.now }
    requires axis { axis < 3 }
    ensures { result ≡ greatest (map (coordinate_on axis) corners.now) }
{
    let mut greatest = corners[0].at[axis];
    for corner in corners {
        greatest = greatest.max(corner.at[axis]);
    }
    greatest
}
