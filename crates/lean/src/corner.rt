// Points of the grid as corners in fine steps.
ghost use Rattle.std.specs.Prelude.{◌≡◌, ◌≤◌, ◌*ℤ◌, unsigned_abs};
ghost use Rattle.side_terms.specs.Corners.{IsFineCorner};
ghost use Rattle.side_terms.specs.Sides.{corner_of};

use mb_base::{Corner, Point, UNIT};

/// The corner of a point with its marks, one for each axis on which it counts as moved up. Each coordinate is taken
/// from grid steps to fine steps.
pub fn corner_of(point: Point, up: [bool; 3]) -> Corner
    ensures value { result ≡ corner_of point up }
    ensures fine { IsFineCorner result }
{
    let [x, y, z] = point.at();
    Corner {
        at: [
            fine_steps(x, UNIT),
            fine_steps(y, UNIT),
            fine_steps(z, UNIT),
        ],
        up,
    }
}

/// A coordinate in fine steps, so many of which make a grid step.
#[inline]
pub fn fine_steps(coordinate: i32, unit: i64) -> i64
    requires { unsigned_abs unit ≤ 256 }
    ensures { result ≡ unit *ℤ coordinate }
{
    unit * coordinate as i64
}
