// The points of corners.
ghost use Rattle.std.specs.Prelude.{◌≡◌};
ghost use Rattle.std.specs.Int.{int_div_euclid};
ghost use Rattle.side_terms.specs.Points.{point_of};
ghost use Rattle.mb_base.specs.declared.TheConstants.{UNIT};
ghost use Rattle.mesh_terms.specs.Points.{IsOnGrid};
ghost use Rattle.side_terms.specs.Corners.{IsFineCorner};
ghost use Rattle.side_terms.specs.Fine.{IsFine};

use mb_base::{Corner, Point, UNIT};

/// The point of the grid at which a corner lies: each coordinate in grid steps, rounded down.
pub fn point_of(corner: &Corner) -> Point
    requires { IsFineCorner corner.now }
    ensures { result ≡ point_of corner.now }
{
    let [x, y, z] = corner.at;
    Point::of(grid_step(x), grid_step(y), grid_step(z)).unwrap()
}

// A fine coordinate in grid steps, rounded down. The unit is a power of two, so that a shift divides by it.
fn grid_step(coordinate: i64) -> i32
    requires { IsFine coordinate }
    ensures value { result ≡ int_div_euclid coordinate UNIT }
    ensures on_grid { IsOnGrid result }
{
    (coordinate >> UNIT.trailing_zeros()) as i32
}
