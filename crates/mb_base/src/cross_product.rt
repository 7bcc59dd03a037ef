// The cross product of points.
ghost use Rattle.std.specs.Prelude.{◌≡◌, ◌≤◌, ◌<◌, ◌^◌, ◌-ℤ◌, ◌*ℤ◌, unsigned_abs};
ghost use Rattle.std.specs.List.{All};
ghost use Rattle.mesh_terms.specs.Points.{coordinate_of, cross_on, cross_product};

use crate::point::Point;

/// The cross product of `b - a` and `c - a`, in square grid steps: normal to the plane of the three points, and as long
/// as twice the area of their triangle.
pub fn cross(a: Point, b: Point, c: Point) -> [i128; 3]
    ensures value { result ≡ cross_product a b c }
    ensures small { All (λ n. unsigned_abs n ≤ 2 ^ 63) result }
{
    [
        cross_on(1, 2, a, b, c),
        cross_on(2, 0, a, b, c),
        cross_on(0, 1, a, b, c),
    ]
}

// One coordinate of it; `i` and `j` are the two axes after its own.
fn cross_on(i: usize, j: usize, a: Point, b: Point, c: Point) -> i128
    requires i { i < 3 }
    requires j { j < 3 }
    ensures value { result ≡ cross_on i j a b c }
    ensures small { unsigned_abs result ≤ 2 ^ 63 }
{
    product(step(i, a, b), step(j, a, c)) - product(step(j, a, b), step(i, a, c))
}

// How far it is from one point to another on an axis.
fn step(axis: usize, from: Point, to: Point) -> i64
    requires { axis < 3 }
    ensures value { result ≡ coordinate_of to axis -ℤ coordinate_of from axis }
    ensures small { unsigned_abs result ≤ 2 ^ 31 }
{
    i64::from(to.at()[axis]) - i64::from(from.at()[axis])
}

// The product of two steps.
fn product(x: i64, y: i64) -> i128
    requires x_small { unsigned_abs x ≤ 2 ^ 31 }
    requires y_small { unsigned_abs y ≤ 2 ^ 31 }
    ensures value { result ≡ x *ℤ y }
    ensures small { unsigned_abs result ≤ 2 ^ 62 }
{
    x as i128 * y as i128
}
