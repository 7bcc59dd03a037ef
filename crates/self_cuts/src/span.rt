// The least box that holds all points.
ghost use Rattle.std.specs.Prelude.{◌≡◌, ◌<◌, ◌∷◌, [], get_or, map, pos};
ghost use Rattle.mb_base.specs.Boxes.{greatest, least};
ghost use Rattle.mesh_terms.specs.Points.{coordinate_of, IsOnGrid};
ghost use Rattle.inspection_terms.specs.Inspected.{high_corner, low_corner};

use mb_base::Point;

/// The lesser corner; of no points 0, 0, 0.
pub fn low_corner(points: &[Point]) -> Point
    ensures { result ≡ low_corner points.now }
{
    point_at(
        least_on(points, 0),
        least_on(points, 1),
        least_on(points, 2),
    )
}

/// The greater corner.
pub fn high_corner(points: &[Point]) -> Point
    ensures { result ≡ high_corner points.now }
{
    point_at(
        greatest_on(points, 0),
        greatest_on(points, 1),
        greatest_on(points, 2),
    )
}

// The point with coordinates on the grid.
fn point_at(x: i32, y: i32, z: i32) -> Point
    requires x { IsOnGrid x }
    requires y { IsOnGrid y }
    requires z { IsOnGrid z }
    ensures { result ≡ x ∷ y ∷ z ∷ [] }
{
    match Point::of(x, y, z) {
        Some(point) => point,
        // All three are on the grid.
        None => unreachable!(),
    }
}

// A coordinate of a point.
#[inline]
fn coordinate(point: &Point, axis: usize) -> i32
    requires { axis < 3 }
    ensures value { result ≡ coordinate_of point.now axis }
    ensures on_grid { IsOnGrid result }
{
    point.at()[axis]
}

// That of the first point; of no points 0.
fn first_on(points: &[Point], axis: usize) -> i32
    requires { axis < 3 }
    ensures on_grid { IsOnGrid result }
    ensures value { result ≡ get_or (map (λ p. coordinate_of p axis) points.now) 0 (pos 0) }
{
    match points {
        [first, ..] => coordinate(first, axis),
        [] => 0,
    }
}

// The least coordinate on an axis; of no points 0.
fn least_on(points: &[Point], axis: usize) -> i32
    requires { axis < 3 }
    ensures on_grid { IsOnGrid result }
    ensures value { result ≡ least (map (λ p. coordinate_of p axis) points.now) }
{
    let mut least = first_on(points, axis);
    for point in points {
        least = least.min(coordinate(point, axis));
    }
    least
}

// The greatest coordinate on an axis; of no points 0.
fn greatest_on(points: &[Point], axis: usize) -> i32
    requires { axis < 3 }
    ensures on_grid { IsOnGrid result }
    ensures value { result ≡ greatest (map (λ p. coordinate_of p axis) points.now) }
{
    let mut greatest = first_on(points, axis);
    for point in points {
        greatest = greatest.max(coordinate(point, axis));
    }
    greatest
}
