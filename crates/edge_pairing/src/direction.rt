// Directions, and how far along one a point lies.
//
// Keys of a pairing are 64 bits wide: three products of a coordinate (at most 2^30) and a step (at most 2^31) add up
// to at most 3 * 2^61. Along an axis and along an edge are one code.
ghost use Rattle.std.specs.Prelude.{◌≡◌, ◌<◌, ◌≤◌, ◌^◌, ◌-ℤ◌, ◌*ℤ◌, unsigned_abs};
ghost use Rattle.edge_pairing.specs.Directions.{IsShort, axis_step};
ghost use Rattle.edge_pairing.specs.Pairing.{scalar_product, step};

use mb_base::Point;

/// From one point to another.
pub fn direction(a: Point, b: Point) -> [i64; 3]
    ensures value { result ≡ step a b }
    ensures short { IsShort result }
{
    let [ax, ay, az] = a.at();
    let [bx, by, bz] = b.at();
    [distance(ax, bx), distance(ay, by), distance(az, bz)]
}

// How far it is from one coordinate to another.
fn distance(from: i32, to: i32) -> i64
    requires from_grid { unsigned_abs from ≤ 2 ^ 30 }
    requires to_grid { unsigned_abs to ≤ 2 ^ 30 }
    ensures value { result ≡ to -ℤ from }
    ensures small { unsigned_abs result ≤ 2 ^ 31 }
{
    i64::from(to) - i64::from(from)
}

/// One step along an axis.
pub fn axis_direction(axis: usize) -> [i64; 3]
    ensures value { result ≡ axis_step axis }
    ensures short { IsShort result }
{
    match axis {
        0 => [1, 0, 0],
        1 => [0, 1, 0],
        _ => [0, 0, 1],
    }
}

/// The scalar product of a point and a direction: at most 3 * 2^61 in size, which fits 64 bits.
pub fn key(point: Point, along: &[i64; 3]) -> i64
    requires { IsShort along.now }
    ensures { result ≡ scalar_product along.now point }
{
    let [x, y, z] = point.at();
    product(x, along[0]) + product(y, along[1]) + product(z, along[2])
}

// The product of a coordinate and a step.
fn product(coordinate: i32, step: i64) -> i64
    requires on_grid { unsigned_abs coordinate ≤ 2 ^ 30 }
    requires short { unsigned_abs step ≤ 2 ^ 31 }
    ensures value { result ≡ step *ℤ coordinate }
    ensures small { unsigned_abs result ≤ 2 ^ 61 }
{
    step * i64::from(coordinate)
}
