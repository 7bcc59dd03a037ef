// Planes by their normals and levels.
ghost use Rattle.std.specs.Prelude.{◌≡◌, ◌≤◌, ◌^◌, ◌+ℤ◌, ◌*ℤ◌, ◌<ℤ◌, cond, int_div, neg_ℤ, pos, false, true, IfNone, IfSome, unsigned_abs};
ghost use Rattle.std.specs.List.{All};
ghost use Rattle.mesh_terms.specs.Points.{IsOnGrid, cross_product};
ghost use Rattle.plane_groups.specs.Keys.{divisor_of_three, front_normal, key_of};
ghost use Rattle.sheet_terms.specs.Cuts.{are_in_line, is_none, scalar};
ghost use Rattle.sheet_terms.specs.Twins.{is_up};

use edge_cutting::common_divisor;
use mb_base::{Point, cross};

/// A plane: its front normal in whole numbers without a common divisor, and the scalar product of each of its points with it.
#[derive(Clone, Copy, Debug, PartialEq, Eq, Hash, Drop)]
pub struct PlaneKey {
    pub normal: [i128; 3],
    pub level: i128,
}

/// The plane of a triangle, and whether the triangle faces its front.
#[derive(Clone, Copy, Debug, Drop)]
pub struct Facing {
    pub plane: PlaneKey,
    pub front: bool,
}

impl Facing {
    /// The plane of the triangle of three points, and the side that it faces. None where it is flat.
    pub fn of(a: Point, b: Point, c: Point) -> Option<Facing>
        ensures flat { IfNone result (are_in_line a b c ≡ true) }
        ensures bent { IfSome result (λ f. are_in_line a b c ≡ false) }
        ensures plane { IfSome result (λ f. f.plane ≡ key_of a b c) }
        ensures front { IfSome result (λ f. f.front ≡ is_up (cross_product a b c)) }
    {
        let longer = cross(a, b, c);
        if longer == [0, 0, 0] {
            return None;
        }
        let front = is_front(longer);
        let normal = primitive(longer, front);
        let level = scalar(normal, a);
        Some(Facing {
            plane: PlaneKey { normal, level },
            front,
        })
    }
}

// Whether the first coordinate other than 0 is positive.
fn is_front(normal: [i128; 3]) -> bool
    ensures { result ≡ is_up normal }
{
    let [x, y, z] = normal;
    x > 0 || x == 0 && (y > 0 || y == 0 && z > 0)
}

// The normal without a common divisor, turned over where it isn't a front one.
fn primitive(normal: [i128; 3], front: bool) -> [i128; 3]
    requires small { All (λ n. unsigned_abs n ≤ 2 ^ 63) normal }
    requires front { front ≡ is_up normal }
    requires some { is_none normal ≡ false }
    ensures value { result ≡ front_normal normal }
    ensures small { All (λ n. unsigned_abs n ≤ 2 ^ 63) result }
{
    let [x, y, z] = normal;
    let common = divisor_of(x, y, z);
    [
        front_part(x, common, front),
        front_part(y, common, front),
        front_part(z, common, front),
    ]
}

// The greatest common divisor of three numbers.
fn divisor_of(x: i128, y: i128, z: i128) -> i128
    requires x { unsigned_abs x ≤ 2 ^ 63 }
    requires y { unsigned_abs y ≤ 2 ^ 63 }
    requires z { unsigned_abs z ≤ 2 ^ 63 }
    ensures { result ≡ pos (divisor_of_three (unsigned_abs x) (unsigned_abs y) (unsigned_abs z)) }
{
    i128::from(common_divisor(
        x.unsigned_abs() as u64,
        y.unsigned_abs() as u64,
        z.unsigned_abs() as u64,
    ))
}

// A coordinate without the common divisor, turned over where the normal isn't a front one.
fn front_part(z: i128, common: i128, front: bool) -> i128
    requires small { unsigned_abs z ≤ 2 ^ 63 }
    requires some { pos 0 <ℤ common }
    ensures value { result ≡ cond front (int_div z common) (neg_ℤ (int_div z common)) }
    ensures small { unsigned_abs result ≤ 2 ^ 63 }
{
    let part = z / common;
    if front { part } else { -part }
}

// The scalar product of a normal and a point.
fn scalar(normal: [i128; 3], point: Point) -> i128
    requires { All (λ n. unsigned_abs n ≤ 2 ^ 63) normal }
    ensures { result ≡ scalar normal point }
{
    let [x, y, z] = point.at();
    sum(
        product(normal[0], x),
        product(normal[1], y),
        product(normal[2], z),
    )
}

// The product of a coordinate of a normal and one of a point.
fn product(n: i128, p: i32) -> i128
    requires small { unsigned_abs n ≤ 2 ^ 63 }
    requires on_grid { IsOnGrid p }
    ensures value { result ≡ n *ℤ p }
    ensures small { unsigned_abs result ≤ 2 ^ 93 }
{
    n * i128::from(p)
}

// The sum of three such.
fn sum(x: i128, y: i128, z: i128) -> i128
    requires x_small { unsigned_abs x ≤ 2 ^ 93 }
    requires y_small { unsigned_abs y ≤ 2 ^ 93 }
    requires z_small { unsigned_abs z ≤ 2 ^ 93 }
    ensures { result ≡ (x +ℤ y) +ℤ z }
{
    x + y + z
}
