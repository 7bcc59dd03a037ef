// Points of a plane.
ghost use Rattle.std.specs.Prelude.{◌≡◌, ◌≤◌, ◌^◌, pos, ◌-ℤ◌, ◌*ℤ◌, int_lt, int_le, unsigned_abs};
ghost use Rattle.mesh_terms.specs.Points.{IsOnGrid};
ghost use Rattle.face_plane.specs.Planes.{turn, wedge, squared_distance};

use std::marker::Model;

/// A point in the plane of a face: two coordinates of the grid, each at most 2^30 grid steps in size.
#[derive(Clone, Copy, Debug, PartialEq, Eq, Drop)]
pub struct FlatPoint {
    u: i32,
    v: i32,
}

impl Model for FlatPoint {
    ghost use Rattle.std.specs.Prelude.{ℤ};
    ghost use Rattle.mesh_terms.specs.Points.{IsOnGrid};

    ghost Value = { ℤ × ℤ };

    ghost view = { λ p. (p.u, p.v) };

    ghost invariant = { λ p. IsOnGrid p.u × IsOnGrid p.v };

    ghost inverse = { λ p. record { u = p.0; v = p.1 } };
}

impl FlatPoint {
    /// The point with these coordinates.
    pub fn of(u: i32, v: i32) -> FlatPoint
        requires u_on_grid { IsOnGrid u }
        requires v_on_grid { IsOnGrid v }
        ensures { result ≡ (u, v) }
    {
        FlatPoint { u, v }
    }

    /// The first coordinate.
    pub fn u(self) -> i64
        ensures value { result ≡ self.0 }
        ensures on_grid { IsOnGrid result }
    {
        i64::from(self.u)
    }

    /// The second coordinate.
    pub fn v(self) -> i64
        ensures value { result ≡ self.1 }
        ensures on_grid { IsOnGrid result }
    {
        i64::from(self.v)
    }

    /// Whether the way from a over b to c turns left.
    pub fn turns_left(a: FlatPoint, b: FlatPoint, c: FlatPoint) -> bool
        ensures { result ≡ int_lt (pos 0) (turn a b c) }
    {
        against(a, b, c) < along(a, b, c)
    }

    /// Whether it turns right.
    pub fn turns_right(a: FlatPoint, b: FlatPoint, c: FlatPoint) -> bool
        ensures { result ≡ int_lt (turn a b c) (pos 0) }
    {
        along(a, b, c) < against(a, b, c)
    }

    /// Whether it turns left or lies on a line.
    pub fn keeps_left(a: FlatPoint, b: FlatPoint, c: FlatPoint) -> bool
        ensures { result ≡ int_le (pos 0) (turn a b c) }
    {
        against(a, b, c) <= along(a, b, c)
    }

    /// The squared distance of two points, at most 2^63.
    pub fn squared_distance(a: FlatPoint, b: FlatPoint) -> u64
        ensures { pos result ≡ squared_distance a b }
    {
        square(step(a.u(), b.u())) + square(step(a.v(), b.v()))
    }

    /// The doubled area of the origin and two points, at most 2^61 in size.
    pub fn wedge(a: FlatPoint, b: FlatPoint) -> i64
        ensures value { result ≡ wedge a b }
        ensures small { unsigned_abs result ≤ 2 ^ 61 }
    {
        grid_product(a.u(), b.v()) - grid_product(b.u(), a.v())
    }
}

// How far it is from one coordinate to another.
fn step(from: i64, to: i64) -> i64
    requires from_grid { IsOnGrid from }
    requires to_grid { IsOnGrid to }
    ensures value { result ≡ to -ℤ from }
    ensures small { unsigned_abs result ≤ 2 ^ 31 }
{
    to - from
}

// The product of two steps.
fn product(x: i64, y: i64) -> i64
    requires x_small { unsigned_abs x ≤ 2 ^ 31 }
    requires y_small { unsigned_abs y ≤ 2 ^ 31 }
    ensures value { result ≡ x *ℤ y }
    ensures small { unsigned_abs result ≤ 2 ^ 62 }
{
    x * y
}

// The product of two coordinates.
fn grid_product(x: i64, y: i64) -> i64
    requires x_grid { IsOnGrid x }
    requires y_grid { IsOnGrid y }
    ensures value { result ≡ x *ℤ y }
    ensures small { unsigned_abs result ≤ 2 ^ 60 }
{
    x * y
}

// The product that is added in a turn.
fn along(a: FlatPoint, b: FlatPoint, c: FlatPoint) -> i64
    ensures { result ≡ (b.0 -ℤ a.0) *ℤ (c.1 -ℤ a.1) }
{
    product(step(a.u(), b.u()), step(a.v(), c.v()))
}

// The product that is taken away in a turn.
fn against(a: FlatPoint, b: FlatPoint, c: FlatPoint) -> i64
    ensures { result ≡ (b.1 -ℤ a.1) *ℤ (c.0 -ℤ a.0) }
{
    product(step(a.v(), b.v()), step(a.u(), c.u()))
}

// The square of a step.
fn square(x: i64) -> u64
    requires { unsigned_abs x ≤ 2 ^ 31 }
    ensures value { pos result ≡ x *ℤ x }
    ensures small { result ≤ 2 ^ 62 }
{
    let size = x.unsigned_abs();
    size * size
}
