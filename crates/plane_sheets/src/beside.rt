// How edges pass the place beside another.
ghost use Rattle.std.specs.Prelude.{◌≡◌, ◌≤◌, ◌^◌, ◌+ℤ◌, ◌-ℤ◌, ◌*ℤ◌, pos, int_lt, unsigned_abs};
ghost use Rattle.mesh_terms.specs.Points.{IsOnGrid};
ghost use Rattle.sheet_terms.specs.Numbers.{beside, crossing, first_of_three, height};
ghost use Rattle.plane_sheets.specs.Crossed.{times};

use face_plane::FlatPoint;

/// How an edge crosses the ray along u from the place just left of the middle of the edge from a to b: upward, downward, or not.
#[derive(Clone, Copy, Debug, PartialEq, Eq, Drop)]
pub enum Passes {
    Up,
    Down,
    No,
}

/// How the edge from p to q crosses that ray.
pub fn crossing(a: FlatPoint, b: FlatPoint, p: FlatPoint, q: FlatPoint) -> Passes
    ensures { times result ≡ crossing a b p q }
{
    let from_below = is_below(a, b, p);
    let to_below = is_below(a, b, q);
    if from_below == to_below {
        return Passes::No;
    }
    let side = side(a, b, p, q);
    if from_below {
        if side > 0 { Passes::Up } else { Passes::No }
    } else if side < 0 {
        Passes::Down
    } else {
        Passes::No
    }
}

// Whether p lies lower than the place beside the edge from a to b.
fn is_below(a: FlatPoint, b: FlatPoint, p: FlatPoint) -> bool
    ensures { result ≡ int_lt (height a b p) (pos 0) }
{
    let over = i128::from(over_middle(a.v(), b.v(), p.v()));
    let fall = i128::from(step(b.v(), a.v()));
    let back = i128::from(step(b.u(), a.u()));
    first_of_three(over, fall, back) < 0
}

// Above 0 where that place lies left of the edge from p to q, below 0 where it lies right of it.
fn side(a: FlatPoint, b: FlatPoint, p: FlatPoint, q: FlatPoint) -> i128
    ensures { result ≡ beside a b p q }
{
    let (eu, ev) = (step(p.u(), q.u()), step(p.v(), q.v()));
    let (du, dv) = (step(a.u(), b.u()), step(a.v(), b.v()));
    let (mu, mv) = (
        to_middle(a.u(), b.u(), p.u()),
        to_middle(a.v(), b.v(), p.v()),
    );
    first_of_three(
        turned(eu, ev, mu, mv),
        turned(eu, ev, du, dv),
        scalar(eu, ev, du, dv),
    )
}

// The first of three numbers that isn't 0.
fn first_of_three(x: i128, y: i128, z: i128) -> i128
    ensures { result ≡ first_of_three x y z }
{
    if x != 0 {
        x
    } else if y != 0 {
        y
    } else {
        z
    }
}

// How far it is from one coordinate to another.
fn step(from: i64, to: i64) -> i64
    requires from_grid { IsOnGrid from }
    requires to_grid { IsOnGrid to }
    ensures value { result ≡ to -ℤ from }
    ensures small { unsigned_abs result ≤ 2 ^ 32 }
{
    to - from
}

// How far p is over the middle of two coordinates, doubled.
fn over_middle(a: i64, b: i64, p: i64) -> i64
    requires a_grid { IsOnGrid a }
    requires b_grid { IsOnGrid b }
    requires p_grid { IsOnGrid p }
    ensures value { result ≡ pos 2 *ℤ p -ℤ (a +ℤ b) }
{
    2 * p - (a + b)
}

// How far it is from p to the middle of two coordinates, doubled.
fn to_middle(a: i64, b: i64, p: i64) -> i64
    requires a_grid { IsOnGrid a }
    requires b_grid { IsOnGrid b }
    requires p_grid { IsOnGrid p }
    ensures value { result ≡ a +ℤ b -ℤ pos 2 *ℤ p }
    ensures small { unsigned_abs result ≤ 2 ^ 32 }
{
    a + b - 2 * p
}

// The cross product of two directions.
fn turned(eu: i64, ev: i64, du: i64, dv: i64) -> i128
    requires eu_small { unsigned_abs eu ≤ 2 ^ 32 }
    requires ev_small { unsigned_abs ev ≤ 2 ^ 32 }
    requires du_small { unsigned_abs du ≤ 2 ^ 32 }
    requires dv_small { unsigned_abs dv ≤ 2 ^ 32 }
    ensures { result ≡ eu *ℤ dv -ℤ ev *ℤ du }
{
    product(eu, dv) - product(ev, du)
}

// Their scalar product.
fn scalar(eu: i64, ev: i64, du: i64, dv: i64) -> i128
    requires eu_small { unsigned_abs eu ≤ 2 ^ 32 }
    requires ev_small { unsigned_abs ev ≤ 2 ^ 32 }
    requires du_small { unsigned_abs du ≤ 2 ^ 32 }
    requires dv_small { unsigned_abs dv ≤ 2 ^ 32 }
    ensures { result ≡ eu *ℤ du +ℤ ev *ℤ dv }
{
    product(eu, du) + product(ev, dv)
}

// A product of differences.
fn product(x: i64, y: i64) -> i128
    requires x_small { unsigned_abs x ≤ 2 ^ 32 }
    requires y_small { unsigned_abs y ≤ 2 ^ 32 }
    ensures value { result ≡ x *ℤ y }
    ensures small { unsigned_abs result ≤ 2 ^ 64 }
{
    i128::from(x) * i128::from(y)
}
