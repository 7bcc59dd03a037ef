//! Exact numbers: distances of corners, their products, and signs.

ghost use Rattle.std.specs.Prelude.{◌≡◌, ◌≤◌, ◌<◌, ◌^◌, ◌+ℤ◌, ◌-ℤ◌, ◌*ℤ◌, unsigned_abs};
ghost use Rattle.side_terms.specs.Corners.{axis, IsFineCorner};
ghost use Rattle.plane_laws.specs.Decisions.{same_sign};

use mb_base::Corner;

/// How far it is from one corner to another on an axis.
pub(crate) fn way(i: usize, from: &Corner, to: &Corner) -> i64
    requires i { i < 3 }
    requires from_fine { IsFineCorner from.now }
    requires to_fine { IsFineCorner to.now }
    ensures value { result ≡ axis i to.now -ℤ axis i from.now }
    ensures small { unsigned_abs result ≤ 2 ^ 39 }
{
    to.at[i] - from.at[i]
}

/// The product of two distances.
pub(crate) fn product(x: i64, y: i64) -> i128
    requires x_small { unsigned_abs x ≤ 2 ^ 39 }
    requires y_small { unsigned_abs y ≤ 2 ^ 39 }
    ensures value { result ≡ x *ℤ y }
    ensures small { unsigned_abs result ≤ 2 ^ 78 }
{
    x as i128 * y as i128
}

/// The difference of two products.
pub(crate) fn less(x: i128, y: i128) -> i128
    requires x_small { unsigned_abs x ≤ 2 ^ 78 }
    requires y_small { unsigned_abs y ≤ 2 ^ 78 }
    ensures value { result ≡ x -ℤ y }
    ensures small { unsigned_abs result ≤ 2 ^ 79 }
{
    x - y
}

/// The sum of two products.
pub(crate) fn plus(x: i128, y: i128) -> i128
    requires x_small { unsigned_abs x ≤ 2 ^ 78 }
    requires y_small { unsigned_abs y ≤ 2 ^ 78 }
    ensures value { result ≡ x +ℤ y }
    ensures small { unsigned_abs result ≤ 2 ^ 79 }
{
    x + y
}

/// One number of a normal times a distance.
pub(crate) fn part(n: i128, x: i64) -> i128
    requires n_small { unsigned_abs n ≤ 2 ^ 79 }
    requires x_small { unsigned_abs x ≤ 2 ^ 39 }
    ensures value { result ≡ n *ℤ x }
    ensures small { unsigned_abs result ≤ 2 ^ 118 }
{
    n * x as i128
}

/// The sum of three such.
pub(crate) fn sum(x: i128, y: i128, z: i128) -> i128
    requires x_small { unsigned_abs x ≤ 2 ^ 118 }
    requires y_small { unsigned_abs y ≤ 2 ^ 118 }
    requires z_small { unsigned_abs z ≤ 2 ^ 118 }
    ensures value { result ≡ x +ℤ y +ℤ z }
    ensures small { unsigned_abs result < 2 ^ 120 }
{
    x + y + z
}

/// Whether both are above 0, or both below it.
pub(crate) fn same_sign(x: i128, y: i128) -> bool
    ensures { result ≡ same_sign x y }
{
    (0 < x && 0 < y) || (x < 0 && y < 0)
}
