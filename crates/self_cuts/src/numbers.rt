// Ways, products and sums, with bounds.
ghost use Rattle.std.specs.Prelude.{◌≡◌, ◌≤◌, ◌^◌, ◌+ℤ◌, ◌-ℤ◌, ◌*ℤ◌, unsigned_abs};
ghost use Rattle.mesh_terms.specs.Points.{IsOnGrid};

/// How far it is from one coordinate to another.
#[inline]
pub fn way(from: i64, to: i64) -> i64
    requires from_on_grid { IsOnGrid from }
    requires to_on_grid { IsOnGrid to }
    ensures value { result ≡ to -ℤ from }
    ensures small { unsigned_abs result ≤ 2 ^ 31 }
{
    to - from
}

/// The product of two such.
#[inline]
pub fn product(x: i64, y: i64) -> i64
    requires x_small { unsigned_abs x ≤ 2 ^ 31 }
    requires y_small { unsigned_abs y ≤ 2 ^ 31 }
    ensures value { result ≡ x *ℤ y }
    ensures small { unsigned_abs result ≤ 2 ^ 62 }
{
    x * y
}

/// The difference of two products that is no greater than each of them may be.
#[inline]
pub fn less(x: i64, y: i64) -> i64
    requires { unsigned_abs (x -ℤ y) ≤ 2 ^ 62 }
    ensures value { result ≡ x -ℤ y }
    ensures small { unsigned_abs result ≤ 2 ^ 62 }
{
    x - y
}

/// One number of a normal times a way.
#[inline]
pub fn part(n: i64, x: i64) -> i128
    requires n_small { unsigned_abs n ≤ 2 ^ 62 }
    requires x_small { unsigned_abs x ≤ 2 ^ 31 }
    ensures value { result ≡ n *ℤ x }
    ensures small { unsigned_abs result ≤ 2 ^ 93 }
{
    n as i128 * x as i128
}

/// The sum of three such.
#[inline]
pub fn sum(x: i128, y: i128, z: i128) -> i128
    requires x_small { unsigned_abs x ≤ 2 ^ 93 }
    requires y_small { unsigned_abs y ≤ 2 ^ 93 }
    requires z_small { unsigned_abs z ≤ 2 ^ 93 }
    ensures { result ≡ x +ℤ y +ℤ z }
{
    x + y + z
}
