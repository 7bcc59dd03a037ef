// Cross products of ways.
ghost use Rattle.std.specs.Prelude.{◌≤◌, ◌^◌, unsigned_abs};

/// The cross product of two ways between places: three numbers up to 2^62.
#[derive(Clone, Copy, Drop)]
pub struct Normal {
    pub x: i64,
    pub y: i64,
    pub z: i64,
    ghost x_small: { unsigned_abs x ≤ 2 ^ 62 },
    ghost y_small: { unsigned_abs y ≤ 2 ^ 62 },
    ghost z_small: { unsigned_abs z ≤ 2 ^ 62 },
}
