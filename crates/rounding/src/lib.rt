//! Lawful rounding: a number between two numbers by two weights, and the grid step of a fine coordinate.
#![tactic(auto)]

ghost use Rattle.std.specs.Prelude.{◌≡◌, ◌<◌, ◌≤◌, ◌^◌, ℤ, pos, ◌*ℤ◌, ◌≤ℤ◌, ◌<ℤ◌, unsigned_abs, FitsSigned};
ghost use Rattle.std.specs.Int.{w64};
ghost use Rattle.mb_base.specs.declared.TheConstants.{UNIT};
ghost use Rattle.side_terms.specs.Fine.{IsFine, IsWeight, LiesBetween};
ghost use Rattle.rounding.specs.Nearest.{rounded, nearest, settle_nearest};
ghost use Rattle.rounding.specs.Lawful.{nearest_within, nearest_starts, nearest_ends, settle_monotone, settle_units};

pub use ends::{High, Low};
use mb_base::UNIT;

mod ends;

/// What numbers are below in size that are divided in 64 bits.
const SHORT: u64 = 1 << 61;

/// How numbers that fall between the whole ones are rounded. Whatever an implementation does within these laws, no
/// decision that rests on them is spoilt. Fine coordinates lie within `UNIT * 2^30` of 0, weights from 0 to `UNIT * 2^31`.
pub trait Rounding {
    /// What `between` answers.
    ghost between_of: { Self → ℤ → ℤ → ℤ → ℤ → ℤ };

    /// What `settle` answers.
    ghost settle_of: { Self → ℤ → ℤ };

    /// A value between u and v, for weights a and b: u where a is 0, and v where b is 0 and a is not.
    fn between(&self, u: i64, v: i64, a: i64, b: i64) -> i64
        requires u_fine { IsFine u }
        requires v_fine { IsFine v }
        requires a_weight { IsWeight a }
        requires b_weight { IsWeight b }
        ensures { result ≡ between_of self.now u v a b };

    /// The grid step of a fine coordinate.
    fn settle(&self, fine: i64) -> i32
        requires { IsFine fine }
        ensures { result ≡ settle_of self.now fine };

    /// The value lies between the two.
    ghost within: { (r : Self) (u v a b : ℤ) → IsFine u → IsFine v → IsWeight a → IsWeight b → LiesBetween u v (between_of r u v a b) };

    /// At the first weight 0 it is the first value.
    ghost starts: { (r : Self) (u v b : ℤ) → IsFine u → IsFine v → IsWeight b → between_of r u v (pos 0) b ≡ u };

    /// At the second weight 0 alone it is the second value.
    ghost ends: { (r : Self) (u v a : ℤ) → IsFine u → IsFine v → IsWeight a → pos 0 <ℤ a → between_of r u v a (pos 0) ≡ v };

    /// Settling keeps the order.
    ghost monotone: { (r : Self) (f g : ℤ) → IsFine f → IsFine g → f ≤ℤ g → settle_of r f ≤ℤ settle_of r g };

    /// A whole number of units settles to that number.
    ghost units: { (r : Self) (k : ℤ) → IsFine (UNIT *ℤ k) → settle_of r (UNIT *ℤ k) ≡ k };
}

/// To the nearest whole number, a half upwards.
#[derive(Clone, Copy, Debug, PartialEq, Eq, Drop)]
pub struct Nearest;

impl Rounding for Nearest {
    ghost between_of = { λ r. nearest };

    ghost settle_of = { λ r. settle_nearest };

    ghost within = { λ r u v a b p q s t. nearest_within u v a b s.low t.low };

    ghost starts = { λ r u v b p q t. nearest_starts u v b t.low };

    ghost ends = { λ r u v a p q s h. nearest_ends u v a h };

    ghost monotone = { λ r f g p q h. settle_monotone f g h };

    ghost units = { λ r k p. settle_units k };

    /// `u + round((v - u) * a, a + b)`, and u where a + b is 0.
    fn between(&self, u: i64, v: i64, a: i64, b: i64) -> i64
        requires u_fine { IsFine u }
        requires v_fine { IsFine v }
        requires a_weight { IsWeight a }
        requires b_weight { IsWeight b }
        ensures value { result ≡ nearest u v a b }
    {
        let whole = a + b;
        if whole == 0 {
            u
        } else {
            let share = product(v - u, a);
            u + round(share, whole)
        }
    }

    /// `round(fine, UNIT)`.
    fn settle(&self, fine: i64) -> i32
        requires { IsFine fine }
        ensures value { result ≡ settle_nearest fine }
    {
        round(fine as i128, UNIT) as i32
    }
}

/// The product of two numbers of at most 60 bits.
fn product(x: i64, y: i64) -> i128
    requires x_small { unsigned_abs x ≤ 2 ^ 60 }
    requires y_small { unsigned_abs y ≤ 2 ^ 60 }
    ensures value { result ≡ x *ℤ y }
    ensures small { unsigned_abs result ≤ 2 ^ 120 }
{
    x as i128 * y as i128
}

/// n / d to the nearest whole number, a half upwards, where that fits.
fn round(n: i128, d: i64) -> i64
    requires small { unsigned_abs n ≤ 2 ^ 120 }
    requires above { pos 0 <ℤ d }
    requires fits { FitsSigned w64 (rounded n d) }
    ensures { result ≡ rounded n d }
{
    if n.unsigned_abs() < SHORT as u128 && d.unsigned_abs() < SHORT {
        return round_short(n as i64, d);
    }
    let divisor = d as i128;
    (2 * n + divisor).div_euclid(2 * divisor) as i64
}

/// The same of numbers below `SHORT` in size, in 64 bits, which is much faster.
fn round_short(n: i64, d: i64) -> i64
    requires small { unsigned_abs n < 2 ^ 61 }
    requires above { pos 0 <ℤ d }
    requires short { unsigned_abs d < 2 ^ 61 }
    ensures { result ≡ rounded n d }
{
    (2 * n + d).div_euclid(2 * d)
}
