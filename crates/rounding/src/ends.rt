//! The two roundings that go farthest: to one of the two values, and to the floor or the ceiling.

ghost use Rattle.std.specs.Prelude.{◌≡◌, pos, refl, ◌*ℤ◌, ◌+ℤ◌, ◌-ℤ◌, ◌≤ℤ◌, ◌<ℤ◌};
ghost use Rattle.mb_base.specs.declared.TheConstants.{UNIT};
ghost use Rattle.side_terms.specs.Fine.{IsFine, IsWeight};
ghost use Rattle.rounding.specs.Ends.{first_end, second_end, settle_down, settle_up};
ghost use Rattle.rounding.specs.Ends.{first_within, second_within, first_starts, ends_at_second};
ghost use Rattle.rounding.specs.Ends.{down_monotone, up_monotone, down_units, up_units};

use crate::Rounding;
use mb_base::UNIT;

/// To the first value and downwards: as far from the nearest as a lawful rounding may go on one side.
#[derive(Clone, Copy, Debug, PartialEq, Eq, Drop)]
pub struct Low;

/// To the second value and upwards: as far from the nearest as a lawful rounding may go on the other side.
#[derive(Clone, Copy, Debug, PartialEq, Eq, Drop)]
pub struct High;

impl Rounding for Low {
    ghost between_of = { λ r. first_end };

    ghost settle_of = { λ r. settle_down };

    ghost within = { λ r u v a b p q s t. first_within u v a b };

    ghost starts = { λ r u v b p q t. first_starts u v b };

    ghost ends = { λ r u v a p q s h. ends_at_second u v a h };

    ghost monotone = { λ r f g p q h. down_monotone f g h };

    ghost units = { λ r k p. down_units k };

    /// u, but v where b is 0 and a is not.
    fn between(&self, u: i64, v: i64, a: i64, b: i64) -> i64
        requires u_fine { IsFine u }
        requires v_fine { IsFine v }
        requires a_weight { IsWeight a }
        requires b_weight { IsWeight b }
        ensures value { result ≡ first_end u v a b }
    {
        if b == 0 {
            if a == 0 { u } else { v }
        } else {
            u
        }
    }

    /// The greatest whole number not above `fine / UNIT`.
    fn settle(&self, fine: i64) -> i32
        requires { IsFine fine }
        ensures value { result ≡ settle_down fine }
        ensures not_above { (result *ℤ UNIT) ≤ℤ fine }
        ensures greatest { fine <ℤ ((result +ℤ pos 1) *ℤ UNIT) }
    {
        fine.div_euclid(UNIT) as i32
    }
}

impl Rounding for High {
    ghost between_of = { λ r. second_end };

    ghost settle_of = { λ r. settle_up };

    ghost within = { λ r u v a b p q s t. second_within u v a b };

    ghost starts = { λ r u v b p q t. refl };

    ghost ends = { λ r u v a p q s h. ends_at_second u v a h };

    ghost monotone = { λ r f g p q h. up_monotone f g h };

    ghost units = { λ r k p. up_units k };

    /// v, but u where a is 0.
    fn between(&self, u: i64, v: i64, a: i64, b: i64) -> i64
        requires u_fine { IsFine u }
        requires v_fine { IsFine v }
        requires a_weight { IsWeight a }
        requires b_weight { IsWeight b }
        ensures value { result ≡ second_end u v a b }
    {
        if a == 0 { u } else { v }
    }

    /// The least whole number not below `fine / UNIT`.
    fn settle(&self, fine: i64) -> i32
        requires { IsFine fine }
        ensures value { result ≡ settle_up fine }
        ensures not_below { fine ≤ℤ (result *ℤ UNIT) }
        ensures least { ((result -ℤ pos 1) *ℤ UNIT) <ℤ fine }
    {
        let down = (-fine).div_euclid(UNIT);
        (-down) as i32
    }
}
