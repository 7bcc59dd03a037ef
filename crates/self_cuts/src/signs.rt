// Signs of numbers.
ghost use Rattle.std.specs.Prelude.{◌≡◌};
ghost use Rattle.inspection_laws.specs.Signs.{agree, are_opposite, is_zero};
ghost use Rattle.plane_laws.specs.Decisions.{same_sign};

/// Whether a number is 0.
#[inline]
pub fn is_zero(n: i128) -> bool
    ensures { result ≡ is_zero n }
{
    n == 0
}

/// Whether one is above 0 and the other below it.
#[inline]
pub fn are_opposite(a: i128, b: i128) -> bool
    ensures { result ≡ are_opposite a b }
{
    (a < 0 && 0 < b) || (0 < a && b < 0)
}

/// Whether no two of three are.
#[inline]
pub fn agree(a: i128, b: i128, c: i128) -> bool
    ensures { result ≡ agree a b c }
{
    !are_opposite(a, b) && !are_opposite(b, c) && !are_opposite(c, a)
}

/// Whether both are above 0, or both below it.
#[inline]
pub fn same_sign(a: i128, b: i128) -> bool
    ensures { result ≡ same_sign a b }
{
    (0 < a && 0 < b) || (a < 0 && b < 0)
}
