// Which way comes first on turning to the right.
ghost use Rattle.std.specs.Prelude.{◌≡◌, ◌≤◌, ◌^◌, ◌==◌, ◌&&◌, ◌||◌, ◌*ℤ◌, nat_lt, pos, int_lt, unsigned_abs};
ghost use Rattle.face_plane.specs.Planes.{turn};
ghost use Rattle.plane_sheets.specs.Leaving.{along, quarter_of};

use face_plane::FlatPoint;

/// Whether on turning round s to the right, from p on, m is met before n.
pub fn is_met_before(s: FlatPoint, p: FlatPoint, m: FlatPoint, n: FlatPoint) -> bool
    ensures { result ≡ (nat_lt (quarter_of s p m) (quarter_of s p n) || ((quarter_of s p m == quarter_of s p n) && int_lt (turn s m n) (pos 0))) }
{
    let (i, j) = (quarter(s, p, m), quarter(s, p, n));
    i < j || i == j && FlatPoint::turns_right(s, m, n)
}

// How far round s to the right from p: 0 in the right half, 1 straight ahead, 2 in the left half, 3 back at p.
fn quarter(s: FlatPoint, p: FlatPoint, n: FlatPoint) -> u8
    ensures { result ≡ quarter_of s p n }
{
    if FlatPoint::turns_right(s, p, n) {
        0
    } else if FlatPoint::turns_left(s, p, n) {
        2
    } else if leads_away(s, p, n) {
        1
    } else {
        3
    }
}

// Whether the way from s to n leads away from p.
fn leads_away(s: FlatPoint, p: FlatPoint, n: FlatPoint) -> bool
    ensures { result ≡ int_lt (along s p n) (pos 0) }
{
    product(p.u() - s.u(), n.u() - s.u()) + product(p.v() - s.v(), n.v() - s.v()) < 0
}

// A product of differences.
fn product(x: i64, y: i64) -> i128
    requires x_small { unsigned_abs x ≤ 2 ^ 31 }
    requires y_small { unsigned_abs y ≤ 2 ^ 31 }
    ensures value { result ≡ x *ℤ y }
    ensures small { unsigned_abs result ≤ 2 ^ 62 }
{
    i128::from(x) * i128::from(y)
}
