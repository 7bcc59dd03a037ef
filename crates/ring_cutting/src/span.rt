// Rectangles in the plane.
ghost use Rattle.std.specs.Prelude.{◌≡◌, ◌≤ℤ◌, ◌<ℤ◌, ℤ, pos, int_lt, true, false};
ghost use Rattle.face_plane.specs.Planes.{turn};
ghost use Rattle.ring_cutting.specs.Cuts.{covers};
ghost use Rattle.ring_cutting.specs.Spans.{IsIn, IsWithin, no_span};

use face_plane::FlatPoint;

// From the least coordinates to the greatest, both included. Where the least are greater, nothing is in it.
#[derive(Clone, Copy, Debug, Drop)]
pub struct Span {
    pub low: FlatPoint,
    pub high: FlatPoint,
}

// The first coordinate of one point and the second of another.
fn mixed(a: FlatPoint, b: FlatPoint) -> FlatPoint
    ensures { result ≡ (a.0, b.1) }
{
    FlatPoint::of(a.u() as i32, b.v() as i32)
}

// The least coordinates of two points.
fn least(a: FlatPoint, b: FlatPoint) -> FlatPoint
    ensures first { result.0 ≤ℤ a.0 }
    ensures second { result.1 ≤ℤ a.1 }
    ensures third { result.0 ≤ℤ b.0 }
    ensures fourth { result.1 ≤ℤ b.1 }
{
    mixed(
        if a.u() <= b.u() { a } else { b },
        if a.v() <= b.v() { a } else { b },
    )
}

// The greatest.
fn greatest(a: FlatPoint, b: FlatPoint) -> FlatPoint
    ensures first { a.0 ≤ℤ result.0 }
    ensures second { a.1 ≤ℤ result.1 }
    ensures third { b.0 ≤ℤ result.0 }
    ensures fourth { b.1 ≤ℤ result.1 }
{
    mixed(
        if a.u() <= b.u() { b } else { a },
        if a.v() <= b.v() { b } else { a },
    )
}

// A rectangle with nothing in it.
pub(crate) fn nothing() -> Span
    ensures { result ≡ no_span }
{
    Span {
        low: FlatPoint::of(0x4000_0000, 0x4000_0000),
        high: FlatPoint::of(-0x4000_0000, -0x4000_0000),
    }
}

// A rectangle with one point.
pub(crate) fn around(at: FlatPoint) -> Span
    ensures { IsIn result at }
{
    Span { low: at, high: at }
}

// A rectangle with what is in two.
pub(crate) fn joined(a: Span, b: Span) -> Span
    ensures first { IsWithin a result }
    ensures second { IsWithin b result }
{
    Span {
        low: least(a.low, b.low),
        high: greatest(a.high, b.high),
    }
}

// Whether a rectangle lies to the right of the way from one point to another: its corner that is furthest to the left does.
fn lies_right(span: &Span, a: FlatPoint, b: FlatPoint) -> bool
    ensures { result ≡ true → (x : ℤ × ℤ) → IsIn span.now x → int_lt (turn a b x) (pos 0) ≡ true }
{
    let u = if b.v() >= a.v() { span.low } else { span.high };
    let v = if b.u() >= a.u() { span.high } else { span.low };
    FlatPoint::turns_right(a, b, mixed(u, v))
}

// Whether a number is less than each of three.
fn is_less(x: i64, a: i64, b: i64, c: i64) -> bool
    ensures first { result ≡ true → x <ℤ a }
    ensures second { result ≡ true → x <ℤ b }
    ensures third { result ≡ true → x <ℤ c }
{
    x < a && x < b && x < c
}

// Whether a number is greater than each of three.
fn is_more(x: i64, a: i64, b: i64, c: i64) -> bool
    ensures first { result ≡ true → a <ℤ x }
    ensures second { result ≡ true → b <ℤ x }
    ensures third { result ≡ true → c <ℤ x }
{
    x > a && x > b && x > c
}

// Whether a rectangle lies to the left or the right of a triangle that turns left.
fn lies_beside(span: &Span, a: FlatPoint, b: FlatPoint, c: FlatPoint) -> bool
    requires { int_lt (pos 0) (turn a b c) ≡ true }
    ensures { result ≡ true → (x : ℤ × ℤ) → IsIn span.now x → covers a b c x ≡ false }
{
    is_less(span.high.u(), a.u(), b.u(), c.u()) || is_more(span.low.u(), a.u(), b.u(), c.u())
}

// Whether a rectangle lies below it or above it.
fn lies_above(span: &Span, a: FlatPoint, b: FlatPoint, c: FlatPoint) -> bool
    requires { int_lt (pos 0) (turn a b c) ≡ true }
    ensures { result ≡ true → (x : ℤ × ℤ) → IsIn span.now x → covers a b c x ≡ false }
{
    is_less(span.high.v(), a.v(), b.v(), c.v()) || is_more(span.low.v(), a.v(), b.v(), c.v())
}

// Whether a rectangle is seen to have nothing in common with a triangle that turns left.
pub(crate) fn misses(span: &Span, a: FlatPoint, b: FlatPoint, c: FlatPoint) -> bool
    requires { int_lt (pos 0) (turn a b c) ≡ true }
    ensures { result ≡ true → (x : ℤ × ℤ) → IsIn span.now x → covers a b c x ≡ false }
{
    if lies_beside(span, a, b, c) || lies_above(span, a, b, c) {
        return true;
    }
    if lies_right(span, c, a) || lies_right(span, a, b) {
        return true;
    }
    lies_right(span, b, c)
}
