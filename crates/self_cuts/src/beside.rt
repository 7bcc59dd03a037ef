// Triangles beside another: over its plane or under it, but for corners that both share.
ghost use Rattle.std.specs.Prelude.{◌≡◌, ◌||◌, int_lt, pos};
ghost use Rattle.inspection_terms.specs.Inspected.{has_corner};
ghost use Rattle.inspection_laws.specs.Signs.{lies_beside, lies_over, lies_under};
ghost use Rattle.solid_terms.specs.Solids.{volume};
ghost use Rattle.self_cuts.specs.Faces.{corners, places};
ghost use Rattle.self_cuts.specs.Heights.{over_by, under_by, AreHeightsOf};
ghost use Rattle.self_cuts.specs.Places.{place};

use crate::face::Face;
use crate::height::Heights;
use crate::pair::has_corner;
use crate::place::Place;
use crate::triangle::Triangle;
use crate::volumes::height;

// How far a place is over a triangle: a corner of it is not, and so nothing is computed for one.
#[inline]
fn height_of(p: &Place, o: &Face) -> i128
    ensures { result ≡ volume (place p.now) (place o.now.a) (place o.now.b) (place o.now.c) }
{
    if has_corner(o, p) {
        return 0;
    }
    height(p, o)
}

// How far the corners of a triangle are over another.
#[inline]
fn heights(t: &Triangle, o: &Face) -> Heights
    ensures { AreHeightsOf result t.now o.now }
{
    Heights {
        a: height_of(&t.a, o),
        b: height_of(&t.b, o),
        c: height_of(&t.c, o),
    }
}

// Whether a corner that is so far over a triangle lies over it, or is a corner of it.
#[inline]
fn is_over_or_shared(height: &i128, p: &Place, o: &Face) -> bool
    ensures { result ≡ (int_lt (pos 0) height.now || has_corner (corners o.now) (place p.now)) }
{
    0 < *height || has_corner(o, p)
}

// Whether some corner that is so far over a triangle lies over it.
#[inline]
fn some_over(heights: &Heights) -> bool
    ensures { result ≡ (int_lt (pos 0) heights.now.a || int_lt (pos 0) heights.now.b || int_lt (pos 0) heights.now.c) }
{
    0 < heights.a || 0 < heights.b || 0 < heights.c
}

// Whether some corner lies over the triangle, and each that does not is a corner of it; by how far they are over it.
#[inline]
fn is_over_by(t: &Triangle, heights: &Heights, o: &Face) -> bool
    ensures { result ≡ over_by heights.now.a heights.now.b heights.now.c (places t.now) (corners o.now) }
{
    some_over(heights)
        && is_over_or_shared(&heights.a, &t.a, o)
        && is_over_or_shared(&heights.b, &t.b, o)
        && is_over_or_shared(&heights.c, &t.c, o)
}

// The same of a triangle.
#[inline]
fn is_over(t: &Triangle, heights: &Heights, o: &Face) -> bool
    requires { AreHeightsOf heights.now t.now o.now }
    ensures { result ≡ lies_over (places t.now) (corners o.now) }
{
    is_over_by(t, heights, o)
}

// Whether a corner that is so far over a triangle lies under it, or is a corner of it.
#[inline]
fn is_under_or_shared(height: &i128, p: &Place, o: &Face) -> bool
    ensures { result ≡ (int_lt height.now (pos 0) || has_corner (corners o.now) (place p.now)) }
{
    *height < 0 || has_corner(o, p)
}

// Whether some corner that is so far over a triangle lies under it.
#[inline]
fn some_under(heights: &Heights) -> bool
    ensures { result ≡ (int_lt heights.now.a (pos 0) || int_lt heights.now.b (pos 0) || int_lt heights.now.c (pos 0)) }
{
    heights.a < 0 || heights.b < 0 || heights.c < 0
}

// Whether some corner lies under the triangle, and each that does not is a corner of it; by how far they are over it.
#[inline]
fn is_under_by(t: &Triangle, heights: &Heights, o: &Face) -> bool
    ensures { result ≡ under_by heights.now.a heights.now.b heights.now.c (places t.now) (corners o.now) }
{
    some_under(heights)
        && is_under_or_shared(&heights.a, &t.a, o)
        && is_under_or_shared(&heights.b, &t.b, o)
        && is_under_or_shared(&heights.c, &t.c, o)
}

// The same of a triangle.
#[inline]
fn is_under(t: &Triangle, heights: &Heights, o: &Face) -> bool
    requires { AreHeightsOf heights.now t.now o.now }
    ensures { result ≡ lies_under (places t.now) (corners o.now) }
{
    is_under_by(t, heights, o)
}

/// Whether the first triangle lies over the plane of the second or under it: some corner of the first lies off that
/// plane, and each other corner lies off it to the same side or is a corner of the second. Then they have nothing in
/// common beyond the hull of the corners that they share, so they do not cut one another. The second may lie beside the
/// first without the first lying beside the second, so a caller may ask both ways.
#[inline]
pub fn is_beside(t: &Triangle, o: &Face) -> bool
    ensures { result ≡ lies_beside (places t.now) (corners o.now) }
{
    let heights = heights(t, o);
    is_over(t, &heights, o) || is_under(t, &heights, o)
}
