// Whether two triangles cut one another.
ghost use Rattle.std.specs.Prelude.{◌≡◌};
ghost use Rattle.plane_laws.specs.Decisions.{face_normal};
ghost use Rattle.solid_terms.specs.Solids.{volume};
ghost use Rattle.inspection_terms.specs.Inspected.{has_corner, same_place};
ghost use Rattle.inspection_laws.specs.Signs.{agree, are_on_same_places, corners_in, crosses, crosses_any, cut, edges_in, ends_across, goes_across};
ghost use Rattle.inspection_laws.specs.Signs.{goes_through, is_corner_in, is_edge_in, lies_inside, lies_within, moved_on, reaches, reaches_by, seen_along, turn};
ghost use Rattle.self_cuts.specs.Faces.{corners};
ghost use Rattle.self_cuts.specs.Heights.{AreHeights};
ghost use Rattle.self_cuts.specs.Places.{normal, place};

use crate::face::Face;
use crate::height::Heights;
use crate::normal::Normal;
use crate::place::Place;
use crate::signs::{agree, are_opposite, is_zero, same_sign};
use crate::volumes::{height, turn, volume};

/// Whether two places are one.
#[inline]
pub fn is_same(p: &Place, q: &Place) -> bool
    ensures { result ≡ same_place (place p.now) (place q.now) }
{
    p.x == q.x && p.y == q.y && p.z == q.z
}

/// Whether a corner lies at a place.
#[inline]
pub fn has_corner(o: &Face, p: &Place) -> bool
    ensures { result ≡ has_corner (corners o.now) (place p.now) }
{
    is_same(p, &o.a) || is_same(p, &o.b) || is_same(p, &o.c)
}

/// A place with its axes moved on.
#[inline]
fn moved_on(p: &Place) -> Place
    ensures { place result ≡ moved_on (place p.now) }
{
    Place {
        x: p.y,
        y: p.z,
        z: p.x,
    }
}

/// A place with its axes moved on so that a normal that is not 0 is not 0 on the last one.
#[inline]
fn seen_along(n: &Normal, p: &Place) -> Place
    ensures { place result ≡ seen_along (normal n.now) (place p.now) }
{
    if n.z != 0 {
        *p
    } else if n.x != 0 {
        moved_on(p)
    } else {
        moved_on(&moved_on(p))
    }
}

/// Whether a place lies within three places, all seen along the last axis.
#[inline]
fn is_among(q: &Place, u: &Place, v: &Place, t: &Place) -> bool
    ensures { result ≡ agree (turn (place v.now) (place t.now) (place q.now)) (turn (place t.now) (place u.now) (place q.now))
        (turn (place u.now) (place v.now) (place q.now)) }
{
    agree(turn(v, t, q), turn(t, u, q), turn(u, v, q))
}

/// Whether a place of a triangle's plane lies within the triangle.
fn is_within(p: &Place, o: &Face) -> bool
    ensures { result ≡ lies_within (seen_along (normal o.now.normal)) (place p.now) (corners o.now) }
{
    let n = &o.normal;
    is_among(
        &seen_along(n, p),
        &seen_along(n, &o.a),
        &seen_along(n, &o.b),
        &seen_along(n, &o.c),
    )
}

/// Whether it does so at no corner.
#[inline]
fn is_inside(p: &Place, o: &Face) -> bool
    ensures { result ≡ lies_inside (seen_along (normal o.now.normal)) (place p.now) (corners o.now) }
{
    !has_corner(o, p) && is_within(p, o)
}

/// Whether a corner lies in a triangle and at no corner of it; how far it is over the triangle is known.
#[inline]
fn is_corner_in(p: &Place, over: i128, o: &Face) -> bool
    requires { over ≡ volume (place p.now) (place o.now.a) (place o.now.b) (place o.now.c) }
    ensures { result ≡ is_corner_in (seen_along (normal o.now.normal)) (place p.now) (corners o.now) }
{
    is_zero(over) && is_inside(p, o)
}

/// Whether an edge whose ends lie so far over a triangle goes through it.
#[inline]
fn goes_through(p: &Place, over_p: i128, q: &Place, over_q: i128, o: &Face) -> bool
    requires over_p { over_p ≡ volume (place p.now) (place o.now.a) (place o.now.b) (place o.now.c) }
    requires over_q { over_q ≡ volume (place q.now) (place o.now.a) (place o.now.b) (place o.now.c) }
    ensures { result ≡ goes_through (place p.now) (place q.now) (corners o.now) }
{
    are_opposite(over_p, over_q)
        && agree(
            volume(p, q, &o.c, &o.b),
            volume(p, q, &o.a, &o.c),
            volume(p, q, &o.b, &o.a),
        )
}

/// Whether an edge crosses another edge of its plane.
#[inline]
fn crosses(p: &Place, q: &Place, u: &Place, v: &Place) -> bool
    ensures { result ≡ crosses (place p.now) (place q.now) (place u.now) (place v.now) }
{
    are_opposite(turn(u, v, p), turn(u, v, q)) && !same_sign(turn(p, q, u), turn(p, q, v))
}

/// Whether it crosses an edge of a triangle.
#[inline]
fn crosses_any(p: &Place, q: &Place, u: &Place, v: &Place, t: &Place) -> bool
    ensures { result ≡ crosses_any (place p.now) (place q.now) (place u.now) (place v.now) (place t.now) }
{
    crosses(p, q, u, v) || crosses(p, q, v, t) || crosses(p, q, t, u)
}

/// Whether an edge of a triangle's plane crosses an edge of it.
fn crosses_face(p: &Place, q: &Place, o: &Face) -> bool
    ensures { result ≡ crosses_any (seen_along (normal o.now.normal) (place p.now)) (seen_along (normal o.now.normal) (place q.now))
        (seen_along (normal o.now.normal) (place o.now.a)) (seen_along (normal o.now.normal) (place o.now.b)) (seen_along (normal o.now.normal) (place o.now.c)) }
{
    let n = &o.normal;
    crosses_any(
        &seen_along(n, p),
        &seen_along(n, q),
        &seen_along(n, &o.a),
        &seen_along(n, &o.b),
        &seen_along(n, &o.c),
    )
}

/// Whether an edge ends in a triangle's plane and, seen along an axis, crosses an edge of it.
#[inline]
fn ends_across(p: &Place, q: &Place, over_q: i128, o: &Face) -> bool
    requires { over_q ≡ volume (place q.now) (place o.now.a) (place o.now.b) (place o.now.c) }
    ensures { result ≡ ends_across (seen_along (normal o.now.normal)) (place p.now) (place q.now) (corners o.now) }
{
    is_zero(over_q) && crosses_face(p, q, o)
}

/// Whether an edge lies in a triangle's plane and crosses an edge of it.
#[inline]
fn goes_across(p: &Place, over_p: i128, q: &Place, over_q: i128, o: &Face) -> bool
    requires over_p { over_p ≡ volume (place p.now) (place o.now.a) (place o.now.b) (place o.now.c) }
    requires over_q { over_q ≡ volume (place q.now) (place o.now.a) (place o.now.b) (place o.now.c) }
    ensures { result ≡ goes_across (seen_along (normal o.now.normal)) (place p.now) (place q.now) (corners o.now) }
{
    is_zero(over_p) && ends_across(p, q, over_q, o)
}

/// Whether an edge meets a triangle between its ends.
#[inline]
fn is_edge_in(p: &Place, over_p: i128, q: &Place, over_q: i128, o: &Face) -> bool
    requires over_p { over_p ≡ volume (place p.now) (place o.now.a) (place o.now.b) (place o.now.c) }
    requires over_q { over_q ≡ volume (place q.now) (place o.now.a) (place o.now.b) (place o.now.c) }
    ensures { result ≡ is_edge_in (seen_along (normal o.now.normal)) (place p.now) (place q.now) (corners o.now) }
{
    goes_through(p, over_p, q, over_q, o) || goes_across(p, over_p, q, over_q, o)
}

/// Whether a corner of a triangle, of which it is known how far its corners are over another, lies in that.
#[inline]
pub fn has_corners_in(t: &Face, over: &Heights, o: &Face) -> bool
    requires { AreHeights over.now t.now o.now }
    ensures { result ≡ corners_in (seen_along (normal o.now.normal)) (corners t.now) (corners o.now) }
{
    is_corner_in(&t.a, over.a, o) || is_corner_in(&t.b, over.b, o) || is_corner_in(&t.c, over.c, o)
}

/// Whether an edge of it meets that between its ends.
#[inline]
fn has_edges_in(t: &Face, over: &Heights, o: &Face) -> bool
    requires { AreHeights over.now t.now o.now }
    ensures { result ≡ edges_in (seen_along (normal o.now.normal)) (corners t.now) (corners o.now) }
{
    is_edge_in(&t.a, over.a, &t.b, over.b, o)
        || is_edge_in(&t.b, over.b, &t.c, over.c, o)
        || is_edge_in(&t.c, over.c, &t.a, over.a, o)
}

/// How far the corners of a triangle are over another.
#[inline]
fn heights(t: &Face, o: &Face) -> Heights
    ensures { AreHeights result t.now o.now }
{
    Heights {
        a: height(&t.a, o),
        b: height(&t.b, o),
        c: height(&t.c, o),
    }
}

/// Whether a triangle reaches into another, seen along its normal.
fn reaches_along(t: &Face, o: &Face) -> bool
    ensures { result ≡ reaches_by (seen_along (normal o.now.normal)) (corners t.now) (corners o.now) }
{
    let over = heights(t, o);
    has_corners_in(t, &over, o) || has_edges_in(t, &over, o)
}

/// Whether a triangle reaches into another.
#[inline]
fn reaches(t: &Face, o: &Face) -> bool
    ensures { result ≡ reaches (corners t.now) (corners o.now) }
{
    reaches_along(t, o)
}

/// Whether the corners of a triangle are corners of another.
#[inline]
fn are_on_same_places(t: &Face, o: &Face) -> bool
    ensures { result ≡ are_on_same_places (corners t.now) (corners o.now) }
{
    has_corner(o, &t.a) && has_corner(o, &t.b) && has_corner(o, &t.c)
}

/// Whether two triangles that are not flat cut one another.
pub fn cut(t: &Face, o: &Face) -> bool
    ensures { result ≡ cut (corners t.now) (corners o.now) }
{
    are_on_same_places(t, o) || reaches(t, o) || reaches(o, t)
}
