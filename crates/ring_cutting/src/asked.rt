// What is asked of a place while many are left.
ghost use Rattle.std.specs.Prelude.{◌≡◌, ◌<◌, ◌&&◌, ◌==◌, not, length, set, true, false};
ghost use Rattle.std.specs.List.{list_any};
ghost use Rattle.ring_cutting.specs.Left.{lives, after_of, before_of, left_of, place_of, third_place};
ghost use Rattle.ring_cutting.specs.Linked.{is_left, may_go_in, goes_left_in, is_open_in, AreLinks};
ghost use Rattle.ring_cutting.specs.Placed.{place_blocks};

use crate::links::{Links, after, before};
use crate::place::Place;
use crate::triangle::blocks;
use face_plane::FlatPoint;

// The neighbours of a place, and the three places.
#[derive(Clone, Copy, Debug, Drop)]
pub struct Around {
    pub before: usize,
    pub after: usize,
    pub p: Place,
    pub x: Place,
    pub n: Place,
}

// The place of a number.
pub(crate) fn place(places: &[Place], i: usize) -> Place
    requires { i < length places.now }
    ensures { result ≡ place_of places.now i }
{
    places[i]
}

// A place that is left, and its neighbours.
pub(crate) fn corners(places: &[Place], links: &Links, i: usize) -> Around
    requires linked { AreLinks (length places.now) links.now }
    requires living { is_left links.now i ≡ true }
    ensures before { result.before ≡ before_of links.now.before.items i }
    ensures after { result.after ≡ after_of links.now.after.items i }
    ensures p { result.p ≡ place_of places.now (before_of links.now.before.items i) }
    ensures x { result.x ≡ place_of places.now i }
    ensures n { result.n ≡ place_of places.now (after_of links.now.after.items i) }
{
    let (before, after) = (before(links, i), after(links, i));
    Around {
        before,
        after,
        p: place(places, before),
        x: place(places, i),
        n: place(places, after),
    }
}

// Whether a place is left, is another than i, and has a vertex that is neither of two.
fn is_third(places: &[Place], living: &[bool], i: usize, j: usize, p: u32, n: u32) -> bool
    requires within { j < length places.now }
    requires living { j < length living.now }
    ensures { result ≡ ((lives living.now j && not (j == i)) && third_place p n (place_of places.now j)) }
{
    let vertex = place(places, j).vertex;
    living[j] && j != i && (vertex != p && vertex != n)
}

// The same, asked of all.
fn any_third(places: &[Place], living: &[bool], i: usize, p: u32, n: u32) -> bool
    requires { length living.now ≡ length places.now }
    ensures { result ≡ list_any (third_place p n) (left_of (set living.now i false) places.now) }
{
    for j in 0..places.len() {
        if is_third(places, living, i, j, p, n) {
            return true;
        }
    }
    false
}

// Whether one of two places is such.
fn near_third(
    places: &[Place],
    living: &[bool],
    i: usize,
    near: (usize, usize),
    p: u32,
    n: u32,
) -> bool
    requires long { length living.now ≡ length places.now }
    requires first { near.0 < length places.now }
    requires second { near.1 < length places.now }
    ensures { result ≡ true → list_any (third_place p n) (left_of (set living.now i false) places.now) ≡ true }
{
    is_third(places, living, i, near.0, p, n) || is_third(places, living, i, near.1, p, n)
}

// Whether a place that is left, another than i, has a vertex that is neither of two. Those next to i's neighbours mostly
// have one.
fn has_third(places: &[Place], links: &Links, i: usize, c: Around) -> bool
    requires linked { AreLinks (length places.now) links.now }
    requires before { is_left links.now c.before ≡ true }
    requires after { is_left links.now c.after ≡ true }
    ensures { result ≡ list_any (third_place c.p.vertex c.n.vertex) (left_of (set links.now.living.items i false) places.now) }
{
    let (p, n) = (c.p.vertex, c.n.vertex);
    let near = (after(links, c.after), before(links, c.before));
    near_third(places, &links.living, i, near, p, n) || any_third(places, &links.living, i, p, n)
}

// Whether a place may be cut.
pub(crate) fn may_go(places: &[Place], links: &Links, i: usize) -> bool
    requires linked { AreLinks (length places.now) links.now }
    requires living { is_left links.now i ≡ true }
    ensures { result ≡ may_go_in places.now links.now i }
{
    let c = corners(places, links, i);
    c.p.vertex != c.n.vertex && has_third(places, links, i, c)
}

// Whether a place and its neighbours turn left.
pub(crate) fn goes_left(places: &[Place], links: &Links, i: usize) -> bool
    requires linked { AreLinks (length places.now) links.now }
    requires living { is_left links.now i ≡ true }
    ensures { result ≡ goes_left_in places.now links.now i }
{
    let c = corners(places, links, i);
    FlatPoint::turns_left(c.p.at, c.x.at, c.n.at)
}

// Whether a place may be cut and turns left.
pub(crate) fn is_open(places: &[Place], links: &Links, i: usize) -> bool
    requires linked { AreLinks (length places.now) links.now }
    requires living { is_left links.now i ≡ true }
    ensures { result ≡ is_open_in places.now links.now i }
{
    goes_left(places, links, i) && may_go(places, links, i)
}

// Whether a place is left and lies in the triangle of three, another vertex than theirs.
pub(crate) fn is_blocker(places: &[Place], living: &[bool], c: &Around, w: usize) -> bool
    requires within { w < length places.now }
    requires living { w < length living.now }
    ensures { result ≡ (lives living.now w && place_blocks c.now.p c.now.x c.now.n (place_of places.now w)) }
{
    living[w] && blocks(c.p, c.x, c.n, place(places, w))
}
