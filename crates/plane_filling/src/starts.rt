// Where a walk begins when it is filled.
ghost use Rattle.std.specs.Prelude.{◌≡◌, ◌≤◌, ◌<◌, ◌==◌, ◌&&◌, pos, int_lt, IfOk, length};
ghost use Rattle.std.specs.List.{position_or_len};
ghost use Rattle.chain_terms.specs.Paths.{round_edges};
ghost use Rattle.chain_terms.specs.Sums.{upto};
ghost use Rattle.face_plane.specs.Planes.{orient};
ghost use Rattle.face_plane.specs.Rings.{vertex_at, vertex_before, vertex_after};
ghost use Rattle.hole_joining.specs.Holes.{comes_first, first_of_all, hole_start};
ghost use Rattle.mesh_terms.specs.OpenEdges.{is_lesser};
ghost use Rattle.sheet_terms.specs.Filled.{beginning, begun, is_least_edge, looks_right};
ghost use Rattle.plane_filling.specs.Begun.{seen_in};

use crate::area::doubled_area;
use crate::flat::FlatPoints;
use crate::vertices::{vertex_after, vertex_at, vertex_before};
use face_plane::FlatPoint;
use mb_base::NoMemory;
use std::alloc::Global;

/// The same walk from where it is to begin: one whose area is at least 0 from its least place, and where it has that twice, from where the lesser place follows; a
/// hole from that of its places that lie farthest along u, and of those farthest along v, from which the direction of u leads into what the walk goes round.
pub fn started(alloc: Global, flat: &FlatPoints, walk: &[u32]) -> Result<Vec<u32>, NoMemory>
    ensures { IfOk result (λ turned. turned.items ≡ begun (seen_in flat.now) walk.now) }
{
    let start = beginning(flat, walk);
    let mut turned = Vec::with_capacity(alloc, walk.len())?;
    turned.extend_from_slice(&walk[start..])?;
    turned.extend_from_slice(&walk[..start])?;
    Ok(turned)
}

// The index at which a walk begins.
fn beginning(flat: &FlatPoints, walk: &[u32]) -> usize
    ensures value { result ≡ beginning (seen_in flat.now) walk.now }
    ensures within { result ≤ length walk.now }
{
    if doubled_area(flat, walk) < 0 {
        hole_beginning(flat, walk)
    } else {
        least_edge(walk)
    }
}

// The index of the least edge of a walk, by its first place and then by the one that follows; of equal ones the first.
fn least_edge(walk: &[u32]) -> usize
    ensures value { result ≡ position_or_len (is_least_edge (round_edges walk.now)) (round_edges walk.now) }
    ensures within { result ≤ length walk.now }
{
    let mut least = 0;
    for i in 0..walk.len() {
        if is_lesser_edge(walk, i, least) {
            least = i;
        }
    }
    least
}

// Whether the edge from one place of a walk is less than that from another.
fn is_lesser_edge(walk: &[u32], i: usize, j: usize) -> bool
    requires i { i < length walk.now }
    requires j { j < length walk.now }
    ensures { result ≡ is_lesser (vertex_at walk.now i, vertex_after walk.now i) (vertex_at walk.now j, vertex_after walk.now j) }
{
    let (from, to) = (vertex_at(walk, i), vertex_at(walk, j));
    from < to || (from == to && vertex_after(walk, i) < vertex_after(walk, j))
}

// The index from which a hole begins; the number of places where it begins at none.
fn hole_beginning(flat: &FlatPoints, walk: &[u32]) -> usize
    ensures value { result ≡ position_or_len (looks_right (seen_in flat.now) walk.now) (upto (length walk.now)) }
    ensures within { result ≤ length walk.now }
{
    let start = hole_start(flat, walk);
    for i in 0..walk.len() {
        if looks_right(flat, walk, start, i) {
            return i;
        }
    }
    walk.len()
}

// Whether a hole may begin at an index: its start stands there, and the walk turns right.
fn looks_right(flat: &FlatPoints, walk: &[u32], start: u32, i: usize) -> bool
    requires start { start ≡ hole_start (seen_in flat.now) walk.now }
    requires within { i < length walk.now }
    ensures { result ≡ looks_right (seen_in flat.now) walk.now i }
{
    vertex_at(walk, i) == start && turns_right(flat, walk, i)
}

// Whether a walk turns right at a place. Where it does so at its place that lies farthest along u, and of those farthest along v, the direction of u leads from there
// into what the walk goes round.
fn turns_right(flat: &FlatPoints, walk: &[u32], i: usize) -> bool
    requires { i < length walk.now }
    ensures { result ≡ int_lt (orient (seen_in flat.now) (vertex_before walk.now i) (vertex_at walk.now i) (vertex_after walk.now i)) (pos 0) }
{
    let p = flat.at(vertex_before(walk, i));
    let s = flat.at(vertex_at(walk, i));
    let n = flat.at(vertex_after(walk, i));
    FlatPoint::turns_right(p, s, n)
}

// The place of a walk that lies farthest along u; of those farthest along v; of those the least.
fn hole_start(flat: &FlatPoints, walk: &[u32]) -> u32
    ensures { result ≡ hole_start (seen_in flat.now) walk.now }
{
    match walk.split_first() {
        None => 0,
        Some((first, rest)) => first_of_all(flat, *first, rest),
    }
}

// That of a place and others.
fn first_of_all(flat: &FlatPoints, first: u32, rest: &[u32]) -> u32
    ensures { result ≡ first_of_all (seen_in flat.now) first rest.now }
{
    let mut start = first;
    for place in rest {
        if comes_first(flat, *place, start) {
            start = *place;
        }
    }
    start
}

// Whether v comes before w in that order.
fn comes_first(flat: &FlatPoints, v: u32, w: u32) -> bool
    ensures { result ≡ comes_first (seen_in flat.now) v w }
{
    let (a, b) = (flat.at(v), flat.at(w));
    b.u() < a.u() || (b.u() == a.u() && (b.v() < a.v() || (b.v() == a.v() && v < w)))
}
