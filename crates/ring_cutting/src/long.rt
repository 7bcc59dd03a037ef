// A long ring is cut into triangles.
ghost use Rattle.std.specs.Prelude.{◌≡◌, ◌<◌, ◌≤◌, ◌==◌, IfOk, OnOk, length, cond, true};
ghost use Rattle.mesh_terms.specs.Meshes.{triple_of};
ghost use Rattle.face_plane.specs.Planes.{Plane};
ghost use Rattle.face_plane.specs.Rings.{IsRing};
ghost use Rattle.ring_cutting.specs.Cuts.{cut_ring, triple_at, is_allowed, first_allowed};
ghost use Rattle.ring_cutting.specs.Left.{after_of};
ghost use Rattle.ring_cutting.specs.Linked.{is_left, rest_ring, number_in, AreLinks, AreSettledIn, IsCutNext, IsFirst};
ghost use Rattle.ring_cutting.specs.Spans.{HasHulls};
ghost use Rattle.ring_cutting.specs.Placed.{vertices_of, IsPlaced};

use crate::Filled;
use crate::asked::{corners, goes_left, may_go};
use crate::doubts::{Doubts, all_doubtful, cut_out, least_ear};
use crate::ears::Choice;
use crate::hulls::{Hulls, forget, hulls_of};
use crate::links::{Links, after, linked};
use crate::place::Place;
use mb_base::NoMemory;
use std::alloc::Global;

// Cuts the places of a ring, one after the other. A place that was no ear is asked again only once a neighbour or the place
// that was found in its triangle is cut.
pub(crate) fn cut_long(alloc: Global, places: &[Place]) -> Result<Filled, NoMemory>
    requires ringy { IsRing (vertices_of places.now) }
    requires few { length places.now ≤ 100000000 }
    ensures { (at : Plane) → IsPlaced at places.now → IfOk result (λ f. f ≡ cut_ring at (vertices_of places.now)) }
{
    let mut triples = Vec::with_capacity(alloc, places.len() - 2)?;
    let mut forced = 0;
    let mut links = linked(alloc, places.len())?;
    let mut doubts = all_doubtful(alloc, places.len())?;
    let mut hulls = hulls_of(alloc, places)?;
    let mut first = 0;
    let mut left = places.len();
    while left > 3 {
        let next = choose(&mut doubts, places, &links, &hulls, first)?;
        triples.push(triple_at(places, &links, next.place))?;
        if next.forced {
            forced += 1;
        }
        first = first_without(&links, first, next.place);
        forget(&mut hulls, next.place);
        cut_out(&mut doubts, &mut links, next.place)?;
        left -= 1;
    }
    let middle = after(&links, first);
    triples.push(triple_at(places, &links, middle))?;
    if !goes_left(places, &links, middle) {
        forced += 1;
    }
    Ok(Filled { triples, forced })
}

// The first place once one is cut.
fn first_without(links: &Links, first: usize, i: usize) -> usize
    requires { first < length links.now.after.items }
    ensures { result ≡ cond (first == i) (after_of links.now.after.items first) first }
{
    if first == i {
        after(links, first)
    } else {
        first
    }
}

// The place that is cut next: the least ear, and where there is none the least place that is allowed.
fn choose(
    doubts: &mut Doubts,
    places: &[Place],
    links: &Links,
    hulls: &Hulls,
    first: usize,
) -> Result<Choice, NoMemory>
    requires few { length places.now ≤ 100000000 }
    requires hulls { HasHulls places.now links.now.living.items hulls.now }
    requires settled { AreSettledIn places.now links.now doubts.old }
    requires first { IsFirst places.now links.now first }
    ensures settled { OnOk result (AreSettledIn places.now links.now doubts.new) }
    ensures next { IfOk result (IsCutNext places.now links.now) }
{
    match least_ear(doubts, places, links, hulls)? {
        Some(place) => Ok(Choice {
            place,
            forced: false,
        }),
        None => Ok(Choice {
            place: first_allowed(places, links, first),
            forced: true,
        }),
    }
}

// The least place that is allowed.
fn first_allowed(places: &[Place], links: &Links, first: usize) -> usize
    requires { IsFirst places.now links.now first }
    ensures living { is_left links.now result ≡ true }
    ensures allowed { is_allowed (rest_ring places.now links.now) (number_in links.now result) ≡ true }
    ensures value { number_in links.now result ≡ first_allowed (rest_ring places.now links.now) }
{
    let mut i = first;
    while !may_go(places, links, i) {
        i = after(links, i);
    }
    i
}

// The triangle of a place and its neighbours.
fn triple_at(places: &[Place], links: &Links, i: usize) -> [u32; 3]
    requires linked { AreLinks (length places.now) links.now }
    requires living { is_left links.now i ≡ true }
    ensures { triple_of result ≡ triple_at (rest_ring places.now links.now) (number_in links.now i) }
{
    let c = corners(places, links, i);
    [c.p.vertex, c.x.vertex, c.n.vertex]
}
