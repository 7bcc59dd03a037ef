// Doubled areas of loops.
ghost use Rattle.std.specs.Prelude.{◌≡◌, ◌+◌, ◌*◌, ◌^◌, ◌<◌, ◌≤◌, ◌∷◌, [], IfOk, length, map, get_or, pos, int_lt};
ghost use Rattle.std.specs.List.{concat};
ghost use Rattle.chain_laws.specs.Sums.{IsWithin};
ghost use Rattle.chain_terms.specs.Sums.{total};
ghost use Rattle.mesh_terms.specs.Limits.{most_halfedges};
ghost use Rattle.face_plane.specs.Planes.{area, wedge};
ghost use Rattle.hole_joining.specs.Seen.{plane_at, straight_at};
ghost use Rattle.hole_joining.specs.Holes.{is_ring, is_hole};

use crate::flat::FlatPoints;
use face_loops::Loop;
use face_plane::FlatPoint;
use mb_base::NoMemory;
use std::alloc::Global;

/// The doubled areas of loops.
#[derive(Drop)]
pub struct Areas {
    /// The doubled area of each loop.
    pub each: Vec<i128>,
    /// Their sum.
    pub sum: i128,
}

// The doubled area of the origin and an edge.
fn edge_area(from: FlatPoint, to: FlatPoint) -> i128
    ensures value { result ≡ wedge from to }
    ensures small { IsWithin result (2 ^ 61) }
{
    i128::from(FlatPoint::wedge(from, to))
}

// The doubled area of a loop.
fn loop_area(flat: &FlatPoints, ring: &[u32]) -> i128
    ensures value { result ≡ area (plane_at flat.now) ring.now }
    ensures small { IsWithin result (2 ^ 61 * length ring.now) }
{
    match ring.split_first() {
        None => 0,
        Some((first, rest)) => area_from(flat, *first, rest),
    }
}

// The doubled area of a loop of a first vertex and others.
fn area_from(flat: &FlatPoints, first: u32, rest: &[u32]) -> i128
    ensures value { result ≡ area (plane_at flat.now) (first ∷ rest.now) }
    ensures small { IsWithin result (2 ^ 61 * (length rest.now + 1)) }
{
    let start = flat.vertex(first);
    let mut sum = 0i128;
    let mut last = start;
    for vertex in rest {
        let next = flat.vertex(*vertex);
        sum += edge_area(last.at, next.at);
        last = next;
    }
    sum + edge_area(last.at, start.at)
}

/// The doubled areas of all loops.
pub fn areas_of(alloc: Global, flat: &FlatPoints, loops: &[Loop]) -> Result<Areas, NoMemory>
    requires { length (concat loops.now) ≤ most_halfedges }
    ensures each { IfOk result (λ areas. areas.each.items ≡ map (area (plane_at flat.now)) loops.now) }
    ensures sum { IfOk result (λ areas. areas.sum ≡ total (area (plane_at flat.now)) loops.now) }
{
    let mut each = Vec::with_capacity(alloc, loops.len())?;
    let mut sum = 0i128;
    for one in loops {
        let area = loop_area(flat, one.vertices());
        each.push(area)?;
        sum += area;
    }
    Ok(Areas { each, sum })
}

/// Whether the areas add up to less than 0.
pub fn is_turned(areas: &Areas) -> bool
    ensures { result ≡ int_lt areas.now.sum (pos 0) }
{
    areas.sum < 0
}

/// Whether a loop is a ring, its doubled area at least 0. The areas are those where u and v are not exchanged; exchanged,
/// each is negated.
pub fn is_ring(flat: &FlatPoints, loops: &[Loop], areas: &[i128], i: usize) -> bool
    requires areas { areas.now ≡ map (area (straight_at flat.now)) loops.now }
    requires within { i < length loops.now }
    ensures { result ≡ is_ring (plane_at flat.now) (get_or loops.now i []) }
{
    if flat.turned {
        areas[i] <= 0
    } else {
        areas[i] >= 0
    }
}

/// Whether it is a hole.
pub fn is_hole(flat: &FlatPoints, loops: &[Loop], areas: &[i128], i: usize) -> bool
    requires areas { areas.now ≡ map (area (straight_at flat.now)) loops.now }
    requires within { i < length loops.now }
    ensures { result ≡ is_hole (plane_at flat.now) (get_or loops.now i []) }
{
    !is_ring(flat, loops, areas, i)
}
