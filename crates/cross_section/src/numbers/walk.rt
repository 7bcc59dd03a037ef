// The winding numbers of all vertices of a side.
//
// Winding numbers of an outline's points are found by a walk round each loop, and from loop to loop. The way to
// another loop leads from the nearest point of the loop before: a way from its last point may lie across all loops
// between, as the way from corner to corner of nested squares does, and asks each of them. Loops are taken by where
// they begin on a curve that fills the plane square after square, so that the next is near whatever their order in
// the outline is: any order is right, but a way to a loop far away asks all edges that its box touches.
ghost use Rattle.std.specs.Prelude.{◌≡◌, ◌≤◌, ◌<◌, ℕ, nat_abs, IfOk, length, map};
ghost use Rattle.std.specs.List.{All};
ghost use Rattle.std.specs.List.Sorted.{IsPermutation};
ghost use Rattle.outline_terms.specs.Outlines.{IsBetween};
ghost use Rattle.cross_section.specs.Walks.{ChangesAlong, IsStartBefore, IsWhole, winding_of};

use crate::numbers::order::nearby;
use crate::numbers::side::FlatSide;
use crate::numbers::sums::{change_along, winding_sum};
use crate::numbers::tests::EdgeTests;
use mb_base::{Corner, NoMemory};
use std::alloc::Global;

/// The winding numbers of the vertices of one side in the other: one sum for one vertex. From there it goes along that vertex's
/// loop, and on to a loop nearby, and so on; along each way the number changes by the way's crossings. The way to another loop
/// leads from the nearest vertex of the loop before. The time is that of a sort of the edges, of the sum, and for each way that
/// of the edges whose boxes touch its own.
pub fn winding_numbers<T: EdgeTests>(
    alloc: Global,
    vertices: &FlatSide,
    edges: &FlatSide,
    tests: &T,
) -> Result<Vec<i64>, NoMemory>
    requires whole { IsWhole vertices.now }
    requires changes { ChangesAlong (T.part_of tests.now) (T.change_of tests.now) vertices.now edges.now }
    ensures value { IfOk result (λ w. w.items ≡ map (winding_of (T.part_of tests.now) edges.now) vertices.now.corners) }
    ensures size { IfOk result (λ w. All (λ n. nat_abs n ≤ length edges.now.edges) w.items) }
{
    let list = nearby(alloc, vertices.corners(), vertices.edges())?;
    walk(alloc, &list, vertices, edges, tests)
}

// The same by a walk over all edges in such an order.
fn walk<T: EdgeTests>(
    alloc: Global,
    list: &[(u32, u32)],
    vertices: &FlatSide,
    edges: &FlatSide,
    tests: &T,
) -> Result<Vec<i64>, NoMemory>
    requires moved { IsPermutation vertices.now.edges list.now }
    requires below { All (IsBetween (length vertices.now.corners)) list.now }
    requires whole { IsWhole vertices.now }
    requires changes { ChangesAlong (T.part_of tests.now) (T.change_of tests.now) vertices.now edges.now }
    ensures value { IfOk result (λ w. w.items ≡ map (winding_of (T.part_of tests.now) edges.now) vertices.now.corners) }
    ensures size { IfOk result (λ w. All (λ n. nat_abs n ≤ length edges.now.edges) w.items) }
{
    let corners = vertices.corners();
    // Read so that what the other side keeps is known here.
    let _ = edges.corners();
    let mut numbers = vec![in alloc; 0; corners.len()]?;
    if list.is_empty() {
        return Ok(numbers);
    }
    let first = list[0].0;
    numbers[first as usize] = winding_sum(&corners[first as usize], edges, tests);
    let mut begin = 0;
    for place in 1..list.len() {
        let next = list[place].0;
        let last = way_start(corners, list, begin, place);
        let change = change_along(&vertices.way(last, next), edges, tests);
        numbers[next as usize] = numbers[last as usize] + change;
        begin = loop_start(list, begin, place);
    }
    Ok(numbers)
}

// Whether the loop of the edge before an edge ends there.
fn ends_loop(list: &[(u32, u32)], place: usize) -> bool
    requires some { 0 < place }
    requires place { place < length list.now }
{
    list[place - 1].1 != list[place].0
}

// The first edge of the loop of an edge, where that of the edge before is known.
fn loop_start(list: &[(u32, u32)], begin: usize, place: usize) -> usize
    requires some { 0 < place }
    requires place { place < length list.now }
    requires begin { begin ≤ place }
    ensures { result ≤ place }
{
    if ends_loop(list, place) { place } else { begin }
}

// Where the way to the start of an edge begins: where the edge before it starts; or, where another loop begins with the edge,
// at the vertex of the loop before that is nearest.
fn way_start(corners: &[Corner], list: &[(u32, u32)], begin: usize, place: usize) -> u32
    requires below { All (IsBetween (length corners.now)) list.now }
    requires some { 0 < place }
    requires place { place < length list.now }
    requires begin { begin ≤ place }
    ensures { IsStartBefore list.now place result }
{
    if ends_loop(list, place) {
        nearest(corners, list, begin, place)
    } else {
        list[place - 1].0
    }
}

// The nearest to the start of an edge of the starts of the edges before it, from a number on.
fn nearest(corners: &[Corner], list: &[(u32, u32)], begin: usize, place: usize) -> u32
    requires below { All (IsBetween (length corners.now)) list.now }
    requires some { 0 < place }
    requires place { place < length list.now }
    requires begin { begin ≤ place }
    ensures { IsStartBefore list.now place result }
{
    let goal = &corners[list[place].0 as usize];
    let mut best = list[place - 1].0;
    let mut least = distance(&corners[best as usize], goal);
    for each in begin..place {
        let vertex = list[each].0;
        let far = distance(&corners[vertex as usize], goal);
        if far < least {
            best = vertex;
            least = far;
        }
    }
    best
}

// How far two corners are from one another: the greater of the differences on x and on y.
fn distance(one: &Corner, other: &Corner) -> u64 {
    let x = one.at[0].abs_diff(other.at[0]);
    let y = one.at[1].abs_diff(other.at[1]);
    x.max(y)
}
