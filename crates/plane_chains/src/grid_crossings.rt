// Points of the grid in which edges cross.
ghost use Rattle.std.specs.Prelude.{◌≡◌, ◌≢◌, ◌+ℤ◌, ◌-ℤ◌, ◌*ℤ◌, ◌<◌, ◌≤◌, ◌^◌, ◌++◌, IfNone, IfOk, IfSome, OnOk, false, int_div, length, map, pos, true, unsigned_abs};
ghost use Rattle.std.specs.List.{All, flat_map};
ghost use Rattle.std.specs.Ordering.{int_eq};
ghost use Rattle.face_plane.specs.Planes.{face_plane, orient, point_at, turn};
ghost use Rattle.mesh_terms.specs.Points.{IsOnGrid, coordinate_of};
ghost use Rattle.plane_chains.specs.EdgeBoxes.{pair_of};
ghost use Rattle.plane_chains.specs.Pairs.{IsCrossingPair, edge_at, option_list};
ghost use Rattle.plane_chains.specs.Parts.{IsPartOf, is_whole_between, part_between};
ghost use Rattle.sheet_terms.specs.Chains.{cross, crossing_point, grid_point};

use crate::flat_places::FlatPlaces;
use face_plane::FlatPoint;
use mb_base::{NoMemory, Point};
use std::alloc::Global;

/// The points of the grid in which pairs of edges cross, by their coordinates.
pub fn grid_points(
    alloc: Global,
    flat: &FlatPlaces,
    edges: &[[u32; 2]],
    pairs: &[[u32; 2]],
) -> Result<Vec<[i32; 3]>, NoMemory>
    requires places { All (λ e. All (λ v. v < length flat.now.points.now) e) edges.now }
    requires crossing { All (IsCrossingPair (face_plane flat.now.plane.drop flat.now.turned flat.now.points.now) (map pair_of edges.now)) (map pair_of pairs.now) }
    ensures points { IfOk result (λ found. found.items ≡ flat_map (λ p. crossing_point flat.now.points.now (face_plane flat.now.plane.drop flat.now.turned flat.now.points.now)
        (edge_at (map pair_of edges.now) (pair_of p).0) (edge_at (map pair_of edges.now) (pair_of p).1)) pairs.now) }
    ensures grid { IfOk result (λ found. All (All IsOnGrid) found.items) }
{
    let mut found = Vec::new(alloc);
    for pair in pairs {
        add(&mut found, pair_point(flat, edges, *pair))?;
    }
    Ok(found)
}

// Adds a point if there is one.
fn add(found: &mut Vec<[i32; 3]>, point: Option<[i32; 3]>) -> Result<(), NoMemory>
    ensures { OnOk result (found.new.items ≡ found.old.items ++ option_list point) }
{
    if let Some(at) = point {
        found.push(at)?;
    }
    Ok(())
}

// Where the edges of a pair cross, if that is a point of the grid.
fn pair_point(flat: &FlatPlaces, edges: &[[u32; 2]], pair: [u32; 2]) -> Option<[i32; 3]>
    requires places { All (λ e. All (λ v. v < length flat.now.points.now) e) edges.now }
    requires one { (pair_of pair).0 < length edges.now }
    requires other { (pair_of pair).1 < length edges.now }
    requires crosses { cross (face_plane flat.now.plane.drop flat.now.turned flat.now.points.now) (edge_at (map pair_of edges.now) (pair_of pair).0)
        (edge_at (map pair_of edges.now) (pair_of pair).1) ≡ true }
    ensures point { option_list result ≡ crossing_point flat.now.points.now (face_plane flat.now.plane.drop flat.now.turned flat.now.points.now)
        (edge_at (map pair_of edges.now) (pair_of pair).0) (edge_at (map pair_of edges.now) (pair_of pair).1) }
    ensures grid { IfSome result (All IsOnGrid) }
{
    grid_point(flat, edges[pair[0] as usize], edges[pair[1] as usize])
}

// Where two edges cross, if that is a point of the grid.
fn grid_point(flat: &FlatPlaces, edge: [u32; 2], other: [u32; 2]) -> Option<[i32; 3]>
    requires edge { All (λ v. v < length flat.now.points.now) edge }
    requires other { All (λ v. v < length flat.now.points.now) other }
    requires crossing { cross (face_plane flat.now.plane.drop flat.now.turned flat.now.points.now) (pair_of edge) (pair_of other) ≡ true }
    ensures point { option_list result ≡ crossing_point flat.now.points.now (face_plane flat.now.plane.drop flat.now.turned flat.now.points.now) (pair_of edge) (pair_of other) }
    ensures grid { IfSome result (All IsOnGrid) }
{
    let before = turn_at(flat, other, edge[0]);
    let whole = difference(before, turn_at(flat, other, edge[1]));
    part_point(point(flat, edge[0]), point(flat, edge[1]), before, whole)
}

// The point at a place.
fn point(flat: &FlatPlaces, place: u32) -> Point
    requires { place < length flat.now.points.now }
    ensures { result ≡ point_at flat.now.points.now place }
{
    flat.points[place as usize]
}

// The turn of an edge and a place.
fn turn_at(flat: &FlatPlaces, edge: [u32; 2], place: u32) -> i128
    requires edge { All (λ v. v < length flat.now.points.now) edge }
    requires place { place < length flat.now.points.now }
    ensures value { result ≡ orient (face_plane flat.now.plane.drop flat.now.turned flat.now.points.now) (pair_of edge).0 (pair_of edge).1 place }
    ensures small { unsigned_abs result ≤ 2 ^ 64 }
{
    turn(flat.at(edge[0]), flat.at(edge[1]), flat.at(place))
}

// The turn of three points.
fn turn(a: FlatPoint, b: FlatPoint, c: FlatPoint) -> i128
    ensures value { result ≡ turn a b c }
    ensures small { unsigned_abs result ≤ 2 ^ 64 }
{
    let along = product(step(a.u(), b.u()), step(a.v(), c.v()));
    let against = product(step(a.v(), b.v()), step(a.u(), c.u()));
    difference(along, against)
}

// The step from one coordinate to another.
fn step(from: i64, to: i64) -> i64
    requires from { IsOnGrid from }
    requires to { IsOnGrid to }
    ensures value { result ≡ to -ℤ from }
    ensures small { unsigned_abs result ≤ 2 ^ 31 }
{
    to - from
}

// How much more one number is than another.
fn difference(one: i128, other: i128) -> i128
    requires one { unsigned_abs one ≤ 2 ^ 64 }
    requires other { unsigned_abs other ≤ 2 ^ 64 }
    ensures { result ≡ one -ℤ other }
{
    one - other
}

// The product of two steps.
fn product(x: i64, y: i64) -> i128
    requires x_small { unsigned_abs x ≤ 2 ^ 31 }
    requires y_small { unsigned_abs y ≤ 2 ^ 31 }
    ensures value { result ≡ x *ℤ y }
    ensures small { unsigned_abs result ≤ 2 ^ 62 }
{
    i128::from(x) * i128::from(y)
}

// The point that lies that part of the whole on the way from a to b, if it is one of the grid.
fn part_point(a: Point, b: Point, part: i128, whole: i128) -> Option<[i32; 3]>
    requires part { IsPartOf part whole }
    requires small { unsigned_abs part ≤ 2 ^ 64 }
    ensures point { option_list result ≡ grid_point part whole a b }
    ensures grid { IfSome result (All IsOnGrid) }
{
    let x = part_on(0, a, b, part, whole)?;
    let y = part_on(1, a, b, part, whole)?;
    let z = part_on(2, a, b, part, whole)?;
    Some([x, y, z])
}

// Its coordinate on an axis, if that is a whole number.
fn part_on(axis: usize, a: Point, b: Point, part: i128, whole: i128) -> Option<i32>
    requires axis { axis < 3 }
    requires part { IsPartOf part whole }
    requires small { unsigned_abs part ≤ 2 ^ 64 }
    ensures none { IfNone result (is_whole_between part whole (coordinate_of a axis) (coordinate_of b axis) ≡ false) }
    ensures some { IfSome result (λ x. (is_whole_between part whole (coordinate_of a axis) (coordinate_of b axis) ≡ true)
        × (x ≡ coordinate_of a axis +ℤ part_between part whole (coordinate_of a axis) (coordinate_of b axis))) }
    ensures grid { IfSome result IsOnGrid }
{
    part_between(coordinate(a, axis), coordinate(b, axis), part, whole)
}

// A coordinate of a point.
fn coordinate(point: Point, axis: usize) -> i32
    requires { axis < 3 }
    ensures value { result ≡ coordinate_of point axis }
    ensures on_grid { IsOnGrid result }
{
    point.at()[axis]
}

// The coordinate that lies that part of the whole on the way from one to another, if that is a whole number.
fn part_between(from: i32, to: i32, part: i128, whole: i128) -> Option<i32>
    requires from { IsOnGrid from }
    requires to { IsOnGrid to }
    requires part { IsPartOf part whole }
    requires small { unsigned_abs part ≤ 2 ^ 64 }
    ensures none { IfNone result (is_whole_between part whole from to ≡ false) }
    ensures some { IfSome result (λ x. (is_whole_between part whole from to ≡ true) × (x ≡ from +ℤ part_between part whole from to)) }
    ensures grid { IfSome result IsOnGrid }
{
    let step = whole_quotient(multiple(way(from, to), part), whole)?;
    Some(moved(from, step))
}

// The way from one coordinate to another.
fn way(from: i32, to: i32) -> i64
    requires from { IsOnGrid from }
    requires to { IsOnGrid to }
    ensures value { result ≡ to -ℤ from }
    ensures small { unsigned_abs result ≤ 2 ^ 31 }
{
    i64::from(to) - i64::from(from)
}

// A way as often as a number says.
fn multiple(way: i64, number: i128) -> i128
    requires way { unsigned_abs way ≤ 2 ^ 31 }
    requires number { unsigned_abs number ≤ 2 ^ 64 }
    ensures { result ≡ way *ℤ number }
{
    i128::from(way) * number
}

// The coordinate that lies so far from another.
fn moved(from: i32, step: i128) -> i32
    requires from { IsOnGrid from }
    requires to { IsOnGrid (from +ℤ step) }
    ensures { result ≡ from +ℤ step }
{
    (i128::from(from) + step) as i32
}

// The quotient of two numbers, if it is a whole one.
fn whole_quotient(step: i128, whole: i128) -> Option<i128>
    requires some { whole ≢ pos 0 }
    requires small { unsigned_abs step ≤ 2 ^ 96 }
    ensures none { IfNone result (int_eq (int_div step whole *ℤ whole) step ≡ false) }
    ensures some { IfSome result (λ q. (q ≡ int_div step whole) × (q *ℤ whole ≡ step)) }
{
    if step % whole == 0 {
        Some(step / whole)
    } else {
        None
    }
}
