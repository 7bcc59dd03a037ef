// Motions that keep the grid.
ghost use Rattle.std.specs.Prelude.{◌≡◌, ◌<◌, IfOk, map, neg_ℤ};
ghost use Rattle.mesh_terms.specs.Points.{IsOnGrid};
ghost use Rattle.made_terms.specs.Solids.{point};
ghost use Rattle.mesh_terms.specs.Meshes.{triples_of};
ghost use Rattle.made_terms.specs.Motions.{mirrored, quarter_turned, turned_over};

use mb_base::{NoMemory, Point};
use std::alloc::Global;

/// The points, each with the other sign on one coordinate.
pub fn mirrored_points(alloc: Global, points: &[Point], axis: u8) -> Result<Vec<Point>, NoMemory>
    requires { axis < 3 }
    ensures { IfOk result (λ moved. moved.items ≡ map (mirrored axis) points.now) }
{
    let mut moved = Vec::with_capacity(alloc, points.len())?;
    for point in points {
        moved.push(mirrored_point(*point, axis))?;
    }
    Ok(moved)
}

// A point with the other sign on one coordinate.
fn mirrored_point(point: Point, axis: u8) -> Point
    requires { axis < 3 }
    ensures { result ≡ mirrored axis point }
{
    let [x, y, z] = point.at();
    match axis {
        0 => point_at(turned(x), y, z),
        1 => point_at(x, turned(y), z),
        _ => point_at(x, y, turned(z)),
    }
}

/// The points after a quarter turn.
pub fn turned_points(alloc: Global, points: &[Point], axis: u8) -> Result<Vec<Point>, NoMemory>
    requires { axis < 3 }
    ensures { IfOk result (λ moved. moved.items ≡ map (quarter_turned axis) points.now) }
{
    let mut moved = Vec::with_capacity(alloc, points.len())?;
    for point in points {
        moved.push(turned_point(*point, axis))?;
    }
    Ok(moved)
}

// A point after a quarter turn.
fn turned_point(point: Point, axis: u8) -> Point
    requires { axis < 3 }
    ensures { result ≡ quarter_turned axis point }
{
    let [x, y, z] = point.at();
    match axis {
        0 => point_at(x, turned(z), y),
        1 => point_at(z, y, turned(x)),
        _ => point_at(turned(y), x, z),
    }
}

// A coordinate with the other sign.
fn turned(coordinate: i32) -> i32
    requires { IsOnGrid coordinate }
    ensures value { result ≡ neg_ℤ coordinate }
    ensures on_grid { IsOnGrid result }
{
    -coordinate
}

// The point with coordinates on the grid.
fn point_at(x: i32, y: i32, z: i32) -> Point
    requires x { IsOnGrid x }
    requires y { IsOnGrid y }
    requires z { IsOnGrid z }
    ensures { result ≡ point x y z }
{
    match Point::of(x, y, z) {
        Some(point) => point,
        // All three are on the grid.
        None => unreachable!(),
    }
}

/// The triangles with the last two vertices exchanged.
pub fn turned_triples(alloc: Global, triples: &[[u32; 3]]) -> Result<Vec<[u32; 3]>, NoMemory>
    ensures { IfOk result (λ turned. triples_of turned.items ≡ map turned_over (triples_of triples.now)) }
{
    let mut turned = Vec::with_capacity(alloc, triples.len())?;
    for [a, b, c] in triples {
        turned.push([*a, *c, *b])?;
    }
    Ok(turned)
}
