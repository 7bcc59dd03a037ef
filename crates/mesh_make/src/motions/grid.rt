// Motions that may leave the grid.
ghost use Rattle.std.specs.Prelude.{◌≡◌, ◌≤◌, IfOk, map, true, pos};
ghost use Rattle.made_terms.specs.Motions.{shifted, scaled};
ghost use Rattle.made_terms.specs.Refusals.{all_on_grid};
ghost use Rattle.mesh_make.specs.Moves.{moves, IsSmall};

use crate::rows::{is_grid_point, moved_row, point_of, row_of};
use mb_base::{NoMemory, Point};
use std::alloc::Global;

/// Something added to each point, or a factor of each coordinate.
#[derive(Clone, Copy, Debug, PartialEq, Eq, Drop)]
pub enum GridMotion {
    Shift([i32; 3]),
    Scale(u32),
}

/// Whether all points stay on the grid.
pub fn stay(points: &[Point], motion: &GridMotion) -> bool
    requires { IsSmall motion.now }
    ensures { result ≡ all_on_grid (map (moves motion.now) points.now) }
{
    for point in points {
        if !is_grid_point(&row_after(*point, motion)) {
            return false;
        }
    }
    true
}

/// The moved points, which stay on the grid.
pub fn moved_points(
    alloc: Global,
    points: &[Point],
    motion: &GridMotion,
) -> Result<Vec<Point>, NoMemory>
    requires small { IsSmall motion.now }
    requires stay { all_on_grid (map (moves motion.now) points.now) ≡ true }
    ensures { IfOk result (λ moved. moved.items ≡ map (moves motion.now) points.now) }
{
    let mut moved = Vec::with_capacity(alloc, points.len())?;
    for point in points {
        match point_of(&row_after(*point, motion)) {
            Some(point) => moved.push(point)?,
            // All points stay on the grid.
            None => unreachable!(),
        }
    }
    Ok(moved)
}

// The coordinates of a moved point.
fn row_after(point: Point, motion: &GridMotion) -> [i64; 3]
    requires { IsSmall motion.now }
    ensures { result ≡ moves motion.now point }
{
    match *motion {
        GridMotion::Shift(by) => shifted_row(point, by),
        GridMotion::Scale(factor) => scaled_row(point, factor),
    }
}

// The coordinates of a point with `by` added.
fn shifted_row(point: Point, by: [i32; 3]) -> [i64; 3]
    ensures { result ≡ shifted by point }
{
    let [x, y, z] = by;
    moved_row(&row_of(point), i64::from(x), i64::from(y), i64::from(z))
}

// The coordinates of a point, multiplied by the factor.
fn scaled_row(point: Point, factor: u32) -> [i64; 3]
    requires { factor ≤ 1000000 }
    ensures { result ≡ scaled (pos factor) point }
{
    let [x, y, z] = row_of(point);
    let factor = i64::from(factor);
    [factor * x, factor * y, factor * z]
}
