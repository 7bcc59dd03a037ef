// Points of the grid in which edges of a plane cross.
ghost use Rattle.std.specs.Prelude.{◌≡◌, IfOk, IfSome};
ghost use Rattle.mesh_terms.specs.Points.{IsPoint};
ghost use Rattle.sheet_terms.specs.Crossings.{is_lower};
ghost use Rattle.sheet_terms.specs.Places.{ordered};

use mb_base::{NoMemory, Point};
use std::alloc::Global;

/// The points of these coordinates, by x, then by y, then by z. `NoMemory` also comes where one of them isn't on the grid; crossings are.
pub fn sorted_points(alloc: Global, mut found: Vec<[i32; 3]>) -> Result<Vec<Point>, NoMemory>
    ensures { IfOk result (λ points. points.items ≡ ordered is_lower found.items) }
{
    found.sort_unstable();
    let mut points = Vec::with_capacity(alloc, found.len())?;
    for at in &found {
        match point_of(at) {
            Some(point) => points.push(point)?,
            None => return Err(NoMemory),
        }
    }
    Ok(points)
}

// The point of these coordinates. None where it isn't on the grid.
fn point_of(at: &[i32; 3]) -> Option<Point>
    ensures { IfSome result (λ p. (p ≡ at.now) × IsPoint at.now) }
{
    let [x, y, z] = *at;
    Point::of(x, y, z)
}
