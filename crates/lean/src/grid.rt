// The bounds of triangles in steps of the grid.
ghost use Rattle.std.specs.Prelude.{◌≡◌, ◌<◌, IsTrue, length};
ghost use Rattle.mesh_terms.specs.Meshes.{IsBelow, triple_of};
ghost use Rattle.lean.specs.Grid.{IsGridStep, face_bounds, fine_box, range_on};

use crate::corner::fine_steps;
use box_tree::{Bounds, Range};
use mb_base::{Box3, Point, UNIT};

/// Whether a step of the grid is 2^shift fine steps.
#[inline]
pub fn is_grid_step(shift: u32) -> bool
    ensures { IsTrue result → IsGridStep shift }
{
    shift < 64 && UNIT as u64 == 1 << shift
}

/// The bounds of a triangle.
#[inline]
pub fn face_bounds(points: &[Point], triple: &[u32; 3]) -> Bounds
    requires { IsBelow (length points.now) (triple_of triple.now) }
    ensures { result ≡ face_bounds points.now (triple_of triple.now) }
{
    let [a, b, c] = *triple;
    let (p, q, r) = (points[a as usize], points[b as usize], points[c as usize]);
    Bounds {
        x: range_on(0, p, q, r),
        y: range_on(1, p, q, r),
        z: range_on(2, p, q, r),
    }
}

// The least and the greatest coordinate of three points on an axis.
#[inline]
fn range_on(axis: usize, a: Point, b: Point, c: Point) -> Range
    requires { axis < 3 }
    ensures { result ≡ range_on axis a b c }
{
    let (a, b, c) = (a.at()[axis], b.at()[axis], c.at()[axis]);
    Range {
        low: a.min(b).min(c),
        high: a.max(b).max(c),
    }
}

/// Bounds in steps of the grid as a box in fine steps.
#[inline]
pub fn fine_box(bounds: Bounds) -> Box3
    ensures { result ≡ fine_box bounds }
{
    Box3 {
        low: [
            fine_steps(bounds.x.low, UNIT),
            fine_steps(bounds.y.low, UNIT),
            fine_steps(bounds.z.low, UNIT),
        ],
        high: [
            fine_steps(bounds.x.high, UNIT),
            fine_steps(bounds.y.high, UNIT),
            fine_steps(bounds.z.high, UNIT),
        ],
    }
}
