// A tree over places, each a box of one point.
ghost use Rattle.std.specs.Prelude.{◌≡◌, ◌≤◌, IfOk, length, map};
ghost use Rattle.edge_cutting.specs.Boxes.{point_box};

use box_tree::{Bounds, Boxes, Tree};
use mb_base::{Box3, NoMemory, Point};
use std::alloc::Global;

// The boxes of points, in order.
#[derive(Drop)]
struct PointBoxes<'a> {
    points: &'a [Point],
}

// The box of one point.
fn box_of(point: Point) -> Box3
    ensures { result ≡ point_box point }
{
    let [x, y, z] = point.at();
    let at = [i64::from(x), i64::from(y), i64::from(z)];
    Box3 { low: at, high: at }
}

impl Boxes for PointBoxes<'_> {
    ghost boxes = { λ s. map point_box s.points.now };

    #[inline]
    fn count(&self) -> usize {
        self.points.len()
    }

    #[inline]
    fn box_at(&self, number: usize) -> Box3 {
        box_of(self.points[number])
    }

    #[inline]
    fn whole_steps(&self) -> Option<u32> {
        None
    }

    #[inline]
    fn bounds_at(&self, number: usize, shift: u32) -> Bounds {
        Bounds::around(&box_of(self.points[number]), shift)
    }
}

/// The tree over places.
pub fn tree_over(alloc: Global, points: &[Point]) -> Result<Tree, NoMemory>
    requires { length points.now ≤ 300000000 }
    ensures { IfOk result (λ tree. tree ≡ map point_box points.now) }
{
    Tree::over(alloc, &PointBoxes { points })
}
