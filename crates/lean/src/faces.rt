// The corners of triangles, and the tree over their boxes.
ghost use Rattle.std.specs.Prelude.{◌≡◌, ◌≤◌, ◌^◌, IfOk, length};
ghost use Rattle.std.specs.List.{All};
ghost use Rattle.mesh_terms.specs.Limits.{most_triangles};
ghost use Rattle.mesh_terms.specs.Meshes.{IsBelow, triple_of, triples_of};
ghost use Rattle.side_terms.specs.Sides.{face_of};
ghost use Rattle.lean.specs.Grid.{boxes_on};
ghost use Rattle.lean.specs.Vectors.{AllSmall};

use crate::grid::{face_bounds, fine_box, is_grid_step};
use box_tree::{Bounds, Boxes, Tree};
use mb_base::{Box3, Corner, NoMemory, Point, UNIT};
use std::alloc::Global;

/// The corners of a triangle.
#[inline]
pub fn face_of(corners: &[Corner], triple: &[u32; 3]) -> [Corner; 3]
    requires { IsBelow (length corners.now) (triple_of triple.now) }
    ensures { result ≡ face_of corners.now (triple_of triple.now) }
{
    let [a, b, c] = *triple;
    [
        corners[a as usize],
        corners[b as usize],
        corners[c as usize],
    ]
}

/// The tree over the boxes of triangles on these points, in fine steps. Each box is made anew when it is asked for, since
/// steps of the grid are all that the tree keeps. `NoMemory` may come for any triangles.
pub fn tree_over(alloc: Global, points: &[Point], triples: &[[u32; 3]]) -> Result<Tree, NoMemory>
    requires below { All (IsBelow (length points.now)) (triples_of triples.now) }
    requires grid { AllSmall (2 ^ 30) points.now }
    requires few { length triples.now ≤ most_triangles }
    ensures { IfOk result (λ tree. tree ≡ boxes_on points.now (triples_of triples.now)) }
{
    Tree::over(alloc, &FaceBoxes { points, triples })
}

// The boxes of triangles, in order.
#[derive(Drop)]
struct FaceBoxes<'a> {
    points: &'a [Point],
    triples: &'a [[u32; 3]],
    ghost below: { All (IsBelow (length points.now)) (triples_of triples.now) },
    ghost grid: { AllSmall (2 ^ 30) points.now },
}

impl Boxes for FaceBoxes<'_> {
    ghost boxes = { λ s. boxes_on s.points.now (triples_of s.triples.now) };

    #[inline]
    fn count(&self) -> usize {
        self.triples.len()
    }

    #[inline]
    fn box_at(&self, number: usize) -> Box3 {
        fine_box(face_bounds(self.points, &self.triples[number]))
    }

    // The grid's step, where it is a power of two.
    #[inline]
    fn whole_steps(&self) -> Option<u32> {
        let shift = UNIT.trailing_zeros();
        if is_grid_step(shift) {
            Some(shift)
        } else {
            None
        }
    }

    #[inline]
    fn bounds_at(&self, number: usize, shift: u32) -> Bounds {
        let bounds = face_bounds(self.points, &self.triples[number]);
        if is_grid_step(shift) {
            bounds
        } else {
            Bounds::around(&fine_box(bounds), shift)
        }
    }
}
