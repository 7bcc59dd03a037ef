// The tree over some boxes.
ghost use Rattle.std.specs.Prelude.{◌≡◌, ◌≤◌, IfOk, IsTrue, length};
ghost use Rattle.std.specs.List.{All};
ghost use Rattle.std.specs.List.Sorted.{IsPermutation};
ghost use Rattle.box_tree.specs.Coarse.{IsExact};
ghost use Rattle.box_tree.specs.Nodes.{AreKept};
ghost use Rattle.box_tree.specs.Touching.{IsBox, touching_numbers};

use crate::MOST_BOXES;
use crate::bounds::Bounds;
use crate::boxes::Boxes;
use crate::extent::{Quantization, quantization_of};
use crate::nodes::{Entry, Node, nodes_over};
use crate::order::entries_of;
use crate::touching::Touching;
use crate::walk::{Question, Walk, first_stack};
use mb_base::{Box3, NoMemory};
use std::alloc::Global;
use std::marker::Model;

/// Boxes, numbered from 0, of which those that touch an area are found without looking at all of them.
#[derive(Drop)]
pub struct Tree {
    // None where the bounds of the entries are the boxes.
    boxes: Vec<Box3>,
    // The power of two of a coarse step.
    shift: u32,
    entries: Vec<Entry>,
    nodes: Vec<Node>,
}

impl Model for Tree {
    ghost use Rattle.std.specs.Prelude.{List};
    ghost use Rattle.mb_base.specs.declared.point.Box3.{Box3};
    ghost use Rattle.box_tree.specs.Nodes.{IsTree, boxes_stored};

    ghost Value = { List Box3 };

    ghost view = { λ t. boxes_stored t.shift t.boxes.items t.entries.items };

    ghost invariant = { λ t. IsTree t.shift t.boxes.items (boxes_stored t.shift t.boxes.items t.entries.items) t.entries.items t.nodes.items };
}

// The boxes that are stored beside the entries: none where the bounds of the entries are the boxes.
fn stored<B: Boxes>(
    alloc: Global,
    boxes: &B,
    quantization: Quantization,
) -> Result<Vec<Box3>, NoMemory>
    requires { IsTrue quantization.exact → All (IsExact quantization.shift) (B.boxes boxes.now) }
    ensures { IfOk result (λ stored. AreKept quantization.shift stored.items (B.boxes boxes.now)) }
{
    if quantization.exact {
        return Ok(Vec::new(alloc));
    }
    copy_of(alloc, boxes)
}

// All boxes, in order.
fn copy_of<B: Boxes>(alloc: Global, boxes: &B) -> Result<Vec<Box3>, NoMemory>
    ensures { IfOk result (λ copy. copy.items ≡ B.boxes boxes.now) }
{
    let mut copy = Vec::with_capacity(alloc, boxes.count())?;
    for number in 0..boxes.count() {
        copy.push(boxes.box_at(number))?;
    }
    Ok(copy)
}

impl Tree {
    /// The tree over these boxes, the first of which has the number 0. `NoMemory` may come for any boxes.
    pub fn build(alloc: Global, boxes: &[Box3]) -> Result<Tree, NoMemory>
        requires few { length boxes.now ≤ MOST_BOXES }
        requires boxes { All IsBox boxes.now }
        ensures { IfOk result (λ tree. tree ≡ boxes.now) }
    {
        Tree::over(alloc, &boxes)
    }

    /// The tree over boxes that are told one by one, the first of which has the number 0. It keeps a copy of them only where
    /// some coordinate, without the zero bits with which all of them end, is no i32. `NoMemory` may come for any boxes.
    pub fn over<B: Boxes>(alloc: Global, boxes: &B) -> Result<Tree, NoMemory>
        requires few { length (B.boxes boxes.now) ≤ MOST_BOXES }
        requires boxes { All IsBox (B.boxes boxes.now) }
        ensures { IfOk result (λ tree. tree ≡ B.boxes boxes.now) }
    {
        let quantization = quantization_of(boxes);
        let entries = entries_of(alloc, boxes, quantization.shift)?;
        let nodes = nodes_over(alloc, &entries)?;
        let boxes = stored(alloc, boxes, quantization)?;
        Ok(Tree {
            boxes,
            shift: quantization.shift,
            entries,
            nodes,
        })
    }

    /// The numbers of the boxes that have a point in common with the area, the rims included: each once, and no other, in any order.
    pub fn touching<'t>(&'t self, area: Box3) -> Touching<'t>
        ensures { IsPermutation (touching_numbers self.now area) result }
    {
        Touching::along(Walk {
            question: Question {
                boxes: &self.boxes,
                entries: &self.entries,
                nodes: &self.nodes,
                area,
                bounds: Bounds::inside(&area, self.shift),
            },
            stack: first_stack(&self.entries, &area),
            at: 0,
            end: 0,
        })
    }
}
