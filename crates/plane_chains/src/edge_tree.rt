// Edges of a plane, and which of them are near an area.
ghost use Rattle.std.specs.Prelude.{◌≡◌, ◌<◌, ◌≤◌, IfOk, OnOk, length};
ghost use Rattle.std.specs.List.{All};
ghost use Rattle.std.specs.Option.{ForSome};
ghost use Rattle.box_tree.specs.declared.TheConstants.{MOST_BOXES};
ghost use Rattle.chain_terms.specs.Sums.{upto};
ghost use Rattle.face_plane.specs.Planes.{face_plane};
ghost use Rattle.plane_chains.specs.EdgeBoxes.{HasTouching, edge_boxes};

use crate::flat_places::FlatPlaces;
use box_tree::{Bounds, Boxes, MOST_BOXES, Tree, find_near};
use mb_base::{Box3, NoMemory};
use std::alloc::Global;

/// So many edges are looked at one by one.
const FEW: usize = 16;

// The boxes of edges, in order.
#[derive(Drop)]
struct EdgeBoxes<'a> {
    flat: FlatPlaces<'a>,
    edges: &'a [[u32; 2]],
    ghost below: { All (λ e. All (λ v. v < length flat.points.now) e) edges.now },
}

impl Boxes for EdgeBoxes<'_> {
    ghost boxes = { λ s. edge_boxes (face_plane s.flat.plane.drop s.flat.turned s.flat.points.now) s.edges.now };

    #[inline]
    fn count(&self) -> usize {
        self.edges.len()
    }

    #[inline]
    fn box_at(&self, number: usize) -> Box3 {
        self.flat.box_of(self.edges[number])
    }

    #[inline]
    fn whole_steps(&self) -> Option<u32> {
        None
    }

    #[inline]
    fn bounds_at(&self, number: usize, shift: u32) -> Bounds {
        Bounds::around(&self.flat.box_of(self.edges[number]), shift)
    }
}

/// The boxes of edges of a plane, with a tree over them where they are many.
#[derive(Drop)]
pub struct EdgeTree<'a> {
    pub flat: FlatPlaces<'a>,
    pub edges: &'a [[u32; 2]],
    tree: Option<Tree>,
    ghost over: { ForSome tree (λ t. t ≡ edge_boxes (face_plane flat.plane.drop flat.turned flat.points.now) edges.now) },
    ghost few: { length edges.now ≤ MOST_BOXES },
}

impl<'a> EdgeTree<'a> {
    /// The boxes of these edges. `NoMemory` may come for any edges, and comes for more than a tree holds.
    pub fn of(
        alloc: Global,
        flat: FlatPlaces<'a>,
        edges: &'a [[u32; 2]],
    ) -> Result<EdgeTree<'a>, NoMemory>
        requires { All (λ e. All (λ v. v < length flat.points.now) e) edges.now }
        ensures boxes { IfOk result (λ t. edge_boxes (face_plane t.flat.plane.drop t.flat.turned t.flat.points.now) t.edges.now
            ≡ edge_boxes (face_plane flat.entry.plane.drop flat.entry.turned flat.entry.points.now) edges.now) }
        ensures edges { IfOk result (λ t. t.edges.now ≡ edges.now) }
        ensures few { IfOk result (λ _. length edges.now ≤ MOST_BOXES) }
    {
        if edges.len() > MOST_BOXES {
            return Err(NoMemory);
        }
        let tree = if edges.len() <= FEW {
            None
        } else {
            Some(Tree::over(alloc, &EdgeBoxes { flat, edges })?)
        };
        Ok(EdgeTree { flat, edges, tree })
    }

    /// Makes a list of edges that has all whose boxes touch an area, each once and in order.
    pub fn find(&self, near: &mut Vec<u32>, area: Box3) -> Result<(), NoMemory>
        ensures below { OnOk result (All (λ k. k < length self.now.edges.now) near.new.items) }
        ensures near { OnOk result (HasTouching (edge_boxes (face_plane self.now.flat.plane.drop self.now.flat.turned self.now.flat.points.now) self.now.edges.now) area near.new.items) }
    {
        match &self.tree {
            Some(tree) => find_near(near, tree, area),
            None => fill_all(near, self.edges.len()),
        }
    }
}

// Makes a list of the numbers below a count.
fn fill_all(near: &mut Vec<u32>, count: usize) -> Result<(), NoMemory>
    requires { count ≤ MOST_BOXES }
    ensures { OnOk result (near.new.items ≡ upto count) }
{
    near.clear();
    for number in 0..count {
        near.push(number as u32)?;
    }
    Ok(())
}
