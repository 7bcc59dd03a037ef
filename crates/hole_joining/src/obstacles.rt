// What bars bridges.
//
// What bars a bridge never goes away: the edges after a join are those before it and the bridge both ways, in another
// order. So the clear test asks a tree over the boxes of all edges of the rings and the holes, a smaller tree over
// those of bridges, and a list of the last bridges. Where that list is longer than 32 and than a sixteenth of what
// the smaller tree has, it is put there; where this is more than a quarter of the edges, it is put behind them.
// Either way that tree is made anew. That two lists have the same edges in any order is said by sums: every function
// adds up to the same over both (`SameEdges`), so either both have an edge that bars or neither has.
ghost use Rattle.std.specs.Prelude.{◌≡◌, ◌+◌, ◌≤◌, ◌∷◌, ◌++◌, [], map, length, IfOk, OnOk};
ghost use Rattle.std.specs.List.{concat, list_any};
ghost use Rattle.box_tree.specs.Touching.{IsBox};
ghost use Rattle.mesh_terms.specs.Limits.{most_halfedges};
ghost use Rattle.hole_joining.specs.Bridges.{edges_of};
ghost use Rattle.hole_joining.specs.Cones.{bars};
ghost use Rattle.hole_joining.specs.Obstacles.{AreBoxed, IsOver, all_edges, box_round, edge_box};
ghost use Rattle.hole_joining.specs.Seen.{plane_at, segment_of};

use crate::barred::{any_bars, edge_bars};
use crate::edges::push_edges;
use crate::flat::{BridgeLine, FlatPoints, greater, lesser};
use crate::places::Places;
use box_tree::{Bounds, Boxes, MOST_BOXES, Tree};
use face_plane::FlatPoint;
use mb_base::{Box3, NoMemory};
use std::alloc::Global;

// How many bridges are a list, at least.
const FEW: usize = 32;

// What part of the recent ones it is, at most.
const PART_LISTED: usize = 16;

// What part of the edges these are, at most.
const PART_RECENT: usize = 4;

/// Edges with a tree, by which those near a segment are found.
#[derive(Drop)]
pub struct EdgeTree {
    pub edges: Vec<(u32, u32)>,
    // Over the boxes of the edges.
    pub tree: Tree,
}

/// What bars bridges: the edges of rings and holes, and the bridges so far, each both ways. Of these the last are a list, and
/// those before them have a tree of their own, until they are many enough to be among the edges.
#[derive(Drop)]
pub struct Obstacles {
    pub edges: EdgeTree,
    pub recent: EdgeTree,
    pub bridges: Vec<(u32, u32)>,
}

// The box of a segment, in the plane where the third coordinate is 0.
fn box_round(a: FlatPoint, b: FlatPoint) -> Box3
    ensures { result ≡ box_round a b }
{
    let low = lesser(a, b);
    let high = greater(a, b);
    Box3 {
        low: [low.u(), low.v(), 0],
        high: [high.u(), high.v(), 0],
    }
}

// The box of an edge.
fn box_of(flat: &FlatPoints, edge: (u32, u32)) -> Box3
    ensures { result ≡ edge_box (plane_at flat.now) edge }
{
    let (from, to) = edge;
    box_round(flat.at(from), flat.at(to))
}

// The boxes of edges, in order.
#[derive(Drop)]
struct EdgeBoxes<'a> {
    flat: FlatPoints<'a>,
    edges: &'a [(u32, u32)],
}

impl Boxes for EdgeBoxes<'_> {
    ghost boxes = { λ s. map (edge_box (plane_at s.flat)) s.edges.now };

    #[inline]
    fn count(&self) -> usize {
        self.edges.len()
    }

    #[inline]
    fn box_at(&self, number: usize) -> Box3 {
        box_of(&self.flat, self.edges[number])
    }

    #[inline]
    fn whole_steps(&self) -> Option<u32> {
        None
    }

    #[inline]
    fn bounds_at(&self, number: usize, shift: u32) -> Bounds {
        Bounds::around(&box_of(&self.flat, self.edges[number]), shift)
    }
}

// The tree over the boxes of edges.
fn tree_over(alloc: Global, flat: &FlatPoints, edges: &[(u32, u32)]) -> Result<Tree, NoMemory>
    requires { length edges.now ≤ MOST_BOXES }
    ensures { IfOk result (λ tree. tree ≡ map (edge_box (plane_at flat.now)) edges.now) }
{
    Tree::over(alloc, &EdgeBoxes { flat: *flat, edges })
}

impl EdgeTree {
    // The tree over edges.
    fn over(alloc: Global, flat: &FlatPoints, edges: Vec<(u32, u32)>) -> Result<EdgeTree, NoMemory>
        requires { length edges.items ≤ MOST_BOXES }
        ensures over { IfOk result (λ t. IsOver (plane_at flat.now) t) }
        ensures edges { IfOk result (λ t. t.edges.items ≡ edges.items) }
    {
        let tree = tree_over(alloc, flat, &edges)?;
        Ok(EdgeTree { edges, tree })
    }

    // Takes more edges among its own, unless they are too many.
    fn take(
        &mut self,
        alloc: Global,
        flat: &FlatPoints,
        more: &mut Vec<(u32, u32)>,
    ) -> Result<(), NoMemory>
        requires { IsOver (plane_at flat.now) self.old }
        ensures over { OnOk result (IsOver (plane_at flat.now) self.new) }
        ensures all { OnOk result (self.new.edges.items ++ more.new.items ≡ self.old.edges.items ++ more.old.items) }
        ensures left { OnOk result (length more.new.items ≤ length more.old.items) }
    {
        let (old, new) = (self.edges.len(), more.len());
        if new <= MOST_BOXES && old <= MOST_BOXES - new {
            self.edges.append(more)?;
            self.tree = tree_over(alloc, flat, &self.edges)?;
        }
        Ok(())
    }

    // Whether an edge bars the segment between two vertices. Only those are asked whose boxes touch its box.
    fn bar(&self, flat: &FlatPoints, segment: &BridgeLine) -> bool
        requires over { IsOver (plane_at flat.now) self.now }
        requires segment { segment.now ≡ segment_of (plane_at flat.now) segment.now.from.vertex segment.now.to.vertex }
        ensures { result ≡ list_any (bars (plane_at flat.now) segment.now.from.vertex segment.now.to.vertex) self.now.edges.items }
    {
        let area = box_round(segment.from.at, segment.to.at);
        for number in self.tree.touching(area) {
            if edge_bars(flat, segment, self.edges[number as usize]) {
                return true;
            }
        }
        false
    }
}

impl Obstacles {
    /// The edges of rings and holes; no bridges so far.
    pub fn of(
        alloc: Global,
        flat: &FlatPoints,
        rings: &[Places],
        holes: &[Places],
    ) -> Result<Obstacles, NoMemory>
        requires { length (edges_of rings.now ++ edges_of holes.now) ≤ most_halfedges }
        ensures boxed { IfOk result (λ o. AreBoxed (plane_at flat.now) o) }
        ensures all { IfOk result (λ o. all_edges o ≡ edges_of rings.now ++ edges_of holes.now) }
    {
        let mut edges = Vec::new(alloc);
        push_edges(&mut edges, rings)?;
        push_edges(&mut edges, holes)?;
        let edges = EdgeTree::over(alloc, flat, edges)?;
        let recent = EdgeTree::over(alloc, flat, Vec::new(alloc))?;
        let bridges = Vec::new(alloc);
        Ok(Obstacles {
            edges,
            recent,
            bridges,
        })
    }

    // Takes the recent ones among the edges once they are many.
    fn settle(&mut self, alloc: Global, flat: &FlatPoints) -> Result<(), NoMemory>
        requires { AreBoxed (plane_at flat.now) self.old }
        ensures boxed { OnOk result (AreBoxed (plane_at flat.now) self.new) }
        ensures all { OnOk result (all_edges self.new ≡ all_edges self.old) }
    {
        let (old, new) = (self.edges.edges.len(), self.recent.edges.len());
        if new > old / PART_RECENT && new <= MOST_BOXES {
            self.edges.take(alloc, flat, &mut self.recent.edges)?;
            self.recent.tree = tree_over(alloc, flat, &self.recent.edges)?;
        }
        Ok(())
    }

    // Takes the bridges of the list among the recent ones once they are many.
    fn gather(&mut self, alloc: Global, flat: &FlatPoints) -> Result<(), NoMemory>
        requires { AreBoxed (plane_at flat.now) self.old }
        ensures boxed { OnOk result (AreBoxed (plane_at flat.now) self.new) }
        ensures all { OnOk result (all_edges self.new ≡ all_edges self.old) }
    {
        let (old, new) = (self.recent.edges.len(), self.bridges.len());
        if new > FEW && new > old / PART_LISTED {
            self.recent.take(alloc, flat, &mut self.bridges)?;
            self.settle(alloc, flat)?;
        }
        Ok(())
    }

    /// Adds the bridge between two vertices, both ways.
    pub fn add(
        &mut self,
        alloc: Global,
        flat: &FlatPoints,
        from: u32,
        to: u32,
    ) -> Result<(), NoMemory>
        requires { AreBoxed (plane_at flat.now) self.old }
        ensures boxed { OnOk result (AreBoxed (plane_at flat.now) self.new) }
        ensures all { OnOk result (all_edges self.new ≡ all_edges self.old ++ (from, to) ∷ (to, from) ∷ []) }
    {
        self.bridges.extend_from_slice(&[(from, to), (to, from)])?;
        self.gather(alloc, flat)
    }

    /// Whether an edge or a bridge bars the segment between two vertices.
    pub fn bar(&self, flat: &FlatPoints, segment: &BridgeLine) -> bool
        requires boxed { AreBoxed (plane_at flat.now) self.now }
        requires segment { segment.now ≡ segment_of (plane_at flat.now) segment.now.from.vertex segment.now.to.vertex }
        ensures { result ≡ list_any (bars (plane_at flat.now) segment.now.from.vertex segment.now.to.vertex) (all_edges self.now) }
    {
        self.edges.bar(flat, segment)
            || self.recent.bar(flat, segment)
            || any_bars(flat, segment, &self.bridges)
    }
}
