// An outline for the shadow tests.
ghost use Rattle.std.specs.Prelude.{◌≡◌, ◌<◌, ◌≤◌, pos, IfOk, length, map};
ghost use Rattle.std.specs.List.{All};
ghost use Rattle.mb_base.specs.Boxes.{box_of};
ghost use Rattle.mesh_terms.specs.Points.{coordinate_of};
ghost use Rattle.side_terms.specs.Corners.{AllFine};
ghost use Rattle.side_terms.specs.Sides.{corners_of, edge_of};
ghost use Rattle.outline_pair_terms.specs.Numbers.{edge_at, ends_of};
ghost use Rattle.outline_terms.specs.Outlines.{IsBetween, most_vertices};
ghost use Rattle.cross_section.specs.Sides.{IsFlatSide, IsLevel, edge_boxes};

use box_tree::{Bounds, Boxes, Tree};
use lean::corners_of;
use mb_base::{Box3, Corner, NoMemory, Point, box_of};
use std::alloc::Global;
use std::marker::Model;

/// An outline for the shadow tests: its corners in fine steps with their marks, its edges by the numbers of their corners, and
/// the tree over the boxes of the edges, numbered as they are.
#[derive(Drop)]
pub struct FlatSide {
    corners: Vec<Corner>,
    edges: Vec<(u32, u32)>,
    tree: Tree,
}

impl Model for FlatSide {
    ghost use Rattle.cross_section.specs.Sides.{IsFlatSideWith};
    ghost use Rattle.outline_pair_terms.specs.Numbers.{FlatSide as TheSide};

    ghost Value = { TheSide };

    ghost view = { λ s. record { corners = s.corners.items; edges = s.edges.items } };

    ghost invariant = { λ s. IsFlatSideWith s.tree (record { corners = s.corners.items; edges = s.edges.items }) };
}

impl FlatSide {
    /// The side of points with their marks and of edges between them.
    pub fn of(
        alloc: Global,
        points: &[Point],
        ups: &[[bool; 3]],
        edges: Vec<(u32, u32)>,
    ) -> Result<FlatSide, NoMemory>
        requires marks { length ups.now ≡ length points.now }
        requires below { All (IsBetween (length points.now)) edges.items }
        requires flat { All (λ p. coordinate_of p 2 ≡ pos 0) points.now }
        requires few { length edges.items ≤ most_vertices }
        ensures { IfOk result (λ side. side ≡ record { corners = corners_of points.now ups.now; edges = edges.items }) }
    {
        let corners = corners_of(alloc, points, ups)?;
        let tree = tree_over(alloc, &corners, &edges)?;
        Ok(FlatSide {
            corners,
            edges,
            tree,
        })
    }

    /// The corners.
    pub fn corners(&self) -> &[Corner]
        ensures value { result.now ≡ self.now.corners }
        ensures side { IsFlatSide self.now }
    {
        &self.corners
    }

    /// The edges, each from one corner to another.
    pub fn edges(&self) -> &[(u32, u32)]
        ensures value { result.now ≡ self.now.edges }
        ensures side { IsFlatSide self.now }
    {
        &self.edges
    }

    /// The tree over the boxes of the edges, numbered as they are.
    pub fn tree(&self) -> &Tree
        ensures value { result.now ≡ edge_boxes self.now }
        ensures side { IsFlatSide self.now }
    {
        &self.tree
    }

    /// The corners at the start and the end of an edge.
    pub fn edge(&self, number: u32) -> [Corner; 2]
        requires { number < length self.now.edges }
        ensures value { result ≡ ends_of self.now (edge_at self.now number) }
        ensures fine { AllFine result }
        ensures level { All IsLevel result }
    {
        let (from, to) = self.edges()[number as usize];
        self.way(from, to)
    }

    /// The corners at the start and the end of the way from one vertex to another.
    pub fn way(&self, from: u32, to: u32) -> [Corner; 2]
        requires from { from < length self.now.corners }
        requires to { to < length self.now.corners }
        ensures value { result ≡ edge_of self.now.corners from to }
        ensures fine { AllFine result }
        ensures level { All IsLevel result }
    {
        ends_of(self.corners(), (from, to))
    }
}

// The corners of an edge.
#[inline]
fn ends_of(corners: &[Corner], edge: (u32, u32)) -> [Corner; 2]
    requires { IsBetween (length corners.now) edge }
    ensures { result ≡ edge_of corners.now edge.0 edge.1 }
{
    let (from, to) = edge;
    [corners[from as usize], corners[to as usize]]
}

// The tree over the boxes of edges, each of which is made anew when it is asked for.
fn tree_over(alloc: Global, corners: &[Corner], edges: &[(u32, u32)]) -> Result<Tree, NoMemory>
    requires below { All (IsBetween (length corners.now)) edges.now }
    requires few { length edges.now ≤ most_vertices }
    ensures { IfOk result (λ tree. tree ≡ map (λ e. box_of (edge_of corners.now e.0 e.1)) edges.now) }
{
    Tree::over(alloc, &EdgeBoxes { corners, edges })
}

// The boxes of edges, in order.
#[derive(Drop)]
struct EdgeBoxes<'a> {
    corners: &'a [Corner],
    edges: &'a [(u32, u32)],
    ghost below: { All (IsBetween (length corners.now)) edges.now },
}

impl Boxes for EdgeBoxes<'_> {
    ghost boxes = { λ s. map (λ e. box_of (edge_of s.corners.now e.0 e.1)) s.edges.now };

    #[inline]
    fn count(&self) -> usize {
        self.edges.len()
    }

    #[inline]
    fn box_at(&self, number: usize) -> Box3 {
        edge_box(self.corners, self.edges[number])
    }

    #[inline]
    fn whole_steps(&self) -> Option<u32> {
        None
    }

    #[inline]
    fn bounds_at(&self, number: usize, shift: u32) -> Bounds {
        Bounds::around(&edge_box(self.corners, self.edges[number]), shift)
    }
}

// The box of an edge.
#[inline]
fn edge_box(corners: &[Corner], edge: (u32, u32)) -> Box3
    requires { IsBetween (length corners.now) edge }
    ensures { result ≡ box_of (edge_of corners.now edge.0 edge.1) }
{
    box_of(&ends_of(corners, edge))
}
