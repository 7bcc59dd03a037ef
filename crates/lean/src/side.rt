// The lists of a side.
ghost use Rattle.std.specs.Prelude.{◌≡◌, ◌<◌, ◌*◌, IfOk, length};
ghost use Rattle.chain_terms.specs.Chains.{all_edges};
ghost use Rattle.chain_terms.specs.Ranks.{start};
ghost use Rattle.mesh_terms.specs.Meshes.{triples_of};
ghost use Rattle.side_terms.specs.Corners.{AllFine};
ghost use Rattle.side_terms.specs.Sides.{IsSide, side_of, face_at, face_boxes, edge_at};

use crate::faces::tree_over;
use crate::surface::Surface;
use box_tree::Tree;
use halfedge::Twins;
use mb_base::{Corner, NoMemory};
use mesh_check::Mesh;
use std::alloc::Global;
use std::marker::Model;

/// A closed mesh for the shadow tests: its corners in fine steps, each with the marks of the axes on which it counts as
/// moved up, its triangles, each as three corner numbers from 0, the twins of their half-edges, and the tree over the
/// boxes of the triangles, numbered as they are.
#[derive(Drop)]
pub struct Side {
    surface: Surface,
    tree: Tree,
}

impl Model for Side {
    ghost use Rattle.lean.specs.Trees.{IsSideWith};
    ghost use Rattle.side_terms.specs.Sides.{Side as TheSide};

    ghost Value = { TheSide };

    ghost view = { λ s. s.surface };

    ghost invariant = { λ s. IsSideWith s.tree s.surface };
}

impl Side {
    /// The side of a mesh with the marks of its points, in their order. For n triangles it takes memory in proportion to
    /// n, and time in proportion to n log n, in which the tree is built. `NoMemory` may come for any mesh.
    pub fn of(alloc: Global, mesh: &Mesh, ups: Vec<[bool; 3]>) -> Result<Side, NoMemory>
        requires { length ups.items ≡ length mesh.now.points }
        ensures { IfOk result (λ side. side ≡ side_of mesh.now ups.items) }
    {
        let surface = Surface::of(alloc, mesh, &ups)?;
        let tree = tree_over(alloc, mesh.points(), surface.triples())?;
        Ok(Side { surface, tree })
    }

    /// The side without its tree.
    pub fn surface(&self) -> &Surface
        ensures { result.now ≡ self.now }
    {
        &self.surface
    }

    /// The side without its tree, which is let go.
    pub fn into_surface(self) -> Surface
        ensures { result ≡ self }
    {
        let Side { surface, tree: _ } = self;
        surface
    }

    /// The corners.
    pub fn corners(&self) -> &[Corner]
        ensures value { result.now ≡ self.now.corners }
        ensures side { IsSide self.now }
    {
        self.surface.corners()
    }

    /// The triangles, each as three corner numbers from 0.
    pub fn triples(&self) -> &[[u32; 3]]
        ensures value { triples_of result.now ≡ self.now.triples }
        ensures side { IsSide self.now }
    {
        self.surface.triples()
    }

    /// The twins of the half-edges, with the triangles.
    pub fn twins(&self) -> &Twins
        ensures triples { result.now.triples ≡ self.now.triples }
        ensures twins { result.now.twins ≡ self.now.twins }
        ensures side { IsSide self.now }
    {
        self.surface.twins()
    }

    /// The tree over the boxes of the triangles, numbered as they are.
    pub fn tree(&self) -> &Tree
        ensures value { result.now ≡ face_boxes self.now }
        ensures side { IsSide self.now }
    {
        &self.tree
    }

    /// The corners of a triangle.
    pub fn face(&self, face: u32) -> [Corner; 3]
        requires { face < length self.now.triples }
        ensures value { result ≡ face_at self.now face }
        ensures fine { AllFine result }
    {
        self.surface.face(face)
    }

    /// The corners at the start and the end of a half-edge.
    pub fn edge(&self, half: u32) -> [Corner; 2]
        requires { half < 3 * length self.now.triples }
        ensures value { result ≡ edge_at self.now half }
        ensures fine { AllFine result }
    {
        self.surface.edge(half)
    }

    /// The vertex at which a half-edge starts.
    pub fn start(&self, half: u32) -> u32
        requires { half < 3 * length self.now.triples }
        ensures value { result ≡ start (all_edges self.now.triples) half }
        ensures below { result < length self.now.corners }
    {
        self.surface.start(half)
    }
}
