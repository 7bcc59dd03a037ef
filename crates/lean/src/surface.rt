// A mesh with its corners and twins, but without a tree.
//
// `Side` keeps its tree over the boxes of its faces as a part that its view does not show: the type keeps that it is
// over just these boxes. Without the tree it is a `Surface`, which is all that is needed once the crossings, the
// winding numbers and the vertices are known: an operation then lets both trees go (`into_surface`), before it lists
// triangles.
ghost use Rattle.std.specs.Prelude.{◌≡◌, ◌<◌, ◌*◌, IfOk, length, map};
ghost use Rattle.chain_terms.specs.Chains.{all_edges};
ghost use Rattle.chain_terms.specs.Ranks.{start};
ghost use Rattle.mesh_terms.specs.Meshes.{triples_of};
ghost use Rattle.side_terms.specs.Corners.{corner_at, AllFine, AllWhole, IsFineCorner};
ghost use Rattle.side_terms.specs.Sides.{IsSide, side_of, corners_of, face_at, edge_at};

use crate::corner::corner_of;
use crate::faces::face_of;
use halfedge::Twins;
use mb_base::{Corner, NoMemory, Point};
use mesh_check::Mesh;
use std::alloc::Global;
use std::marker::Model;

/// A closed mesh for the shadow tests, as a side has it, but without the tree.
#[derive(Drop)]
pub struct Surface {
    corners: Vec<Corner>,
    twins: Twins,
}

impl Model for Surface {
    ghost use Rattle.side_terms.specs.Sides.{Side as TheSide, IsSide};

    ghost Value = { TheSide };

    ghost view = { λ s. record { corners = s.corners.items; triples = s.twins.triples; twins = s.twins.twins } };

    ghost invariant = { λ s. IsSide (record { corners = s.corners.items; triples = s.twins.triples; twins = s.twins.twins }) };
}

impl Surface {
    /// The surface of a mesh with the marks of its points, in their order. It takes memory and time in proportion to the points.
    /// `NoMemory` may come for any mesh.
    pub fn of(alloc: Global, mesh: &Mesh, ups: &[[bool; 3]]) -> Result<Surface, NoMemory>
        requires { length ups.now ≡ length mesh.now.points }
        ensures { IfOk result (λ surface. surface ≡ side_of mesh.now ups.now) }
    {
        let corners = corners_of(alloc, mesh.points(), ups)?;
        let twins = mesh.twins().clone()?;
        Ok(Surface { corners, twins })
    }

    /// The corners.
    pub fn corners(&self) -> &[Corner]
        ensures value { result.now ≡ self.now.corners }
        ensures side { IsSide self.now }
    {
        &self.corners
    }

    /// The triangles, each as three corner numbers from 0.
    pub fn triples(&self) -> &[[u32; 3]]
        ensures value { triples_of result.now ≡ self.now.triples }
        ensures side { IsSide self.now }
    {
        self.twins.triples()
    }

    /// The twins of the half-edges, with the triangles.
    pub fn twins(&self) -> &Twins
        ensures triples { result.now.triples ≡ self.now.triples }
        ensures twins { result.now.twins ≡ self.now.twins }
        ensures side { IsSide self.now }
    {
        &self.twins
    }

    /// The corners of a triangle.
    pub fn face(&self, face: u32) -> [Corner; 3]
        requires { face < length self.now.triples }
        ensures value { result ≡ face_at self.now face }
        ensures fine { AllFine result }
    {
        face_of(self.corners(), &self.triples()[face as usize])
    }

    /// The corners at the start and the end of a half-edge.
    pub fn edge(&self, half: u32) -> [Corner; 2]
        requires { half < 3 * length self.now.triples }
        ensures value { result ≡ edge_at self.now half }
        ensures fine { AllFine result }
    {
        let from = self.start(half);
        let to = self.start(self.twins.next(half));
        [self.corner(from), self.corner(to)]
    }

    /// The vertex at which a half-edge starts.
    pub fn start(&self, half: u32) -> u32
        requires { half < 3 * length self.now.triples }
        ensures value { result ≡ start (all_edges self.now.triples) half }
        ensures below { result < length self.now.corners }
    {
        let half = half as usize;
        self.triples()[half / 3][half % 3]
    }

    // The corner of a vertex.
    fn corner(&self, vertex: u32) -> Corner
        requires { vertex < length self.now.corners }
        ensures value { result ≡ corner_at self.now.corners vertex }
        ensures fine { IsFineCorner result }
    {
        self.corners[vertex as usize]
    }
}

/// The corners of points with their marks, in order. `NoMemory` may come for any points.
pub fn corners_of(
    alloc: Global,
    points: &[Point],
    ups: &[[bool; 3]],
) -> Result<Vec<Corner>, NoMemory>
    requires { length ups.now ≡ length points.now }
    ensures value { IfOk result (λ corners. corners.items ≡ corners_of points.now ups.now) }
    ensures fine { IfOk result (λ corners. AllFine corners.items) }
    ensures whole { IfOk result (λ corners. AllWhole corners.items) }
    ensures length { IfOk result (λ corners. length corners.items ≡ length points.now) }
{
    let mut corners = Vec::with_capacity(alloc, points.len())?;
    for (point, up) in points.iter().zip(ups) {
        corners.push(corner_of(*point, *up))?;
    }
    Ok(corners)
}
