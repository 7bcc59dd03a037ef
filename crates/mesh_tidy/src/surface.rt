// The triangles that are left of a mesh while edges are collapsed.
ghost use Rattle.std.specs.Prelude.{◌≡◌, ◌*◌, ◌/◌, ◌<◌, ◌≤◌, IfOk, false, true, length, get_or};
ghost use Rattle.std.specs.List.{All};
ghost use Rattle.chain_terms.specs.Chains.{all_edges, IsClosed};
ghost use Rattle.chain_terms.specs.Ranks.{start, finish};
ghost use Rattle.mesh_check.specs.Reduced.{picked};
ghost use Rattle.mesh_check.specs.Opposites.{third_vertex};
ghost use Rattle.mesh_terms.specs.Labels.{no_labels};
ghost use Rattle.mesh_terms.specs.Limits.{most_triangles};
ghost use Rattle.mesh_terms.specs.Meshes.{renumbered, soup_of, triples_of, used_from};
ghost use Rattle.mesh_tidy.specs.TidySurface.{Has, IsTwin, labels_of, left_of};
ghost use Rattle.unused_points.specs.Used.{IsSound};

mod asking;
mod collapsing;
mod kept;

use crate::stars::Stars;
use halfedge::halves::{end, previous, start};
use mb_base::NoMemory;
use mesh_check::{Mesh, marked, mesh_of_used, with_marked_labels};
use std::alloc::Global;
use std::marker::Model;

/// Triangles of which some are gone. Half-edges keep the numbers that they had in the mesh, and vertices too: where an edge
/// is collapsed, its start is put for its end in the triangles that are left.
#[derive(Drop)]
pub struct TidySurface {
    triples: Vec<[u32; 3]>,
    // By triangle, whether it is left.
    left: Vec<bool>,
    // By half-edge of a triangle that is left, its twin.
    twins: Vec<u32>,
    // By vertex, the half-edges of triangles that are left and start there, and some of triangles that are gone.
    stars: Stars,
}

impl Model for TidySurface {
    ghost use Rattle.std.specs.Prelude.{length};
    ghost use Rattle.mesh_terms.specs.Meshes.{triples_of};
    ghost use Rattle.mesh_tidy.specs.TidySurface.{TidySurface as TheSurface, IsKept};

    ghost Value = { TheSurface };

    ghost view = { λ s. record { triples = triples_of s.triples.items; left = s.left.items; vertices = length s.stars } };

    ghost invariant = { λ s. IsKept (record { triples = triples_of s.triples.items; left = s.left.items; vertices = length s.stars }) s.twins.items s.stars };
}

impl TidySurface {
    /// All triangles of the mesh.
    pub fn of(alloc: Global, mesh: &Mesh) -> Result<TidySurface, NoMemory>
        ensures triples { IfOk result (λ s. s.triples ≡ mesh.now.triples) }
        ensures left { IfOk result (λ s. All (λ mark. mark ≡ true) s.left) }
        ensures whole { IfOk result (λ s. left_of s ≡ mesh.now.triples) }
        ensures vertices { IfOk result (λ s. s.vertices ≡ length mesh.now.points) }
    {
        let triples = Vec::from_slice(alloc, mesh.triples())?;
        let left = vec![in alloc; true; triples.len()]?;
        let twins = Vec::from_slice(alloc, mesh.twins().twins())?;
        let stars = Stars::of(alloc, &triples, mesh.points().len())?;
        Ok(TidySurface {
            triples,
            left,
            twins,
            stars,
        })
    }

    /// Whether the triangle of the half-edge is left.
    pub fn has(&self, half: u32) -> bool
        requires { half < 3 * length self.now.triples }
        ensures { result ≡ get_or self.now.left (half / 3) false }
    {
        self.left[half as usize / 3]
    }

    /// Where the half-edge starts.
    pub fn start(&self, half: u32) -> u32
        requires { half < 3 * length self.now.triples }
        ensures value { result ≡ start (all_edges self.now.triples) half }
        ensures below { result < self.now.vertices }
    {
        start(&self.triples, half)
    }

    /// Where it ends.
    pub fn end(&self, half: u32) -> u32
        requires { half < 3 * length self.now.triples }
        ensures value { result ≡ finish (all_edges self.now.triples) half }
        ensures below { result < self.now.vertices }
    {
        end(&self.triples, half)
    }

    /// The vertex of its triangle that it does not touch.
    pub fn third(&self, half: u32) -> u32
        requires { half < 3 * length self.now.triples }
        ensures value { result ≡ third_vertex self.now.triples half }
        ensures below { result < self.now.vertices }
    {
        start(&self.triples, previous(half))
    }

    /// Its twin.
    pub fn twin(&self, half: u32) -> u32
        requires { Has self.now half }
        ensures { IsTwin self.now half result }
    {
        self.twins[half as usize]
    }

    /// The mesh of the triangles that are left, with the points and labels that they have in this mesh: the points that none of
    /// them uses are dropped. `NoMemory` may come for any mesh.
    pub fn into_mesh(self, alloc: Global, mesh: &Mesh) -> Result<Mesh, NoMemory>
        requires sound { IsSound (length mesh.now.points) (left_of self) }
        requires count { length self.triples ≡ length mesh.now.triples }
        ensures points { IfOk result (λ m. m.points ≡ (soup_of mesh.now.points (left_of self) (labels_of self mesh.now.labels)).points) }
        ensures triples { IfOk result (λ m. m.triples ≡ (soup_of mesh.now.points (left_of self) (labels_of self mesh.now.labels)).triples) }
        ensures labels { IfOk result (λ m. m.labels ≡ (soup_of mesh.now.points (left_of self) (labels_of self mesh.now.labels)).labels) }
    {
        let triples = marked(alloc, &self.triples, &self.left)?;
        let kept = mesh_of_used(alloc, mesh.points(), triples)?;
        with_marked_labels(alloc, mesh, &self.left, kept)
    }
}
