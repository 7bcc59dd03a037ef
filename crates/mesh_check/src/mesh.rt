// Accepted meshes.
ghost use Rattle.std.specs.Prelude.{◌≡◌, ◌≤◌, ◌⊎◌, ℕ, List, IfOk, IfSome, IsOk, IsErrOf, IsTrue, Some, length};
ghost use Rattle.std.specs.Option.{option_map};
ghost use Rattle.chain_terms.specs.Chains.{all_edges, IsClosed};
ghost use Rattle.mesh_terms.specs.Labels.{AreLabels, IsLabel, label_at, labels_for, labels_given};
ghost use Rattle.mesh_terms.specs.Twins.{IsTwinned};
ghost use Rattle.mesh_terms.specs.Meshes.{IsAccepted, triples_of};
ghost use Rattle.mesh_terms.specs.OpenEdges.{open_pair};

mod kept;

use halfedge::{TwinFault, Twins};
use mb_base::{Labels, NoMemory, Point, Soup};
use std::alloc::{AllocError, Global};
use std::marker::Model;

/// A closed triangle mesh: points and triangles, each triangle with three different vertices, each
/// point in a triangle, and each directed edge as often as its reverse. Triangles may repeat,
/// touch, cross or cancel; an edge may have more than two triangles. Each triangle has a label, which
/// may be empty. The twins of its half-edges are kept beside the triangles.
#[derive(Drop)]
pub struct Mesh {
    points: Vec<Point>,
    twins: Twins,
    // None where all labels are empty.
    labels: Option<Labels>,
}

impl Model for Mesh {
    ghost use Rattle.std.specs.Prelude.{length};
    ghost use Rattle.mesh_terms.specs.Labels.{AreLabels, labels_given};
    ghost use Rattle.mesh_terms.specs.Meshes.{Mesh as TheMesh, IsAccepted};

    ghost Value = { TheMesh };

    ghost view = { λ m. record { points = m.points.items; triples = m.twins.triples; labels = labels_given m.twins.triples m.labels } };

    ghost invariant = { λ m. IsAccepted (length m.points.items) m.twins.triples × AreLabels (length m.twins.triples) (labels_given m.twins.triples m.labels) };
}

impl Clone for Mesh {
    ghost is_clone = { λ m copy. copy ≡ m };

    fn clone(&self) -> Result<Mesh, AllocError> {
        let points = self.points.to_vec(*self.points.allocator())?;
        let twins = self.twins.clone()?;
        let labels = copy_of(&self.labels, *self.points.allocator())?;
        Ok(Mesh {
            points,
            twins,
            labels,
        })
    }
}

/// Why a soup is no mesh: the least edge, by its start and then by its end, that runs more often
/// one way than back; or want of memory.
#[derive(Clone, Copy, Debug, PartialEq, Eq, Drop)]
pub enum MeshFault {
    OpenEdge { from: u32, to: u32 },
    NoMemory,
}

impl From<NoMemory> for MeshFault {
    ghost use Rattle.mesh_check.specs.declared.mesh.MeshFault.TheVariants.{NoMemory};

    ghost from_gives = { λ _ e. e ≡ NoMemory };

    fn from(_: NoMemory) -> Self {
        MeshFault::NoMemory
    }
}

impl Mesh {
    /// The mesh of a soup: accepted exactly where its edges are closed, with its points,
    /// triangles and labels as they stand; otherwise `OpenEdge` with the least open edge, vertices counted
    /// from 0. `NoMemory` may come for any soup. It finds the twins of the half-edges, which the mesh
    /// keeps, in time linear in the triangles where each vertex has few of them; otherwise, and to name
    /// an open edge, it takes at most that of sorting all half-edges.
    pub fn check(alloc: Global, soup: Soup) -> Result<Mesh, MeshFault>
        ensures points { IfOk result (λ m. m.points ≡ soup.points) }
        ensures triples { IfOk result (λ m. m.triples ≡ soup.triples) }
        ensures labels { IfOk result (λ m. m.labels ≡ soup.labels) }
        ensures closed { IfOk result (λ _. IsClosed (all_edges soup.triples)) }
        ensures open { (a b : ℕ) → IsErrOf result (MeshFault.OpenEdge a b) → open_pair (all_edges soup.triples) ≡ Some (a, b) }
        ensures accepts { IsClosed (all_edges soup.triples) → IsOk result ⊎ IsErrOf result MeshFault.NoMemory }
    {
        let (points, triples, labels) = soup.into_parts();
        match Twins::over(alloc, triples) {
            Ok(twins) => Ok(Mesh {
                points,
                twins,
                labels,
            }),
            Err(TwinFault::Open { from, to }) => Err(MeshFault::OpenEdge { from, to }),
            Err(TwinFault::NoMemory) => Err(MeshFault::NoMemory),
        }
    }

    /// The points.
    pub fn points(&self) -> &[Point]
        ensures value { result.now ≡ self.now.points }
        ensures accepted { IsAccepted (length self.now.points) self.now.triples }
    {
        &self.points
    }

    /// The triangles, each as three point numbers from 0.
    pub fn triples(&self) -> &[[u32; 3]]
        ensures value { triples_of result.now ≡ self.now.triples }
        ensures accepted { IsAccepted (length self.now.points) self.now.triples }
    {
        self.twins.triples()
    }

    /// The label of a triangle; past the end it is empty.
    pub fn label(&self, t: u32) -> &[u8]
        ensures value { result.now ≡ label_at self.now.labels t }
        ensures label { IsLabel result.now }
    {
        match &self.labels {
            Some(labels) => labels.get(t),
            None => &[],
        }
    }

    /// Whether two triangles are known, without a look at the bytes, to have the same label.
    pub fn shares_label(&self, t: u32, other: u32) -> bool
        ensures { IsTrue result → label_at self.now.labels t ≡ label_at self.now.labels other }
    {
        match &self.labels {
            Some(labels) => labels.shares(t, other),
            None => true,
        }
    }

    /// The labels. None stands for empty ones.
    pub fn labels(&self) -> Option<&Labels>
        ensures value { labels_given self.now.triples (option_map (λ labels. labels.now) result) ≡ self.now.labels }
        ensures few { IfSome result (λ labels. length labels.now ≤ length self.now.triples) }
        ensures labels { AreLabels (length self.now.triples) self.now.labels }
    {
        self.labels.as_ref()
    }

    /// The mesh with these labels, of which there are no more than triangles.
    pub fn with_labels(self, labels: Labels) -> Mesh
        requires { length labels ≤ length self.triples }
        ensures points { result.points ≡ self.points }
        ensures triples { result.triples ≡ self.triples }
        ensures labels { result.labels ≡ labels_for self.triples labels }
    {
        // Read so that what the type of the labels keeps is known here.
        let _ = labels.len();
        let Mesh {
            points,
            twins,
            labels: _,
        } = self;
        Mesh {
            points,
            twins,
            labels: Some(labels),
        }
    }

    /// The twins of the half-edges, with the triangles.
    pub fn twins(&self) -> &Twins
        ensures triples { result.now.triples ≡ self.now.triples }
        ensures twins { IsTwinned self.now.triples result.now.twins }
        ensures accepted { IsAccepted (length self.now.points) self.now.triples }
    {
        // Read so that what the type of the twins keeps is known here.
        let _ = self.twins.triples();
        &self.twins
    }
}

// Equal labels.
fn copy_of(labels: &Option<Labels>, alloc: Global) -> Result<Option<Labels>, AllocError>
    ensures { IfOk result (λ copy. copy ≡ labels.now) }
{
    match labels {
        Some(labels) => match labels.copy(alloc) {
            Ok(copy) => Ok(Some(copy)),
            Err(NoMemory) => Err(AllocError),
        },
        None => Ok(None),
    }
}
