// A mesh over its places, by its planes.
ghost use Rattle.std.specs.Prelude.{◌≡◌, ◌<◌, ◌≤◌, ◌++◌, ◌∷◌, [], ℤ, List, IfNone, IfOk, IfSome, false, length, true};
ghost use Rattle.mesh_terms.specs.Meshes.{Mesh as TheMesh};
ghost use Rattle.sheet_terms.specs.Faces.{Face, drop_of};
ghost use Rattle.sheet_terms.specs.Places.{place_points};
ghost use Rattle.edge_cutting.specs.Cut.{HasRims};
ghost use Rattle.plane_groups.specs.Grouped.{face_at, faces_in};
ghost use Rattle.mesh_terms.specs.Meshes.{triples_of};
ghost use Rattle.plan_laws.specs.Placed.{placed_faces};
ghost use Rattle.plane_remesh.specs.Placed.{IsOver};
ghost use Rattle.plane_remesh.specs.PlansTo.{is_alone};
ghost use Rattle.plane_remesh.specs.Surfaces.{IsSurface, plane_at};
ghost use Rattle.plan_laws.specs.Views.{IsSeenFrom, is_turned};

use crate::over_places::{OverPlaces, over_places};
use edge_cutting::Cuts;
use mb_base::{NoMemory, Point};
use mesh_check::Mesh;
use plane_groups::{PlaneView, Planes, label_numbers, planes_of};
use std::alloc::Global;

/// So many places may lie inside edges.
const MOST_CUTS: usize = 60_000_000;

/// The triangles of a mesh over places, the places inside their edges, their planes and the numbers of their labels.
#[derive(Drop)]
pub struct CutSurface {
    pub over: OverPlaces,
    pub cuts: Cuts,
    pub labels: Vec<u32>,
    pub planes: Planes,
}

impl CutSurface {
    /// The surface of a mesh over its places and further ones. `NoMemory` also comes where more than 60,000,000 places lie inside edges.
    pub fn of(alloc: Global, mesh: &Mesh, more: &[Point]) -> Result<CutSurface, NoMemory>
        ensures { let points = place_points (mesh.now.points ++ more.now) in IfOk result (IsSurface points (placed_faces points mesh.now)) }
    {
        let over = over_places(alloc, mesh, more)?;
        let cuts = cuts_of(alloc, &over)?;
        let labels = label_numbers(alloc, mesh, &over.sources)?;
        let planes = planes_of(alloc, &over.points, &over.triples)?;
        Ok(CutSurface {
            over,
            cuts,
            labels,
            planes,
        })
    }

    /// A plane of the surface as it is seen from its front.
    pub fn view(&self, plane: usize) -> PlaneView
        requires surface { (points : List (List ℤ)) × (all : List Face) × IsSurface points all self.now }
        requires plane { plane < self.now.planes.count }
        ensures { (points : List (List ℤ)) (all : List Face) → IsSurface points all self.now → IsSeenFrom points (plane_at points all plane) true result }
    {
        let first = self.planes.faces_of(plane)[0];
        let towards = self.towards(first);
        if self.planes.fronts[first as usize] {
            towards
        } else {
            towards.behind()
        }
    }

    // The plane of a triangle as it is seen from the side that the triangle faces.
    fn towards(&self, face: u32) -> PlaneView
        requires { (points : List (List ℤ)) × (all : List Face) × IsSurface points all self.now × (face < length all) }
        ensures drop { (points : List (List ℤ)) (all : List Face) → IsSurface points all self.now → result.plane.drop ≡ drop_of points (face_at all face) }
        ensures turned { (points : List (List ℤ)) (all : List Face) → IsSurface points all self.now → result.turned ≡ is_turned points (face_at all face) }
    {
        let [a, b, c] = self.over.triples[face as usize];
        let points = &self.over.points;
        PlaneView::towards(points[a as usize], points[b as usize], points[c as usize])
    }

    /// The one triangle of a plane, where there is only one and no edge of it is cut.
    pub fn alone(&self, plane: usize) -> Option<u32>
        requires surface { (points : List (List ℤ)) × (all : List Face) × IsSurface points all self.now }
        requires plane { plane < self.now.planes.count }
        ensures one { IfSome result (λ t. faces_in self.now.planes plane ≡ t ∷ []) }
        ensures uncut { (points : List (List ℤ)) (all : List Face) → IsSurface points all self.now → IfSome result (λ t. length (face_at all t).rim ≤ 3) }
        ensures others { (points : List (List ℤ)) (all : List Face) → IsSurface points all self.now → IfNone result (is_alone points all (plane_at points all plane) ≡ false) }
    {
        let faces = self.planes.faces_of(plane);
        if faces.len() == 1 && !self.cuts.has_cut(self.over.triples[faces[0] as usize]) {
            Some(faces[0])
        } else {
            None
        }
    }
}

// The cut edges of triangles over places.
fn cuts_of(alloc: Global, over: &OverPlaces) -> Result<Cuts, NoMemory>
    requires { (points : List (List ℤ)) × (m : TheMesh) × IsOver points m over.now }
    ensures { IfOk result (HasRims over.now.points.items (triples_of over.now.triples.items)) }
{
    match Cuts::of(alloc, &over.points, &over.triples, MOST_CUTS)? {
        Some(cuts) => Ok(cuts),
        None => Err(NoMemory),
    }
}
