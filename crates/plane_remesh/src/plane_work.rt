// A plane in hand.
ghost use Rattle.std.specs.Prelude.{◌≡◌, ◌<◌, [], ℤ, List, IfOk, get_or, length, map};
ghost use Rattle.std.specs.List.{All};
ghost use Rattle.mesh_terms.specs.Meshes.{triple_of};
ghost use Rattle.edge_cutting.specs.Cut.{cut_rim};
ghost use Rattle.sheet_terms.specs.Faces.{Face};
ghost use Rattle.plane_remesh.specs.Surfaces.{IsSurface, own_at, plane_at};
ghost use Rattle.plane_remesh.specs.Works.{AreFacesOf, IsWork};

use crate::surface::CutSurface;
use mb_base::{NoMemory, Point};
use plane_chains::{FlatPlaces, LocalLabels, PlaneFaces, Rims, Told, tell};
use plane_groups::PlaneView;
use std::alloc::Global;

/// A plane of a surface: its triangles, the places, the plane as it is seen from its front, and what is told of its triangles.
#[derive(Drop)]
pub struct PlaneWork<'a> {
    pub faces: PlaneFaces<'a>,
    pub points: &'a [Point],
    pub view: PlaneView,
    pub told: Told,
}

impl<'a> PlaneWork<'a> {
    /// A plane of a surface.
    pub fn of(
        alloc: Global,
        surface: &'a CutSurface,
        plane: usize,
    ) -> Result<PlaneWork<'a>, NoMemory>
        requires surface { (points : List (List ℤ)) × (all : List Face) × IsSurface points all surface.now }
        requires plane { plane < surface.now.planes.count }
        ensures { (points : List (List ℤ)) (all : List Face) → IsSurface points all surface.now →
            IfOk result (IsWork points all (own_at points all plane) (plane_at points all plane)) }
    {
        let faces = faces_of(alloc, surface, plane)?;
        let view = surface.view(plane);
        let points = &surface.over.points;
        let told = tell(alloc, seen(view, points), &faces)?;
        Ok(PlaneWork {
            faces,
            points,
            view,
            told,
        })
    }
}

/// Places as they are seen.
pub fn seen(view: PlaneView, points: &[Point]) -> FlatPlaces<'_>
    ensures plane { result.plane ≡ view.plane }
    ensures turned { result.turned ≡ view.turned }
    ensures points { result.points.now ≡ points.now }
{
    FlatPlaces {
        plane: view.plane,
        turned: view.turned,
        points,
    }
}

// The triangles of a plane.
fn faces_of(alloc: Global, surface: &CutSurface, plane: usize) -> Result<PlaneFaces<'_>, NoMemory>
    requires surface { (points : List (List ℤ)) × (all : List Face) × IsSurface points all surface.now }
    requires plane { plane < surface.now.planes.count }
    ensures { (points : List (List ℤ)) (all : List Face) → IsSurface points all surface.now → IfOk result (AreFacesOf points all (own_at points all plane)) }
{
    let numbers = surface.planes.faces_of(plane);
    let rims = rims_of(alloc, surface, numbers)?;
    let labels = LocalLabels::of(alloc, &surface.labels, numbers)?;
    Ok(PlaneFaces {
        numbers,
        fronts: &surface.planes.fronts,
        rims,
        labels,
    })
}

// The rims of triangles.
fn rims_of(alloc: Global, surface: &CutSurface, numbers: &[u32]) -> Result<Rims, NoMemory>
    requires { All (λ t. t < length surface.now.over.triples.items) numbers.now }
    ensures { IfOk result (λ rims. rims ≡ (map (λ t. cut_rim surface.now.cuts (triple_of (get_or surface.now.over.triples.items t []))) numbers.now, [])) }
{
    let mut rims = Rims::none(alloc);
    let mut rim = Vec::new(alloc);
    for number in numbers {
        rim.clear();
        surface
            .cuts
            .push_rim(&mut rim, surface.over.triples[*number as usize])?;
        rims.push_list(&rim)?;
    }
    Ok(rims)
}
