// What is to be filled.
ghost use Rattle.std.specs.Prelude.{◌≡◌, ◌<◌, ◌+◌, ◌^◌, ◌++◌, ◌&&◌, [], ℕ, ℤ, List, IfOk, MatchOption, OnOk, false, get_or, length, set, true};
ghost use Rattle.chain_terms.specs.Paths.{round_edges};
ghost use Rattle.mesh_terms.specs.Meshes.{IsBelow, triple_of};
ghost use Rattle.plane_filling.specs.Ways.{Notes};
ghost use Rattle.plane_groups.specs.Grouped.{bent};
ghost use Rattle.sheet_terms.specs.Faces.{Face};
ghost use Rattle.sheet_terms.specs.Filled.{keeps_boundary};
ghost use Rattle.plane_remesh.specs.Plans.{HasFilled, IsPlan, fills, sides_of};
ghost use Rattle.plane_remesh.specs.PlansTo.{IsPlanTo, corner_list};
ghost use Rattle.plane_remesh.specs.Pushed.{AreWhole, HasPushedPlane};
ghost use Rattle.plane_remesh.specs.Surfaces.{IsSurface};
ghost use Rattle.plane_remesh.specs.Works.{IsWork};

use crate::plane_work::PlaneWork;
use crate::sides::push_plane;
use crate::surface::CutSurface;
use mb_base::NoMemory;
use plane_filling::{Filled, Regions, Ways, fill_all};
use std::alloc::Global;

/// The regions of a surface, the ways along all their walks, marks of the triangles that are alone in their planes, how many triangles are kept, and the points of the
/// grid in which edges of a plane cross. It is sound where the walks in each plane have the boundary of its triangles.
#[derive(Drop)]
pub struct Plan {
    regions: Regions,
    ways: Ways,
    alone: Vec<bool>,
    sound: bool,
    pub kept: u64,
    pub found: Vec<[i32; 3]>,
}

impl Plan {
    /// The plan of a surface.
    pub fn of(alloc: Global, surface: &CutSurface) -> Result<Plan, NoMemory>
        requires { (points : List (List ℤ)) × (all : List Face) × IsSurface points all surface.now }
        ensures { (points : List (List ℤ)) (all : List Face) → IsSurface points all surface.now → IfOk result (IsPlan points all) }
    {
        let mut plan = Plan::none(alloc, surface)?;
        for plane in 0..surface.planes.count {
            plan.add(alloc, surface, plane)?;
        }
        plan.regions.note(&mut plan.ways);
        Ok(plan)
    }

    // Nothing yet.
    fn none(alloc: Global, surface: &CutSurface) -> Result<Plan, NoMemory>
        requires { (points : List (List ℤ)) × (all : List Face) × IsSurface points all surface.now }
        ensures { (points : List (List ℤ)) (all : List Face) → IsSurface points all surface.now → IfOk result (IsPlanTo points all 0) }
    {
        Ok(Plan {
            regions: Regions::none(alloc),
            ways: Ways::none(alloc, surface.over.points.len())?,
            alone: vec![in alloc; false; surface.over.triples.len()]?,
            sound: true,
            kept: 0,
            found: Vec::new(alloc),
        })
    }

    // Adds a plane.
    fn add(&mut self, alloc: Global, surface: &CutSurface, plane: usize) -> Result<(), NoMemory>
        requires surface { (points : List (List ℤ)) × (all : List Face) × IsSurface points all surface.now × IsPlanTo points all plane self.old }
        requires plane { plane < surface.now.planes.count }
        ensures { (points : List (List ℤ)) (all : List Face) → IsSurface points all surface.now → IsPlanTo points all plane self.old →
            OnOk result (IsPlanTo points all (plane + 1) self.new) }
    {
        match surface.alone(plane) {
            Some(face) => {
                self.add_alone(surface, face);
                Ok(())
            }
            None => self.add_work(alloc, &PlaneWork::of(alloc, surface, plane)?),
        }
    }

    // Adds a plane of one triangle of which no edge is cut: it is its region.
    fn add_alone(&mut self, surface: &CutSurface, face: u32)
        requires marks { face < length self.old.alone.items }
        requires triples { face < length surface.now.over.triples.items }
        requires places { IsBelow (length self.old.ways.leads.items) (triple_of (get_or surface.now.over.triples.items face [])) }
        ensures marks { self.new.alone.items ≡ set self.old.alone.items face true }
        ensures full { length self.new.ways.leads.items ≡ length self.old.ways.leads.items }
        ensures noted { (es : List (ℕ × ℕ)) → Notes es self.old.ways →
            Notes (es ++ round_edges (corner_list (triple_of (get_or surface.now.over.triples.items face [])))) self.new.ways }
        ensures regions { self.new.regions ≡ self.old.regions }
        ensures sound { self.new.sound ≡ self.old.sound }
        ensures kept { self.new.kept ≡ self.old.kept }
        ensures found { self.new.found.items ≡ self.old.found.items }
    {
        self.alone[face as usize] = true;
        let [a, b, c] = surface.over.triples[face as usize];
        self.ways.note_walk(&[a, b, c]);
    }

    // Adds a plane in hand.
    fn add_work(&mut self, alloc: Global, work: &PlaneWork) -> Result<(), NoMemory>
        requires whole { AreWhole self.old.regions }
        requires work { (points : List (List ℤ)) × (all own : List Face) × (s : Face) × IsWork points all own s work.now }
        requires kept { self.old.kept + length work.now.told.kept.items < 2 ^ 64 }
        ensures regions { (points : List (List ℤ)) (all own : List Face) (s : Face) → IsWork points all own s work.now →
            OnOk result (HasPushedPlane points all work.now.faces.fronts.now work.now.faces.numbers.now self.old.regions self.new.regions) }
        ensures sound { (points : List (List ℤ)) (all own : List Face) (s : Face) → IsWork points all own s work.now →
            OnOk result (self.new.sound ≡ self.old.sound && keeps_boundary points (bent points all) (sides_of points all) s) }
        ensures kept { OnOk result (self.new.kept ≡ self.old.kept + length work.now.told.kept.items) }
        ensures found { OnOk result (self.new.found.items ≡ self.old.found.items ++ work.now.told.points.items) }
        ensures alone { OnOk result (self.new.alone.items ≡ self.old.alone.items) }
        ensures ways { OnOk result (self.new.ways ≡ self.old.ways) }
    {
        self.found.extend_from_slice(&work.told.points)?;
        self.kept += work.told.kept.len() as u64;
        let same = push_plane(alloc, &mut self.regions, work)?;
        self.sound = self.sound && same;
        Ok(())
    }

    /// The triangles with which the planes are filled. None where the plan isn't sound, or one was forced.
    pub fn filled(&self, alloc: Global, surface: &CutSurface) -> Result<Option<Filled>, NoMemory>
        requires { (points : List (List ℤ)) × (all : List Face) × IsSurface points all surface.now × IsPlan points all self.now }
        ensures { (points : List (List ℤ)) (all : List Face) → IsSurface points all surface.now → IsPlan points all self.now →
            IfOk result (λ made. MatchOption made (fills points all ≡ false) (λ f. (fills points all ≡ true) × HasFilled points all f)) }
    {
        if !self.sound {
            return Ok(None);
        }
        fill_all(
            alloc,
            &surface.over.points,
            &surface.over.triples,
            &self.alone,
            &self.regions,
            &self.ways,
        )
    }
}
