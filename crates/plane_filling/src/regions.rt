// Regions, as they wait to be filled.
ghost use Rattle.std.specs.Prelude.{◌≡◌, ◌≤◌, ◌<◌, ◌++◌, ◌∷◌, ℕ, List, [], OnOk, get_or, length};
ghost use Rattle.std.specs.List.{All};
ghost use Rattle.places_by_key.specs.Buckets.{begin_of};
ghost use Rattle.sheet_terms.specs.Needless.{walk_edges};
ghost use Rattle.plane_filling.specs.Regions.{AreRegions, AreSeen, all_walks, waiting};
ghost use Rattle.plane_filling.specs.Ways.{Notes};

use crate::needless::Ways;
use mb_base::NoMemory;
use plane_chains::Rims;
use plane_groups::PlaneView;
use std::alloc::Global;

/// A region of a plane as it is seen from the side that it faces: the first triangle that lies in the plane and faces that side, whether it is a kept triangle, and a
/// triangle that has its label.
#[derive(Clone, Copy, Drop)]
pub struct Region {
    pub first: u32,
    pub kept: bool,
    pub label: u32,
    pub view: PlaneView,
}

/// Regions with the walks of each.
#[derive(Drop)]
pub struct Regions {
    pub all: Vec<Region>,
    // Where the walks of each end among all walks.
    ends: Vec<usize>,
    pub walks: Rims,
}

impl Regions {
    /// No regions.
    pub fn none(alloc: Global) -> Regions
        ensures { AreSeen result [] [] [] [] }
    {
        Regions {
            all: Vec::new(alloc),
            ends: Vec::new(alloc),
            walks: Rims::none(alloc),
        }
    }

    /// Adds a place to the walk that is being made.
    pub fn push_place(&mut self, place: u32) -> Result<(), NoMemory>
        requires { AreRegions self.old }
        ensures { OnOk result (AreSeen self.new self.old.all.items (all_walks self.old) (waiting self.old) (self.old.walks.1 ++ place ∷ [])) }
    {
        self.walks.push(place)?;
        Ok(())
    }

    /// Ends the walk that is being made.
    pub fn end_walk(&mut self) -> Result<(), NoMemory>
        requires { AreRegions self.old }
        ensures { OnOk result (AreSeen self.new self.old.all.items (all_walks self.old) (waiting self.old ++ self.old.walks.1 ∷ []) []) }
    {
        self.walks.end()?;
        Ok(())
    }

    /// Adds the region of the walks that were added since the last one.
    pub fn push(&mut self, region: Region) -> Result<(), NoMemory>
        requires { AreRegions self.old }
        ensures { OnOk result (AreSeen self.new (self.old.all.items ++ region ∷ []) (all_walks self.old ++ waiting self.old ∷ []) [] self.old.walks.1) }
    {
        self.all.push(region)?;
        self.ends.push(self.walks.len())?;
        Ok(())
    }

    /// Adds a walk.
    pub fn push_walk(&mut self, places: &[u32]) -> Result<(), NoMemory>
        requires { AreRegions self.old }
        ensures { OnOk result (AreSeen self.new self.old.all.items (all_walks self.old) (waiting self.old ++ (self.old.walks.1 ++ places.now) ∷ []) []) }
    {
        for place in places {
            self.walks.push(*place)?;
        }
        self.walks.end()?;
        Ok(())
    }

    /// The first walk of a region, and the one after its last.
    pub fn walks_of(&self, region: usize) -> (usize, usize)
        requires are { AreRegions self.now }
        requires region { region < length self.now.all.items }
        ensures start { result.0 ≡ begin_of self.now.ends.items region }
        ensures end { result.1 ≡ get_or self.now.ends.items region 0 }
        ensures up { result.0 ≤ result.1 }
        ensures within { result.1 ≤ length self.now.walks.0 }
    {
        let start = if region == 0 {
            0
        } else {
            self.ends[region - 1]
        };
        (start, self.ends[region])
    }

    /// Notes the ways along all walks.
    pub fn note(&self, ways: &mut Ways)
        requires { All (λ walk. All (λ v. v < length ways.old.leads.items) walk) self.now.walks.0 }
        ensures count { length ways.new.leads.items ≡ length ways.old.leads.items }
        ensures notes { (es : List (ℕ × ℕ)) → Notes es ways.old → Notes (es ++ walk_edges self.now.walks.0) ways.new }
    {
        for walk in 0..self.walks.len() {
            ways.note_walk(self.walks.rim(walk));
        }
    }
}
