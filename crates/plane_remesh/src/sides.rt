// The regions of the sides of a plane.
ghost use Rattle.std.specs.Prelude.{◌≡◌, ◌<◌, ◌^◌, ◌++◌, ◌∷◌, [], ℤ, List, Bool, IfOk, OnOk, false, find, length, true};
ghost use Rattle.plane_chains.specs.Listed.{faces_side};
ghost use Rattle.plane_filling.specs.Regions.{AreRegions, AreSeen, all_walks, waiting};
ghost use Rattle.plane_groups.specs.Grouped.{bent};
ghost use Rattle.sheet_terms.specs.Faces.{Face};
ghost use Rattle.sheet_terms.specs.Filled.{keeps_boundary};
ghost use Rattle.plane_remesh.specs.Plans.{sides_of};
ghost use Rattle.plane_remesh.specs.Pushed.{AreWhole, HasPushedFor, HasPushedPlane, HasPushedSome, kept_regions, sheet_regions};
ghost use Rattle.plan_laws.specs.Views.{IsSeenFrom};
ghost use Rattle.plane_remesh.specs.Works.{IsWork};

use crate::boundary::have_same_boundary;
use crate::plane_work::{PlaneWork, seen};
use face_loops::Loop;
use mb_base::NoMemory;
use plane_filling::{Region, Regions};
use plane_groups::PlaneView;
use plane_sheets::regions_of;
use std::alloc::Global;

/// The most regions of a mesh.
const MOST_REGIONS: usize = 4_294_967_295;

/// Adds the regions of a plane: of each of its sides those of sheets, and one for each kept triangle that faces it. Whether all their walks have the boundary of the
/// plane's triangles.
pub fn push_plane(alloc: Global, regions: &mut Regions, work: &PlaneWork) -> Result<bool, NoMemory>
    requires whole { AreWhole regions.old }
    requires work { (points : List (List ℤ)) × (all own : List Face) × (s : Face) × IsWork points all own s work.now }
    ensures pushed { (points : List (List ℤ)) (all own : List Face) (s : Face) → IsWork points all own s work.now →
        OnOk result (HasPushedPlane points all work.now.faces.fronts.now work.now.faces.numbers.now regions.old regions.new) }
    ensures same { (points : List (List ℤ)) (all own : List Face) (s : Face) → IsWork points all own s work.now →
        IfOk result (λ same. same ≡ keeps_boundary points (bent points all) (sides_of points all) s) }
{
    let before = regions.walks.len();
    push_side(alloc, regions, work, true)?;
    push_side(alloc, regions, work, false)?;
    have_same_boundary(alloc, &work.faces.rims, &regions.walks, before)
}

// Adds the regions of a side. None where no triangle faces it.
fn push_side(
    alloc: Global,
    regions: &mut Regions,
    work: &PlaneWork,
    front: bool,
) -> Result<(), NoMemory>
    requires whole { AreWhole regions.old }
    requires work { (points : List (List ℤ)) × (all own : List Face) × (s : Face) × IsWork points all own s work.now }
    ensures { (points : List (List ℤ)) (all own : List Face) (s : Face) → IsWork points all own s work.now →
        OnOk result (HasPushedFor points all (find (faces_side work.now.faces.fronts.now front) work.now.faces.numbers.now) regions.old regions.new) }
{
    match work.faces.first(front) {
        Some(first) => {
            let view = side_view(work, front);
            push_sheets(alloc, regions, work, view, first)?;
            push_kept(regions, work, view, first, front)
        }
        None => Ok(()),
    }
}

// The plane as it is seen from one of its sides.
fn side_view(work: &PlaneWork, front: bool) -> PlaneView
    ensures { (points : List (List ℤ)) (all own : List Face) (s : Face) → IsWork points all own s work.now → IsSeenFrom points s front result }
{
    if front { work.view } else { work.view.behind() }
}

// Adds the regions of sheets of a side, whose first triangle is given.
fn push_sheets(
    alloc: Global,
    regions: &mut Regions,
    work: &PlaneWork,
    view: PlaneView,
    first: u32,
) -> Result<(), NoMemory>
    requires whole { AreWhole regions.old }
    requires work { (points : List (List ℤ)) × (all own : List Face) × (s : Face) × (front : Bool) × IsWork points all own s work.now × IsSeenFrom points s front view }
    ensures { (points : List (List ℤ)) (all own : List Face) (s : Face) (front : Bool) → IsWork points all own s work.now → IsSeenFrom points s front view →
        OnOk result (HasPushedSome points all s front first false regions.old regions.new (sheet_regions points own s front)) }
{
    let found = regions_of(
        alloc,
        seen(view, work.points),
        &work.told.chain,
        work.told.free,
    )?;
    for each in &found {
        push_walks(regions, &each.walks)?;
        let label = work.faces.labels.firsts[each.label as usize];
        push(
            regions,
            Region {
                first,
                kept: false,
                label,
                view,
            },
        )?;
    }
    Ok(())
}

// Adds walks.
fn push_walks(regions: &mut Regions, walks: &[Loop]) -> Result<(), NoMemory>
    requires are { AreRegions regions.old }
    requires made { regions.old.walks.1 ≡ [] }
    ensures { OnOk result (AreSeen regions.new regions.old.all.items (all_walks regions.old) (waiting regions.old ++ walks.now) []) }
{
    for walk in walks {
        regions.push_walk(walk.vertices())?;
    }
    Ok(())
}

// Adds a region for each kept triangle that faces a side.
fn push_kept(
    regions: &mut Regions,
    work: &PlaneWork,
    view: PlaneView,
    first: u32,
    front: bool,
) -> Result<(), NoMemory>
    requires whole { AreWhole regions.old }
    requires work { (points : List (List ℤ)) × (all own : List Face) × (s : Face) × IsWork points all own s work.now }
    ensures { (points : List (List ℤ)) (all own : List Face) (s : Face) → IsWork points all own s work.now → IsSeenFrom points s front view →
        OnOk result (HasPushedSome points all s front first true regions.old regions.new (kept_regions points own s front)) }
{
    for i in &work.told.kept {
        let i = *i as usize;
        if work.faces.is_front(i) == front {
            regions.push_walk(work.faces.rims.rim(i))?;
            let label = work.faces.numbers[i];
            push(
                regions,
                Region {
                    first,
                    kept: true,
                    label,
                    view,
                },
            )?;
        }
    }
    Ok(())
}

// Adds the region of the last walks.
fn push(regions: &mut Regions, region: Region) -> Result<(), NoMemory>
    requires are { AreRegions regions.old }
    requires made { regions.old.walks.1 ≡ [] }
    ensures seen { OnOk result (AreSeen regions.new (regions.old.all.items ++ region ∷ []) (all_walks regions.old ++ waiting regions.old ∷ []) [] []) }
    ensures few { OnOk result (length regions.new.all.items < 2 ^ 32) }
{
    if regions.all.len() >= MOST_REGIONS {
        return Err(NoMemory);
    }
    regions.push(region)
}
