// The half-edges that may be collapsible.
ghost use Rattle.std.specs.Prelude.{◌≡◌, ◌+◌, ◌*◌, ◌<◌, ◌≤◌, ℕ, IfOk, OnOk, length, true};
ghost use Rattle.std.specs.List.{All, Contains};
ghost use Rattle.mesh_terms.specs.Limits.{most_triangles};
ghost use Rattle.mesh_terms.specs.Meshes.{IsBelow, triples_of};
ghost use Rattle.mesh_tidy.specs.Doubts.{AreHalves, HasLesser, HasLesserAtOne, lies_at_one};
ghost use Rattle.mesh_tidy.specs.TidySurface.{Has};

use crate::surface::TidySurface;
use halfedge::halves::{end, start};
use mb_base::{NoMemory, Point};
use mesh_check::Mesh;
use std::alloc::Global;
use std::collections::BTreeSet;

/// Of each half-edge of the mesh and its twin the lesser, where their ends lie at one point.
pub fn first_doubts(alloc: Global, mesh: &Mesh) -> Result<BTreeSet<u32>, NoMemory>
    ensures halves { IfOk result (λ doubts. AreHalves mesh.now.triples doubts.keys) }
    ensures lesser { IfOk result (λ doubts. HasLesserAtOne mesh.now.points mesh.now.triples doubts.keys) }
{
    let mut doubts = BTreeSet::new(alloc);
    let twins = mesh.twins().twins();
    for half in 0..twins.len() as u32 {
        if half < twins[half as usize] && lies_at_one(mesh.points(), mesh.triples(), half) {
            doubts.insert(half)?;
        }
    }
    Ok(doubts)
}

// Whether both ends of the half-edge lie at one point.
fn lies_at_one(points: &[Point], triples: &[[u32; 3]], half: u32) -> bool
    requires half { half < 3 * length triples.now }
    requires few { length triples.now ≤ most_triangles }
    requires below { All (IsBelow (length points.now)) (triples_of triples.now) }
    ensures { result ≡ lies_at_one points.now (triples_of triples.now) half }
{
    points[start(triples, half) as usize] == points[end(triples, half) as usize]
}

/// Adds the lesser of the half-edge and its twin, where their ends lie at one point.
pub fn doubt(
    doubts: &mut BTreeSet<u32>,
    points: &[Point],
    surface: &TidySurface,
    half: u32,
) -> Result<(), NoMemory>
    requires has { Has surface.now half }
    requires points { length points.now ≡ surface.now.vertices }
    ensures halves { OnOk result (AreHalves surface.now.triples doubts.old.keys → AreHalves surface.now.triples doubts.new.keys) }
    ensures stay { OnOk result ((x : ℕ) → Contains doubts.old.keys x → Contains doubts.new.keys x) }
    ensures count { OnOk result (length doubts.new.keys ≤ length doubts.old.keys + 1) }
    ensures lesser { OnOk result (lies_at_one points.now surface.now.triples half ≡ true → HasLesser surface.now doubts.new.keys half) }
{
    let from = surface.start(half);
    let to = surface.end(half);
    if points[from as usize] == points[to as usize] {
        doubts.insert(half.min(surface.twin(half)))?;
    }
    Ok(())
}
