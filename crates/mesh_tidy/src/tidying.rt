// Tidying.
ghost use Rattle.std.specs.Prelude.{◌≡◌, ◌≤◌, ◌+◌, ◌∷◌, IfOk, OnOk, false, true, length};
ghost use Rattle.std.specs.List.{All};
ghost use Rattle.chain_terms.specs.Chains.{all_edges};
ghost use Rattle.halfedge.specs.Clean.{IsClean};
ghost use Rattle.mesh_terms.specs.Meshes.{IsAccepted};
ghost use Rattle.mesh_terms.specs.Volume.{volume6_of};
ghost use Rattle.tidy_laws.specs.Laws.{LieAtSame, NoneCollapsible};
ghost use Rattle.tidy_terms.specs.Collapsible.{is_collapsible};
ghost use Rattle.tidy_terms.specs.Tidy.{tidied, tidy_mesh};
ghost use Rattle.mesh_tidy.specs.Doubts.{AreDoubted, AreHalves};
ghost use Rattle.mesh_tidy.specs.TidySurface.{Has, HasCollapsed, HasTidied, IsSurface, left_of, number_of};

use crate::doubts::{doubt, first_doubts};
use crate::surface::TidySurface;
use crate::tidied::Tidied;
use halfedge::halves::{next, previous};
use mb_base::{NoMemory, Point};
use mesh_check::Mesh;
use std::alloc::Global;
use std::collections::BTreeSet;

/// The tidied mesh: the least half-edge that can be collapsed is collapsed, until there is none, and the points that no
/// triangle uses any more are dropped. The others keep their order, and the triangles that stay theirs and their labels.
/// `NoMemory` may come for any mesh that has an edge whose ends lie at one point, or whose clone takes memory. Where there is
/// none, it takes one pass over the triangles and a copy. Otherwise the time is that of asking each such edge once, and at most
/// four more for each collapse; a question goes over the edges at both ends.
pub fn tidy(alloc: Global, mesh: &Mesh) -> Result<Tidied, NoMemory>
    ensures mesh { IfOk result (λ t. t.mesh ≡ tidy_mesh mesh.now) }
    ensures collapsed { IfOk result (λ t. t.collapsed ≡ (tidied mesh.now.points mesh.now.triples mesh.now.labels).collapses) }
    ensures none { IfOk result (λ t. NoneCollapsible t.mesh) }
    ensures accepted { IfOk result (λ t. IsAccepted (length t.mesh.points) t.mesh.triples) }
    ensures clean { IfOk result (λ t. IsClean (all_edges mesh.now.triples) → IsClean (all_edges t.mesh.triples)) }
    ensures volume { IfOk result (λ t. volume6_of t.mesh.points t.mesh.triples ≡ volume6_of mesh.now.points mesh.now.triples) }
    ensures at_points { IfOk result (λ t. LieAtSame mesh.now t.mesh) }
{
    read_points(mesh.points());
    let doubts = first_doubts(alloc, mesh)?;
    if doubts.is_empty() {
        return Ok(Tidied {
            mesh: mesh.clone()?,
            collapsed: 0,
        });
    }
    // Read so that what the types of the mesh and of the surface keep is known here.
    let _ = mesh.labels();
    let surface = TidySurface::of(alloc, mesh)?;
    let _ = surface.vertices();
    let (surface, collapsed) = collapse_all(alloc, mesh.points(), surface, doubts)?;
    Ok(Tidied {
        mesh: surface.into_mesh(alloc, mesh)?,
        collapsed,
    })
}

// Reads the points, so that what each keeps is known: it has three coordinates.
fn read_points(points: &[Point])
    ensures { All (λ p. length p ≡ 3) points.now }
{
    for point in points {
        let _ = point.at();
    }
}

// Collapses the least half-edge that can be, of those in doubt, until there is none; the number of collapses beside.
fn collapse_all(
    alloc: Global,
    points: &[Point],
    surface: TidySurface,
    doubts: BTreeSet<u32>,
) -> Result<(TidySurface, u64), NoMemory>
    requires points { length points.now ≡ surface.vertices }
    requires each { All (λ p. length p ≡ 3) points.now }
    requires doubts { AreDoubted points.now surface doubts.keys }
    requires halves { AreHalves surface.triples doubts.keys }
    ensures tidied { IfOk result (λ r. HasTidied points.now surface r.0 r.1) }
    ensures count { IfOk result (λ r. length r.0.triples ≡ length surface.triples) }
    ensures vertices { IfOk result (λ r. r.0.vertices ≡ surface.vertices) }
{
    let mut surface = surface;
    let mut doubts = doubts;
    let mut met = vec![in alloc; false; surface.vertices()]?;
    let mut collapsed = 0;
    while let Some(half) = doubts.pop_first() {
        if surface.has(half) && is_collapsible(points, &mut surface, half, &mut met) {
            collapse(alloc, points, &mut surface, &mut doubts, half)?;
            collapsed += 1;
        }
    }
    Ok((surface, collapsed))
}

// Whether the half-edge can be collapsed. The stars of its ends lose what is gone. No vertex has a mark before or after.
fn is_collapsible(points: &[Point], surface: &mut TidySurface, half: u32, met: &mut [bool]) -> bool
    requires points { length points.now ≡ surface.old.vertices }
    requires has { Has surface.old half }
    requires marks { length met.old ≡ surface.old.vertices }
    requires unmarked { All (λ mark. mark ≡ false) met.old }
    ensures value { result ≡ is_collapsible points.now (left_of surface.old) (number_of surface.old half) }
    ensures surface { surface.new ≡ surface.old }
    ensures marks { met.new ≡ met.old }
{
    let from = surface.start(half);
    let to = surface.end(half);
    surface.prune(from);
    surface.prune(to);
    surface.can_collapse(points, half, met)
}

// Collapses the half-edge, and doubts again the edges that can open by it: those from the vertex that stays to the third
// vertices of the two triangles, and the one between these.
fn collapse(
    alloc: Global,
    points: &[Point],
    surface: &mut TidySurface,
    doubts: &mut BTreeSet<u32>,
    half: u32,
) -> Result<(), NoMemory>
    requires points { length points.now ≡ surface.old.vertices }
    requires each { All (λ p. length p ≡ 3) points.now }
    requires has { Has surface.old half }
    requires can { is_collapsible points.now (left_of surface.old) (number_of surface.old half) ≡ true }
    requires doubts { AreDoubted points.now surface.old (half ∷ doubts.old.keys) }
    requires halves { AreHalves surface.old.triples doubts.old.keys }
    requires surface { IsSurface surface.old }
    ensures collapsed { OnOk result (HasCollapsed surface.old surface.new half) }
    ensures surface { OnOk result (IsSurface surface.new) }
    ensures doubts { OnOk result (AreDoubted points.now surface.new doubts.new.keys) }
    ensures halves { OnOk result (AreHalves surface.new.triples doubts.new.keys) }
    ensures count { OnOk result (length doubts.new.keys ≤ length doubts.old.keys + 4) }
{
    let twin = surface.twin(half);
    let to_third = surface.twin(previous(half));
    let from_third = surface.twin(next(half));
    let to_other = surface.twin(next(twin));
    surface.collapse(alloc, half)?;
    // Read so that what the type of the surface keeps is known here.
    let _ = surface.vertices();
    doubt(doubts, points, surface, to_third)?;
    doubt(doubts, points, surface, to_other)?;
    doubt(doubts, points, surface, next(to_third))?;
    doubt(doubts, points, surface, previous(from_third))?;
    Ok(())
}
