// Pairs of triangles that cut one another.
ghost use Rattle.std.specs.Prelude.{◌≡◌, ◌<◌, ◌≤◌, IfOk, OnOk, length, count_by};
ghost use Rattle.chain_terms.specs.Sums.{upto};
ghost use Rattle.inspection_terms.specs.Inspected.{pairs_below, IsCutCount};
ghost use Rattle.inspection_terms.specs.Triangles.{corners_at};
ghost use Rattle.inspection_laws.specs.Boxes.{box_round, boxes_of};
ghost use Rattle.inspection_laws.specs.Signs.{are_cutting};
ghost use Rattle.self_cuts.specs.Hands.{AreAtHand};

use crate::faces::{box_of, face_at, tree_over, triangle_at};
use crate::near::{cut_among, cut_before};
use crate::nearby::Nearby;
use box_tree::Tree;
use mb_base::{Box3, NoMemory};
use mesh_check::Mesh;
use std::alloc::Global;

/// How many pairs of triangles cut one another. A tree over the boxes of all finds for each triangle those near it, for some
/// that follow one another at once where they lie close together; and signs decide which of these that come before it cut it.
pub fn cuts(alloc: Global, mesh: &Mesh) -> Result<u64, NoMemory>
    ensures { IfOk result (IsCutCount mesh.now) }
{
    let tree = tree_over(alloc, mesh)?;
    let mut near = Nearby::none(alloc);
    cuts_of(mesh, &tree, &mut near)
}

// The same over such a tree.
fn cuts_of(mesh: &Mesh, tree: &Tree, near: &mut Nearby) -> Result<u64, NoMemory>
    requires tree { tree.now ≡ boxes_of mesh.now }
    requires near { AreAtHand mesh.now near.old.area near.old.end near.old.seen.items }
    ensures { IfOk result (IsCutCount mesh.now) }
{
    let mut count = 0;
    for t in 0..triangles(mesh) {
        let more = cuts_with(mesh, tree, near, t)?;
        count += more;
    }
    Ok(count)
}

/// How many triangles a mesh has.
pub fn triangles(mesh: &Mesh) -> u32
    ensures value { result ≡ length mesh.now.triples }
    ensures few { result ≤ 100_000_000 }
{
    mesh.triples().len() as u32
}

// How many triangles before that of a number cut it.
fn cuts_with(mesh: &Mesh, tree: &Tree, near: &mut Nearby, t: u32) -> Result<u64, NoMemory>
    requires within { t < length mesh.now.triples }
    requires tree { tree.now ≡ boxes_of mesh.now }
    requires near { AreAtHand mesh.now near.old.area near.old.end near.old.seen.items }
    ensures value { IfOk result (λ n. n ≡ count_by (λ s. are_cutting (corners_at mesh.now s) (corners_at mesh.now t)) (upto t)) }
    ensures near { OnOk result (AreAtHand mesh.now near.new.area near.new.end near.new.seen.items) }
{
    let face = face_at(mesh, t);
    let own = box_at(mesh, t);
    let serves = near.go_on(mesh, tree, t, &own)?;
    if serves {
        return Ok(cut_before(&near.seen, t, &face, &own));
    }
    Ok(u64::from(cut_among(mesh, tree, t, &face, &own)))
}

// The box of a triangle.
#[inline]
fn box_at(mesh: &Mesh, t: u32) -> Box3
    requires { t < length mesh.now.triples }
    ensures { result ≡ box_round (corners_at mesh.now t) }
{
    box_of(&triangle_at(mesh, t))
}
