// Whether an outcome is a result of an operation, whatever made it.
//
// An audit takes the numbers of two meshes as an operation does, and asks the rest of the outcome itself: its
// prescribed vertices are counted before a list of those that should be there is made, so that a list of another
// length takes no memory, and no limit is asked, since a face can be covered by fewer triangles than a filling has.
// Triangles are gathered by their source faces in linear time, and each face is compared by a sort of its edges and
// segments; a face that nothing crosses takes the short way of fillings, where its triangles are copies of it. Every
// vertex that is prescribed occurs among the vertices of a mesh, so there are no more of them than points of a mesh,
// and their numbers fit. That it says yes of what an operation gives follows from clauses, and no code is opened:
// those of `boolean` that `results_are_sound` names make an outcome sound, and of a sound one an audit says yes by
// `sound` of `audit`. `audit_of_result` makes the two calls one after the other, and its proof is just this; its own
// clause, that the answer is yes, names neither.
ghost use Rattle.std.specs.Prelude.{◌≡◌, ◌↔◌, ◌<◌, ◌≤◌, IfOk, IsTrue, length};
ghost use Rattle.std.specs.List.{All};
ghost use Rattle.mesh_boolean.specs.Assembly.{AreNumbers};
ghost use Rattle.mesh_boolean.specs.Audited.{AgreesWithMeshes, AgreesWithSides, IsSound};
ghost use Rattle.mesh_boolean.specs.Operation.{numbers_of};
ghost use Rattle.mesh_boolean.specs.Results.{HasOrigins};
ghost use Rattle.mesh_terms.specs.Limits.{most_triangles};
ghost use Rattle.mesh_terms.specs.Meshes.{triples_of};
ghost use Rattle.retained_verts.specs.Handed.{numbers};

mod clean;
mod origins;

use crate::bounded::are_bounded;
use crate::labels::is_labelled;
use crate::numbers::all_numbers;
use crate::outcome::Outcome;
use crate::sides::{first_side, second_side};
use crate::tested::Tested;
use clean::is_clean_over;
use edge_face::Kernels;
use lean::Side;
use mb_base::{Hits, NoMemory, Op, Steps, Windings};
use mesh_check::Mesh;
use origins::{has_origins, have_three, named_triples};
use retained_verts::are_prescribed;
use std::alloc::Global;
use std::marker::Brand;
use std::sync::ledger::{Blank, Ledger};

/// Whether an outcome is a result of an operation on two meshes under these kernels, whatever made it.
///
/// It is one exactly where its prescribed vertices and their counts are those that crossings and winding numbers prescribe;
/// each vertex of its mesh is one of these and lies where that one does, and each of these occurs; each triangle has a source
/// face and, over prescribed vertices, three different ones, and the triangles of each source face are bounded by its
/// segments; the mesh is clean, and each half-edge has the twin that it has over prescribed vertices; and each triangle has the
/// label of its source face. How faces are filled is not asked, and `forced` is not looked at. Lists of other lengths, and
/// numbers that name no vertex or face, are of no result.
///
/// `NoMemory` may come for any. It takes time and memory as `boolean` does without the fillings, and a sort of the triangles and
/// segments of each face whose triangles are not just copies of it in their order.
pub fn audit<K: Kernels>(
    alloc: Global,
    op: Op,
    p: &Mesh,
    q: &Mesh,
    kernels: &K,
    outcome: &Outcome,
) -> Result<bool, NoMemory>
    ensures sound { IfOk result (λ yes. IsTrue yes ↔ IsSound (⟦<K as Tested>⟧.tests kernels.now) op p.now q.now outcome.now) }
{
    if !has_origins(alloc, outcome)? {
        return Ok(false);
    }
    if outcome.source.len() != outcome.mesh.triples().len() {
        return Ok(false);
    }
    let triples = named_triples(alloc, &outcome.from, outcome.mesh.triples())?;
    if !have_three(&triples) {
        return Ok(false);
    }
    if !is_clean_over(alloc, &outcome.mesh, &outcome.from, &triples)? {
        return Ok(false);
    }
    if !is_labelled(alloc, p, q, outcome)? {
        return Ok(false);
    }
    agrees_with_meshes(alloc, op, p, q, kernels, outcome, &triples)
}

// Whether the prescribed vertices of an outcome, its source faces and the triangles over prescribed vertices are those of an
// operation on two meshes.
fn agrees_with_meshes<K: Kernels>(
    alloc: Global,
    op: Op,
    p: &Mesh,
    q: &Mesh,
    kernels: &K,
    outcome: &Outcome,
    triples: &[[u32; 3]],
) -> Result<bool, NoMemory>
    requires origins { HasOrigins outcome.now }
    requires each { length outcome.now.source.items ≡ length triples.now }
    requires few { length triples.now ≤ most_triangles }
    ensures { IfOk result (λ yes. IsTrue yes ↔
        AgreesWithMeshes (⟦<K as Tested>⟧.tests kernels.now) op p.now q.now outcome.now (triples_of triples.now)) }
{
    let p = first_side(alloc, op, p)?;
    let q = second_side(alloc, q)?;
    let (windings, hits) = uncounted_numbers::<K, Brand>(alloc, &p, &q, kernels, Blank::new(1))?;
    agrees_with_sides(alloc, op, &p, &q, &windings, &hits, outcome, triples)
}

// The numbers of two sides, with a counter of steps that nobody reads.
fn uncounted_numbers<K: Kernels, L: Ledger>(
    alloc: Global,
    p: &Side,
    q: &Side,
    kernels: &K,
    blank: Blank,
) -> Result<(Windings, Hits), NoMemory>
    requires name { blank.name ≡ L.name }
    requires parts { blank.parts ≡ L.parts }
    requires some { 0 < blank.parts }
    ensures value { IfOk result (λ r. numbers r.0 r.1 ≡ numbers_of (⟦<K as Tested>⟧.tests kernels.now) p.now q.now) }
    ensures known { IfOk result (λ r. AreNumbers p.now q.now r.0 r.1) }
{
    let mut steps = Steps::<L>::over(blank);
    all_numbers(alloc, p, q, kernels, &mut steps)
}

// Whether they are those of two sides with their numbers.
fn agrees_with_sides(
    alloc: Global,
    op: Op,
    p: &Side,
    q: &Side,
    windings: &Windings,
    hits: &Hits,
    outcome: &Outcome,
    triples: &[[u32; 3]],
) -> Result<bool, NoMemory>
    requires known { AreNumbers p.now q.now windings.now hits.now }
    requires origins { HasOrigins outcome.now }
    requires each { length outcome.now.source.items ≡ length triples.now }
    requires few { length triples.now ≤ most_triangles }
    ensures { IfOk result (λ yes. IsTrue yes ↔
        AgreesWithSides op p.now q.now (numbers windings.now hits.now) outcome.now (triples_of triples.now)) }
{
    // Read so that what a mesh keeps is known here: so few points.
    let _ = outcome.mesh.points();
    let prescribed = &outcome.prescribed;
    if !are_prescribed(alloc, op, p, q, windings, hits, prescribed)? {
        return Ok(false);
    }
    let faces = p.triples().len() + q.triples().len();
    if !are_below(&outcome.source, faces) {
        return Ok(false);
    }
    are_bounded(
        alloc,
        op,
        p.surface(),
        q.surface(),
        windings,
        hits,
        prescribed,
        &outcome.source,
        triples,
    )
}

// Whether all of these are below a number.
fn are_below(numbers: &[u32], count: usize) -> bool
    ensures { IsTrue result ↔ All (λ x. x < count) numbers.now }
{
    numbers.iter().all(|x| (*x as usize) < count)
}
