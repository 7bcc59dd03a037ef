// One whole operation.
//
// An operation on two meshes makes their sides in a function of its own (`assemble_meshes`), so that they and their
// numbers are let go before the vertices are split: a clause tells what was assembled of the meshes, and no more is
// needed of the sides.
ghost use Rattle.std.specs.Prelude.{◌≤◌, ◌+◌, ◌*◌, IfErr, IfOk, length};
ghost use Rattle.mesh_boolean.specs.Assembly.{IsOfMeshes, IsSplit};
ghost use Rattle.mesh_boolean.specs.Faults.{IsTooLarge};
ghost use Rattle.mesh_boolean.specs.Operation.{first_side, second_side};
ghost use Rattle.mesh_boolean.specs.Results.{
  ConserveIn,
  HasOrigins,
  IsBounded,
  IsCleanOver,
  IsFilled,
  IsLabelled,
  IsPrescribed,
  halfedges_in,
};
ghost use Rattle.mesh_terms.specs.Meshes.{IsAccepted, triples_of};
ghost use Rattle.winding.specs.Windings.{components_of};

use crate::assembly::assemble;
use crate::labels::{face_labels, labelled};
use crate::numbers::all_numbers;
use crate::outcome::Outcome;
use crate::sides::{first_side, second_side};
use crate::tested::Tested;
use edge_face::Kernels;
use mb_base::{Limits, NoMemory, Op, Steps};
use mesh_check::Mesh;
use pinch_split::split_over;
use retained_verts::{PrescribeFault, Prescribed};
use source_faces::SourceTriangles;
use std::alloc::Global;
use std::sync::ledger::Ledger;

/// The union, intersection or difference of two meshes, under any lawful kernels.
///
/// Both meshes are reduced, and the kernels give the crossings and the winding numbers of what is left. These prescribe the
/// vertices. The segments between them, which lie on the edges and on the lines in which faces cross, form loops in each
/// source face, which are filled with triangles in the plane of the face. Up to here the vertices are those prescribed, each
/// as often. Last, each becomes one vertex for each fan of triangles round it. The mesh is closed, each of its vertices has
/// one fan, and the triangles of each source face are bounded by its segments and have its label. It may intersect itself,
/// since points are rounded.
///
/// The answer is `TooLarge` only where the prescribed half-edges are more than `limits.halfedges()`, with their number, and
/// there no mesh is given. `NoMemory` may come for any meshes. The mesh is within the limits on points and triangles:
/// for 3 prescribed half-edges it has at most 5 triangles, and for 2 at most 5 points. `steps` counts at most one for each
/// connected component of the reduced meshes. Besides crossings, winding numbers and fillings it takes time in proportion to
/// the faces and to what is prescribed, a sort of the crossings, and, where a vertex has several fans, one of the half-edges.
///
/// After J. M. Smith's thesis "Towards robust inexact geometric computation" and the Manifold library.
pub fn boolean<K: Kernels, L: Ledger>(
    alloc: Global,
    op: Op,
    p: &Mesh,
    q: &Mesh,
    kernels: &K,
    limits: &Limits,
    steps: &mut Steps<L>,
) -> Result<Outcome, PrescribeFault>
    // The result, clause by clause.
    ensures conserved { IfOk result (λ _. ConserveIn (⟦<K as Tested>⟧.tests kernels.now) op p.now q.now) }
    ensures prescribed { IfOk result (IsPrescribed (⟦<K as Tested>⟧.tests kernels.now) op p.now q.now) }
    ensures from { IfOk result HasOrigins }
    ensures faces { IfOk result (IsBounded (⟦<K as Tested>⟧.tests kernels.now) op p.now q.now) }
    ensures clean { IfOk result (λ r. IsCleanOver r.from.items r.mesh.triples) }
    ensures filled { IfOk result (IsFilled (⟦<K as Tested>⟧.tests kernels.now) op p.now q.now) }
    ensures labels { IfOk result (IsLabelled p.now q.now) }

    // Its limits.
    ensures too_large { IfErr result (IsTooLarge limits.now.halfedges (halfedges_in (⟦<K as Tested>⟧.tests kernels.now) op p.now q.now)) }
    ensures halfedges { IfOk result (λ r. r.prescribed.halfedges ≤ limits.now.halfedges) }
    ensures few_triangles { IfOk result (λ r. 3 * length r.mesh.triples ≤ 5 * r.prescribed.halfedges) }
    ensures few_points { IfOk result (λ r. 2 * length r.mesh.points ≤ 5 * r.prescribed.halfedges) }
    ensures triangles { IfOk result (λ r. length r.mesh.triples ≤ limits.now.triangles) }
    ensures points { IfOk result (λ r. length r.mesh.points ≤ limits.now.points) }
    ensures cost { steps.new ≤ steps.old + components_of (first_side op p.now) + components_of (second_side q.now) }
{
    // Read so that what limits keep is known here.
    let _ = limits.halfedges();
    let labels = face_labels(alloc, p, q)?;
    let (prescribed, all) = assemble_meshes(alloc, op, p, q, kernels, limits, steps)?;
    let made = split_fans(alloc, prescribed, all)?;
    Ok(labelled(alloc, made, labels)?)
}

// The vertices that an operation on two meshes prescribes, and the triangles of all source faces. The sides and their
// numbers are let go.
fn assemble_meshes<K: Kernels, L: Ledger>(
    alloc: Global,
    op: Op,
    p: &Mesh,
    q: &Mesh,
    kernels: &K,
    limits: &Limits,
    steps: &mut Steps<L>,
) -> Result<(Prescribed, SourceTriangles), PrescribeFault>
    ensures conserved { IfOk result (λ _. ConserveIn (⟦<K as Tested>⟧.tests kernels.now) op p.now q.now) }
    ensures assembled { IfOk result (λ r. IsOfMeshes (⟦<K as Tested>⟧.tests kernels.now) op p.now q.now r.0 r.1) }
    ensures within { IfOk result (λ r. r.0.halfedges ≤ limits.now.halfedges) }
    ensures too_large { IfErr result (IsTooLarge limits.now.halfedges (halfedges_in (⟦<K as Tested>⟧.tests kernels.now) op p.now q.now)) }
    ensures cost { steps.new ≤ steps.old + components_of (first_side op p.now) + components_of (second_side q.now) }
{
    let p = first_side(alloc, op, p)?;
    let q = second_side(alloc, q)?;
    let (windings, hits) = all_numbers(alloc, &p, &q, kernels, steps)?;
    assemble(alloc, op, p, q, &windings, &hits, limits)
}

// The mesh of these vertices and triangles, one vertex for each fan, with empty labels.
fn split_fans(
    alloc: Global,
    prescribed: Prescribed,
    all: SourceTriangles,
) -> Result<Outcome, NoMemory>
    requires { IsAccepted (length prescribed.points.items) (triples_of all.triples.items) }
    ensures { IfOk result (IsSplit prescribed all) }
{
    let SourceTriangles {
        triples,
        source,
        forced,
    } = all;
    let split = split_over(alloc, &prescribed.points, triples)?;
    // Read so that what a mesh keeps is known here.
    let _ = split.mesh.triples();
    Ok(Outcome {
        mesh: split.mesh,
        prescribed,
        from: split.from,
        source,
        forced,
    })
}
