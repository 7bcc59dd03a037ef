// The vertices that numbers prescribe, and the triangles between them.
ghost use Rattle.std.specs.Prelude.{◌≤◌, IfErr, IfOk};
ghost use Rattle.side_terms.specs.Prescribed.{prescribed_halfedges};
ghost use Rattle.mesh_boolean.specs.Assembly.{AreNumbers, IsAssembled};
ghost use Rattle.mesh_boolean.specs.Faults.{IsTooLarge};
ghost use Rattle.mesh_check.specs.Reduced.{NoOpposite};
ghost use Rattle.retained_verts.specs.Handed.{numbers};

use lean::Side;
use mb_base::{Hits, Limits, Op, Windings};
use retained_verts::{PrescribeFault, Prescribed, prescribe};
use source_face_laws::of_fillings::{faces_are_filled, fillings_close};
use source_faces::{SourceTriangles, triangles_of};
use std::alloc::Global;

/// The vertices that the numbers of two sides prescribe, and the triangles of all source faces. The trees of the sides are let go
/// before these are listed.
pub fn assemble(
    alloc: Global,
    op: Op,
    p: Side,
    q: Side,
    windings: &Windings,
    hits: &Hits,
    limits: &Limits,
) -> Result<(Prescribed, SourceTriangles), PrescribeFault>
    requires p_apart { NoOpposite p.triples }
    requires q_apart { NoOpposite q.triples }
    requires known { AreNumbers p q windings.now hits.now }
    ensures assembled { IfOk result (λ r. IsAssembled op p q (numbers windings.now hits.now) r.0 r.1) }
    ensures within { IfOk result (λ r. r.0.halfedges ≤ limits.now.halfedges) }
    ensures too_large { IfErr result (IsTooLarge limits.now.halfedges (prescribed_halfedges op p q (numbers windings.now hits.now))) }
{
    // Read so that what sides and limits keep is known here.
    let _ = p.twins();
    let _ = q.twins();
    let _ = limits.halfedges();
    // The laws of fillings.
    faces_are_filled();
    fillings_close();
    let prescribed = prescribe(alloc, op, &p, &q, windings, hits, limits)?;
    let (p, q) = (p.into_surface(), q.into_surface());
    let all = triangles_of(alloc, op, &p, &q, windings, hits, &prescribed)?;
    Ok((prescribed, all))
}
