//! An operation under exact kernels, with what geometry says of the vertices that it keeps. The call is that of `boolean`.

ghost use Rattle.std.specs.List.{All};
ghost use Rattle.std.specs.Prelude.{IfOk};
ghost use Rattle.mesh_terms.specs.Given.{IsGiven};
ghost use Rattle.mesh_terms.specs.Points.{IsPoint};
ghost use Rattle.geometric_laws.specs.Outcomes.{IsGeometricOutcome};

use exact_kernels::Exact;
use mb_base::{Limits, Op, Point, Steps};
use mesh_boolean::{Outcome, boolean};
use mesh_check::Mesh;
use retained_verts::PrescribeFault;
use rounding::Rounding;
use std::alloc::Global;
use std::sync::ledger::Ledger;

/// The union, intersection or difference of two meshes, as `boolean` gives it, under exact kernels: each vertex of one, reduced, that lies
/// in no closed triangle of the other is among the prescribed vertices as often as the operation on its geometric winding number says.
pub fn exact_boolean<R: Rounding, L: Ledger>(
    alloc: Global,
    op: Op,
    p: &Mesh,
    q: &Mesh,
    kernels: &Exact<R>,
    limits: &Limits,
    steps: &mut Steps<L>,
) -> Result<Outcome, PrescribeFault>
    ensures geometric { IfOk result (IsGeometricOutcome op p.now q.now) }
{
    read(p);
    read(q);
    boolean(alloc, op, p, q, kernels, limits, steps)
}

// Reads a mesh, so that what its type keeps is known: it is closed, its points are on the grid, and each triangle has a label.
fn read(mesh: &Mesh)
    ensures { IsGiven mesh.now }
{
    let _ = mesh.labels();
    let _ = mesh.triples();
    read_points(mesh.points());
}

// Reads the points.
fn read_points(points: &[Point])
    ensures { All IsPoint points.now }
{
    for point in points {
        let _ = point.at();
    }
}
