// The sides of an operation: its two meshes reduced, the first with its marks.
ghost use Rattle.std.specs.Prelude.{◌≡◌, IfOk};
ghost use Rattle.mesh_boolean.specs.Operation.{p_side, q_side, reduced_mesh};
ghost use Rattle.mesh_check.specs.Reduced.{NoOpposite};

use lean::{Side, leans};
use mb_base::{NoMemory, Op};
use mesh_check::{Mesh, is_plainly_reduced, reduce};
use std::alloc::Global;

/// The first side: the mesh reduced, with the marks for the operation. Where it plainly is reduced, the side is made of the
/// mesh itself.
pub fn first_side(alloc: Global, op: Op, p: &Mesh) -> Result<Side, NoMemory>
    ensures value { IfOk result (λ side. side ≡ p_side op (reduced_mesh p.now)) }
    ensures apart { IfOk result (λ side. NoOpposite side.triples) }
{
    if is_plainly_reduced(p) {
        return marked_side(alloc, op, p);
    }
    let p = reduce(alloc, p)?;
    marked_side(alloc, op, &p)
}

/// The second side: the mesh reduced, with no marks. Where it plainly is reduced, the side is made of the mesh itself.
pub fn second_side(alloc: Global, q: &Mesh) -> Result<Side, NoMemory>
    ensures value { IfOk result (λ side. side ≡ q_side (reduced_mesh q.now)) }
    ensures apart { IfOk result (λ side. NoOpposite side.triples) }
{
    if is_plainly_reduced(q) {
        return plain_side(alloc, q);
    }
    let q = reduce(alloc, q)?;
    plain_side(alloc, &q)
}

// The side of a mesh with the marks for the operation.
fn marked_side(alloc: Global, op: Op, p: &Mesh) -> Result<Side, NoMemory>
    ensures { IfOk result (λ side. side ≡ p_side op p.now) }
{
    let ups = leans(alloc, p, op)?;
    Side::of(alloc, p, ups)
}

// The side of a mesh with no marks.
fn plain_side(alloc: Global, q: &Mesh) -> Result<Side, NoMemory>
    ensures { IfOk result (λ side. side ≡ q_side q.now) }
{
    let ups = vec![in alloc; [false; 3]; q.points().len()]?;
    Side::of(alloc, q, ups)
}
