// The copies of each vertex of a mesh.
ghost use Rattle.std.specs.Prelude.{◌≡◌, ◌+◌, ◌<◌, ◌^◌, IfOk, map};
ghost use Rattle.side_terms.specs.Prescribed.{vertex_count};
ghost use Rattle.source_faces.specs.Runs.{runs_from};
ghost use Rattle.retained_verts.specs.Parts.{vertex_number};
ghost use Rattle.retained_verts.specs.Small.{AreSmallWindings};

use mb_base::{NoMemory, Op};
use retained_verts::Operand;
use std::alloc::Global;

/// The copies of a vertex: the number of the first, how many there are, and whether the vertex is prescribed a negative number
/// of times.
#[derive(Clone, Copy, Debug, PartialEq, Eq, Drop)]
pub struct CopyRange {
    pub first: u32,
    pub count: u32,
    pub negative: bool,
}

/// The copies of each vertex of a mesh with these winding numbers, where the first copy of the first one has this number.
/// `NoMemory` may come for any.
pub fn runs_of(
    alloc: Global,
    op: Op,
    operand: Operand,
    windings: &[i64],
    first: u32,
) -> Result<Vec<CopyRange>, NoMemory>
    requires small { AreSmallWindings windings.now }
    requires fits { first + vertex_count (vertex_number op operand) windings.now < 2 ^ 32 }
    ensures { IfOk result (λ runs. runs.items ≡ runs_from first (map (vertex_number op operand) windings.now)) }
{
    let mut runs = Vec::with_capacity(alloc, windings.len())?;
    let mut first = first;
    for winding in windings {
        let number = operand.number(op, *winding);
        let count = number.unsigned_abs() as u32;
        runs.push(CopyRange {
            first,
            count,
            negative: number < 0,
        })?;
        first += count;
    }
    Ok(runs)
}
