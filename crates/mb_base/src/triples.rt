// Lists of triangles.
ghost use Rattle.std.specs.Prelude.{◌≡◌, IfOk};

use crate::NoMemory;
use std::alloc::Global;

/// A copy of triangles.
pub fn copied(alloc: Global, triples: &[[u32; 3]]) -> Result<Vec<[u32; 3]>, NoMemory>
    ensures { IfOk result (λ copy. copy.items ≡ triples.now) }
{
    Ok(triples.to_vec(alloc)?)
}
