// The inspection of a mesh.
ghost use Rattle.std.specs.Prelude.{◌≡◌, IfOk};
ghost use Rattle.inspection_terms.specs.Inspected.{doubled_count, flat_count, high_corner, low_corner, touching_count, IsCutCount};

use crate::cuts::cuts;
use crate::firsts::firsts;
use crate::flats::flats;
use crate::inspection::Inspection;
use crate::span::{high_corner, low_corner};
use crate::touching::touching;
use mb_base::NoMemory;
use mesh_check::Mesh;
use std::alloc::Global;

/// Inspects a mesh. For n triangles it takes memory in proportion to n, and time in proportion to n log n where the box of each
/// triangle touches few others. `NoMemory` may come for any mesh.
pub fn inspect(alloc: Global, mesh: &Mesh) -> Result<Inspection, NoMemory>
    ensures low { IfOk result (λ i. i.low ≡ low_corner mesh.now.points) }
    ensures high { IfOk result (λ i. i.high ≡ high_corner mesh.now.points) }
    ensures flat { IfOk result (λ i. i.flat ≡ flat_count mesh.now) }
    ensures doubled { IfOk result (λ i. i.doubled ≡ doubled_count mesh.now.points) }
    ensures touching { IfOk result (λ i. i.touching ≡ touching_count mesh.now) }
    ensures cuts { IfOk result (λ i. IsCutCount mesh.now i.cuts) }
{
    let points = mesh.points();
    let firsts = firsts(alloc, points)?;
    let touching = touching(alloc, mesh, &firsts.of)?;
    let cuts = cuts(alloc, mesh)?;
    Ok(Inspection {
        low: low_corner(points),
        high: high_corner(points),
        flat: flats(mesh),
        doubled: firsts.doubled,
        touching,
        cuts,
    })
}
