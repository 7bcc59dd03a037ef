// Any solid.
ghost use Rattle.std.specs.Prelude.{◌≡◌, IfOk};
ghost use Rattle.made_terms.specs.Making.{IsSolid, solid_fault, solid_mesh};
ghost use Rattle.mesh_make.specs.Refused.{IsRefusedFor};

use crate::fault::MakeFault;
use crate::lattice::make_lattice;
use crate::solids::{make_box, make_prism, make_tetra};
use made_terms::Solid;
use mb_base::Limits;
use mesh_check::Mesh;
use std::alloc::Global;

/// The mesh of a solid.
pub fn make_solid(alloc: Global, solid: Solid, limits: &Limits) -> Result<Mesh, MakeFault>
    requires { IsSolid solid }
    ensures refused { IsRefusedFor (solid_fault limits.now solid) result }
    ensures mesh { IfOk result (λ mesh. mesh ≡ solid_mesh solid) }
{
    match solid {
        Solid::Box(low, high) => make_box(alloc, low, high, limits),
        Solid::Tetra(at, size) => make_tetra(alloc, at, size, limits),
        Solid::Prism(at, size, height) => make_prism(alloc, at, size, height, limits),
        Solid::Lattice(n, seed) => make_lattice(alloc, n, seed, limits),
    }
}
