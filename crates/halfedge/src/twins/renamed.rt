// Twins that stay where the vertices of the triangles get other names.
ghost use Rattle.std.specs.Prelude.{◌≡◌, IfOk};
ghost use Rattle.chain_terms.specs.Chains.{all_edges};
ghost use Rattle.mesh_terms.specs.Meshes.{triples_of};
ghost use Rattle.mesh_terms.specs.Twins.{IsTwinned};
ghost use Rattle.halfedge.specs.Laws.{AreSingle};

use crate::twins::{TwinFault, Twins};
use mb_base::NoMemory;
use std::alloc::Global;
use std::rc::Rc;

impl Twins {
    /// These triangles with the twins that the half-edges have here. The triangles must be such that these are their
    /// twins, and that no two half-edges run the same way where none do here. Where none do, nothing is
    /// found again and no list is copied; otherwise whether some do is found out as in `of`.
    /// `NoMemory` may come for any triangles.
    pub fn renamed(self, alloc: Global, triples: Vec<[u32; 3]>) -> Result<Twins, NoMemory>
        requires twinned { IsTwinned (triples_of triples.items) self.twins }
        requires single { AreSingle (all_edges self.triples) → AreSingle (all_edges (triples_of triples.items)) }
        ensures triples { IfOk result (λ t. t.triples ≡ triples_of triples.items) }
        ensures twins { IfOk result (λ t. t.twins ≡ self.twins) }
    {
        if self.are_single() {
            let Twins { twins, .. } = self;
            return Ok(Twins {
                triples: Rc::new(alloc, triples)?,
                twins,
                single: true,
            });
        }
        match Twins::over(alloc, triples) {
            Ok(twins) => Ok(twins),
            Err(TwinFault::NoMemory) => Err(NoMemory),
            // The triangles are closed.
            Err(TwinFault::Open { .. }) => unreachable!(),
        }
    }
}
