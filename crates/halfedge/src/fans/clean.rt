// Whether each vertex has one fan.
ghost use Rattle.std.specs.Prelude.{◌≡◌, ◌<◌, ◌≤◌, ◌↔◌, IfOk, IsTrue, length};
ghost use Rattle.std.specs.List.{All};
ghost use Rattle.chain_terms.specs.Chains.{all_edges};
ghost use Rattle.mesh_terms.specs.Limits.{most_points};
ghost use Rattle.mesh_terms.specs.Meshes.{IsBelow};
ghost use Rattle.halfedge.specs.Clean.{IsClean};

use crate::fans::NO_FAN;
use crate::halves::start;
use crate::twins::Twins;
use mb_base::NoMemory;
use std::alloc::Global;

impl Twins {
    /// Whether the half-edges that start at each vertex form one fan. The vertices are below `points`.
    /// `NoMemory` may come for any triangles. It goes round each fan once, and sorts nothing: the time is
    /// linear in the triangles and points.
    pub fn are_clean(&self, alloc: Global, points: usize) -> Result<bool, NoMemory>
        requires below { All (IsBelow points) self.now.triples }
        requires few { points ≤ most_points }
        ensures { IfOk result (λ clean. IsTrue clean ↔ IsClean (all_edges self.now.triples)) }
    {
        let triples = self.triples();
        let mut of = vec![in alloc; NO_FAN; 3 * triples.len()]?;
        let mut seen = vec![in alloc; false; points]?;
        for half in 0..3 * triples.len() as u32 {
            if of[half as usize] == NO_FAN {
                let vertex = start(triples, half);
                if seen[vertex as usize] {
                    return Ok(false);
                }
                seen[vertex as usize] = true;
                self.number_fan(&mut of, half, vertex);
            }
        }
        Ok(true)
    }
}
