// Half-edges labelled fan by fan, where the twins are given.
ghost use Rattle.std.specs.Prelude.{◌≡◌, ◌<◌, ◌≤◌, ◌*◌, IfOk, length};
ghost use Rattle.chain_terms.specs.Chains.{all_edges};
ghost use Rattle.mesh_terms.specs.Limits.{most_triangles};
ghost use Rattle.mesh_terms.specs.Meshes.{Triple};
ghost use Rattle.sheet_terms.specs.Vertices.{leaders};
ghost use Rattle.fan_laws.specs.Pairs.{AreTwins};
ghost use Rattle.angle_pairing.specs.Labels.{IsLabelled};

use halfedge::halves::next;
use mb_base::NoMemory;
use std::alloc::Global;

/// The label that stands for none.
const NO_FAN: u32 = u32::MAX;

/// The least half-edge of the fan of each, where a half-edge is followed by the one after its twin, in time linear in the half-edges.
pub fn leaders(alloc: Global, twins: &[u32]) -> Result<Vec<u32>, NoMemory>
    requires few { length twins.now ≤ 3 * most_triangles }
    requires twins { AreTwins twins.now }
    ensures { IfOk result (λ labels. labels.items ≡ leaders twins.now) }
{
    let mut labels = vec![in alloc; NO_FAN; twins.len()]?;
    for half in 0..twins.len() as u32 {
        if labels[half as usize] == NO_FAN {
            label_fan(&mut labels, twins, half);
        }
    }
    Ok(labels)
}

/// Labels the fan of a half-edge by it.
pub fn label_fan(labels: &mut [u32], twins: &[u32], half: u32)
    requires few { length twins.now ≤ 3 * most_triangles }
    requires twins { AreTwins twins.now }
    requires full { length labels.old ≡ length twins.now }
    requires half { half < length twins.now }
    ensures { IsLabelled twins.now half labels.old labels.new }
{
    let mut at = half;
    for turn in 0..twins.len() {
        labels[at as usize] = half;
        at = next(twins[at as usize]);
        if at == half {
            return;
        }
    }
}
