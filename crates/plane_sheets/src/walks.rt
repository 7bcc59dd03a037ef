// The walks round the parts of a region.
ghost use Rattle.std.specs.Prelude.{◌≡◌, ◌<◌, ◌≤◌, IfOk, length, map};
ghost use Rattle.std.specs.List.{All};
ghost use Rattle.chain_terms.specs.Ranks.{start};
ghost use Rattle.plane_sheets.specs.Seen.{seen_in};
ghost use Rattle.plane_chains.specs.EdgeBoxes.{pair_of};
ghost use Rattle.sheet_terms.specs.Walks.{walks};

use crate::followers::followers;
use crate::rounds::rounds;
use face_loops::Loop;
use mb_base::NoMemory;
use plane_chains::FlatPlaces;
use std::alloc::Global;

/// The closed walks round the parts of a region, given by its edges, which have it at their left. `NoMemory` may come for any edges, and comes for more than 2^32.
pub fn walks_of(alloc: Global, flat: FlatPlaces, edges: &[[u32; 2]]) -> Result<Vec<Loop>, NoMemory>
    requires { All (λ e. All (λ v. v < length flat.points.now) e) edges.now }
    ensures { IfOk result (λ all. all.items ≡ walks (seen_in flat.entry) (map pair_of edges.now)) }
{
    if edges.len() > u32::MAX as usize {
        return Err(NoMemory);
    }
    let next = followers(alloc, flat, edges)?;
    let rounds = rounds(alloc, &next)?;
    let mut walks = Vec::with_capacity(alloc, rounds.len())?;
    for round in &rounds {
        walks.push(Loop::of(starts_of(alloc, edges, round.vertices())?))?;
    }
    Ok(walks)
}

// Where edges start.
fn starts_of(alloc: Global, edges: &[[u32; 2]], numbers: &[u32]) -> Result<Vec<u32>, NoMemory>
    requires { All (λ i. i < length edges.now) numbers.now }
    ensures { IfOk result (λ starts. starts.items ≡ map (start (map pair_of edges.now)) numbers.now) }
{
    let mut starts = Vec::with_capacity(alloc, numbers.len())?;
    for number in numbers {
        starts.push(edges[*number as usize][0])?;
    }
    Ok(starts)
}
