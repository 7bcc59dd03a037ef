//! Whether two lists of segments have one boundary: each segment runs as many times more than back in the one as in the
//! other.

ghost use Rattle.std.specs.Prelude.{◌≡◌, ◌↔◌, ◌++◌, IfOk, IsTrue, IsSorted, map};
ghost use Rattle.std.specs.List.Sorted.{IsPermutation};
ghost use Rattle.chain_terms.specs.Odd.{backward};
ghost use Rattle.edge_pairing.specs.Entries.{edge_of};
ghost use Rattle.mesh_boolean.specs.Boundaries.{HaveOneBoundary};

use mb_base::{NoMemory, Segment};
use std::alloc::Global;

/// Whether both lists have one boundary. That is so exactly where the one list, followed by the other turned round, and the
/// other, followed by the one turned round, have each segment equally often; so both are sorted and compared. `NoMemory`
/// may come for any lists; two sorts set the time.
pub fn have_one_boundary(
    alloc: Global,
    ones: &[Segment],
    others: &[Segment],
) -> Result<bool, NoMemory>
    ensures { IfOk result (λ same. IsTrue same ↔ HaveOneBoundary (map edge_of ones.now) (map edge_of others.now)) }
{
    let there = with_turned(alloc, ones, others)?;
    let back = with_turned(alloc, others, ones)?;
    Ok(there == back)
}

// The segments of the one list and those of the other turned round, sorted.
fn with_turned(
    alloc: Global,
    ones: &[Segment],
    others: &[Segment],
) -> Result<Vec<(u32, u32)>, NoMemory>
    ensures moved { IfOk result (λ all.
        IsPermutation (map edge_of ones.now ++ backward (map edge_of others.now)) all.items) }
    ensures sorted { IfOk result (λ all. IsSorted ⟦<(u32, u32) as Ord>⟧.cmp all.items) }
{
    let mut all = listed(alloc, ones, others)?;
    all.sort_unstable();
    Ok(all)
}

// The segments of the one list, then those of the other turned round.
fn listed(alloc: Global, ones: &[Segment], others: &[Segment]) -> Result<Vec<(u32, u32)>, NoMemory>
    ensures { IfOk result (λ all. all.items ≡ map edge_of ones.now ++ backward (map edge_of others.now)) }
{
    let mut all = Vec::new(alloc);
    for segment in ones {
        all.push((segment.from, segment.to))?;
    }
    for segment in others {
        all.push((segment.to, segment.from))?;
    }
    Ok(all)
}
