// Edges by the places that they leave.
ghost use Rattle.std.specs.Prelude.{◌≡◌, ℕ, ◌==◌, ◌<◌, ◌≤◌, IfOk, filter, length, map};
ghost use Rattle.std.specs.List.{All};
ghost use Rattle.std.specs.List.Sorted.{IsNonDecreasingBy};
ghost use Rattle.plane_chains.specs.EdgeBoxes.{pair_of};
ghost use Rattle.plane_sheets.specs.Leaving.{AreSorted, leaving_from};

use mb_base::NoMemory;
use std::alloc::Global;

/// An edge that leaves a place, with its number.
#[derive(Clone, Copy, Debug, PartialEq, Eq, Drop)]
pub struct Leaving {
    pub from: u32,
    pub to: u32,
    pub number: u32,
}

/// All edges, those that leave one place together and in order.
pub fn sorted_edges(alloc: Global, edges: &[[u32; 2]]) -> Result<Vec<Leaving>, NoMemory>
    requires { length edges.now ≤ u32.MAX }
    ensures sorted { IfOk result (λ order. AreSorted (map pair_of edges.now) order.items) }
    ensures ends { IfOk result (λ order. (n : ℕ) → All (λ e. All (λ v. v < n) e) edges.now → All (λ l. l.to < n) order.items) }
{
    let mut order = numbered(alloc, edges)?;
    order.sort_by_key(|each: &Leaving| each.from)?;
    Ok(order)
}

// All edges with their numbers.
fn numbered(alloc: Global, edges: &[[u32; 2]]) -> Result<Vec<Leaving>, NoMemory>
    requires { length edges.now ≤ u32.MAX }
    ensures value { IfOk result (λ all. all.items ≡ leaving_from 0 (map pair_of edges.now)) }
    ensures ends { IfOk result (λ all. (n : ℕ) → All (λ e. All (λ v. v < n) e) edges.now → All (λ l. l.to < n) all.items) }
{
    let mut all = Vec::with_capacity(alloc, edges.len())?;
    for (number, [from, to]) in edges.iter().enumerate() {
        all.push(Leaving {
            from: *from,
            to: *to,
            number: number as u32,
        })?;
    }
    Ok(all)
}

/// Those of sorted edges that leave a place.
pub fn edges_from(order: &[Leaving], place: u32) -> &[Leaving]
    requires { IsNonDecreasingBy (λ l. l.from) order.now }
    ensures { result.now ≡ filter (λ l. l.from == place) order.now }
{
    let start = order.partition_point(|each| each.from < place);
    let end = order.partition_point(|each| each.from <= place);
    &order[start..end]
}
