// The least edge that one sorted list has more often than another.
ghost use Rattle.std.specs.Prelude.{◌≡◌, IfSome, IsNone, IsSorted};
ghost use Rattle.halfedge.specs.Pairing.{ends_of};
ghost use Rattle.halfedge.specs.Surplus.{IsLeastSurplus, HasNoSurplus};

use crate::ways::Half;
use std::cmp::Ordering;

/// The least edge, by its start and then by its end, that the first list has more often than the
/// second. Both are read from the front; what is less than all that is left of the first is passed
/// over in the second.
pub fn least_surplus(edges: &[Half], others: &[Half]) -> Option<(u32, u32)>
    requires edges_sorted { IsSorted ⟦<(u32, u32, u32) as Ord>⟧.cmp edges.now }
    requires others_sorted { IsSorted ⟦<(u32, u32, u32) as Ord>⟧.cmp others.now }
    ensures none { IsNone result → HasNoSurplus (ends_of edges.now) (ends_of others.now) }
    ensures least { IfSome result (IsLeastSurplus (ends_of edges.now) (ends_of others.now)) }
{
    let mut left = edges;
    let mut right = others;
    while let Some((edge, later)) = left.split_first() {
        let Some((other, rest)) = right.split_first() else {
            return Some((edge.0, edge.1));
        };
        match (other.0, other.1).cmp(&(edge.0, edge.1)) {
            Ordering::Less => right = rest,
            Ordering::Equal => {
                left = later;
                right = rest;
            }
            Ordering::Greater => return Some((edge.0, edge.1)),
        }
    }
    None
}
