// The edges that follow others.
ghost use Rattle.std.specs.Prelude.{◌≡◌, ◌<◌, ◌≤◌, IfOk, get_or, length, map};
ghost use Rattle.std.specs.List.{All};
ghost use Rattle.chain_terms.specs.Sums.{upto};
ghost use Rattle.plane_sheets.specs.Seen.{seen_in};
ghost use Rattle.plane_chains.specs.EdgeBoxes.{pair_of};
ghost use Rattle.sheet_terms.specs.Walks.{first_met, follower};
ghost use Rattle.plane_sheets.specs.Leaving.{AreSorted, first_number};

use crate::leaving::{Leaving, edges_from, sorted_edges};
use crate::right_turn::is_met_before;
use mb_base::NoMemory;
use plane_chains::FlatPlaces;
use std::alloc::Global;

/// For each edge of a region the number of the one that follows it: of those that leave its end the first that is met on turning to the right. The time is that of
/// a sort, and for each place the product of the numbers of edges that end and that begin there.
pub fn followers(alloc: Global, flat: FlatPlaces, edges: &[[u32; 2]]) -> Result<Vec<u32>, NoMemory>
    requires places { All (λ e. All (λ v. v < length flat.points.now) e) edges.now }
    requires few { length edges.now ≤ u32.MAX }
    ensures { IfOk result (λ next. next.items ≡
        map (follower (seen_in flat.entry) (map pair_of edges.now)) (upto (length edges.now))) }
{
    let order = sorted_edges(alloc, edges)?;
    let mut next = Vec::with_capacity(alloc, edges.len())?;
    for i in 0..edges.len() {
        next.push(follower(flat, edges, &order, i))?;
    }
    Ok(next)
}

// The number of the edge that follows one.
fn follower(flat: FlatPlaces, edges: &[[u32; 2]], order: &[Leaving], i: usize) -> u32
    requires places { All (λ e. All (λ v. v < length flat.points.now) e) edges.now }
    requires few { length edges.now ≤ u32.MAX }
    requires order { AreSorted (map pair_of edges.now) order.now }
    requires ends { All (λ l. l.to < length flat.points.now) order.now }
    requires inside { i < length edges.now }
    ensures { result ≡ follower (seen_in flat.entry) (map pair_of edges.now) i }
{
    let [from, to] = edges[i];
    let leaving = edges_from(order, to);
    let place = first_met(flat, to, from, first_end(leaving), leaving);
    number_to(leaving, place, edges.len() as u32)
}

// Where the first edge ends.
fn first_end(leaving: &[Leaving]) -> u32
    ensures { result ≡ get_or (map (λ l. l.to) leaving.now) 0 0 }
{
    match leaving.first() {
        Some(first) => first.to,
        None => 0,
    }
}

// The first end of edges that leave s that is met from p on to the right, or n.
fn first_met(flat: FlatPlaces, s: u32, p: u32, n: u32, leaving: &[Leaving]) -> u32
    requires s { s < length flat.points.now }
    requires p { p < length flat.points.now }
    requires n { 0 < length leaving.now → n < length flat.points.now }
    requires ends { All (λ l. l.to < length flat.points.now) leaving.now }
    ensures { result ≡ first_met (seen_in flat.entry) s p n (map (λ l. l.to) leaving.now) }
{
    let mut first = n;
    for each in leaving {
        if is_met_before(flat.at(s), flat.at(p), flat.at(each.to), flat.at(first)) {
            first = each.to;
        }
    }
    first
}

// The number of the first edge to a place, or n.
fn number_to(leaving: &[Leaving], place: u32, n: u32) -> u32
    ensures { result ≡ first_number n place leaving.now }
{
    for each in leaving {
        if each.to == place {
            return each.number;
        }
    }
    n
}
