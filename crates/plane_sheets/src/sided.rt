// The numbers at both sides of each edge of a chain.
ghost use Rattle.std.specs.Prelude.{◌≡◌, ℕ, ◌<◌, ◌≤◌, ◌^◌, List, [], IfOk, OnOk, get_or, length, map, set};
ghost use Rattle.std.specs.List.{All};
ghost use Rattle.face_plane.specs.Planes.{Plane};
ghost use Rattle.plane_chains.specs.EdgeBoxes.{pair_of};
ghost use Rattle.plane_sheets.specs.Boxed.{HasEdges};
ghost use Rattle.plane_sheets.specs.Seen.{seen_in};
ghost use Rattle.plane_sheets.specs.Sided.{AreListed, AreSided, IsSided, table_of};
ghost use Rattle.plane_sheets.specs.Sides.{sizes};

use crate::edge_ends::ends_at;
use crate::numbers::find_sides;
use crate::passing::Passing;
use crate::seats::{middle_height, seats_of};
use crate::side_numbers::SideNumbers;
use box_tree::MOST_BOXES;
use mb_base::NoMemory;
use plane_chains::{Chain, FlatPlaces, Lists};
use std::alloc::Global;

/// A list of numbers for each edge. The lists lie one after the other as they were put.
#[derive(Drop)]
pub struct Sided {
    lists: Lists<SideNumbers>,
    // Which of the lists is an edge's.
    seats: Vec<usize>,
}

impl Sided {
    // For each of so many edges an empty list.
    fn none(alloc: Global, count: usize) -> Result<Sided, NoMemory>
        ensures listed { IfOk result AreListed }
        ensures count { IfOk result (λ sided. length (table_of sided) ≡ count) }
    {
        let mut lists = Lists::none(alloc);
        lists.end()?;
        let seats = vec![in alloc; 0usize; count]?;
        Ok(Sided { lists, seats })
    }

    /// The list of an edge.
    pub fn list(&self, edge: usize) -> &[SideNumbers]
        requires listed { AreListed self.now }
        requires edge { edge < length (table_of self.now) }
        ensures { result.now ≡ get_or (table_of self.now) edge [] }
    {
        self.lists.list(self.seats[edge])
    }

    // Makes this list that of an edge.
    fn put(&mut self, edge: usize, sides: &[SideNumbers]) -> Result<(), NoMemory>
        requires listed { AreListed self.old }
        requires edge { edge < length (table_of self.old) }
        ensures listed { OnOk result (AreListed self.new) }
        ensures table { OnOk result (table_of self.new ≡ set (table_of self.old) edge sides.now) }
    {
        let seat = self.lists.len();
        self.lists.push_list(sides)?;
        self.seats[edge] = seat;
        Ok(())
    }
}

/// Finds the numbers at both sides of each edge. Edges with middles of one height are next to one another, so that what may cross the rays from beside them is found once.
pub fn sides_of(alloc: Global, flat: FlatPlaces, chain: &Chain) -> Result<Sided, NoMemory>
    requires places { All (λ e. All (λ v. v < length flat.points.now) e) chain.now.edges.items }
    requires few { length chain.now.edges.items ≤ MOST_BOXES }
    requires nets { length chain.now.nets.0 ≡ length chain.now.edges.items }
    requires small { sizes chain.now.nets.0 ≤ 2 ^ 61 }
    ensures listed { IfOk result AreListed }
    ensures sides { IfOk result (λ sided. AreSided (seen_in flat.entry) (map pair_of chain.now.edges.items) chain.now.nets.0 (table_of sided)) }
{
    let order = seats_of(alloc, flat, &chain.edges)?;
    let mut sided = Sided::none(alloc, chain.edges.len())?;
    let mut passing = Passing::of(alloc, flat, &chain.edges)?;
    let mut sides = Vec::new(alloc);
    for seat in &order {
        let edge = seat.number as usize;
        find_at(&mut sides, &mut passing, flat, chain, edge)?;
        sided.put(edge, &sides)?;
    }
    Ok(sided)
}

// Finds those of an edge.
fn find_at(
    sides: &mut Vec<SideNumbers>,
    passing: &mut Passing,
    flat: FlatPlaces,
    chain: &Chain,
    edge: usize,
) -> Result<(), NoMemory>
    requires places { All (λ e. All (λ v. v < length flat.points.now) e) chain.now.edges.items }
    requires nets { length chain.now.nets.0 ≡ length chain.now.edges.items }
    requires small { sizes chain.now.nets.0 ≤ 2 ^ 61 }
    requires edge { edge < length chain.now.edges.items }
    requires edges { HasEdges (seen_in flat) (map pair_of chain.now.edges.items) passing.old }
    ensures edges { OnOk result (HasEdges (seen_in flat.entry) (map pair_of chain.now.edges.items) passing.new) }
    ensures sides { OnOk result (IsSided (seen_in flat.entry) (map pair_of chain.now.edges.items) chain.now.nets.0 edge sides.new.items) }
{
    let (a, b) = ends_at(flat, &chain.edges, edge);
    passing.find(middle_height(a, b))?;
    find_sides(sides, flat, chain, &passing.near, edge)
}
