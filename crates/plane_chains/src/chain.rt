// Chains of edges.
ghost use Rattle.std.specs.Prelude.{◌≡◌, ◌<◌, ◌≤◌, ◌^◌, ◌++◌, ◌∷◌, [], ℕ, IfOk, OnOk, get_or, length, map, unsigned_abs};
ghost use Rattle.std.specs.List.{All};
ghost use Rattle.plane_chains.specs.Nets.{IsStored, nonzero};
ghost use Rattle.plane_chains.specs.Placed.{ArePlaced};
ghost use Rattle.plane_chains.specs.Ways.{net_among, step, way_chain, way_up, ways_of, ways_round};
ghost use Rattle.plane_chains.specs.Stored.{HasPushed};
ghost use Rattle.sheet_terms.specs.Chains.{same_edge};

use crate::lists::{Lists, Rims};
use crate::nets::{LabelNumber, add_number};
use indexmap::IndexSet;
use mb_base::NoMemory;
use places_by_key::Buckets;
use std::alloc::Global;

/// So many ways along edges rims have at most.
const MOST_WAYS: usize = 2_147_483_648;

/// A way of a rim along an edge, with the number of a label.
#[derive(Clone, Copy, Drop)]
struct Way {
    from: u32,
    to: u32,
    label: u32,
}

/// The edges of a chain, each from its lesser place to its greater one, in the order in which rims first run along them; and for each the labels in order for
/// which rims run along it more often than back, or less often, with the difference.
#[derive(Drop)]
pub struct Chain {
    pub edges: Vec<[u32; 2]>,
    pub nets: Lists<LabelNumber>,
}

impl Chain {
    /// The chain of those rims that have a mark, each with the number of its label. `NoMemory` may come for any rims, and comes for more than 2^31 places on them.
    pub(crate) fn of(
        alloc: Global,
        rims: &Rims,
        labels: &[u32],
        marks: &[bool],
    ) -> Result<Chain, NoMemory>
        requires labels { length labels.now ≡ length rims.now.0 }
        requires marks { length marks.now ≡ length rims.now.0 }
        ensures stored { (n : ℕ) → All (λ l. l < n) labels.now → IfOk result (λ c. IsStored (way_chain n (ways_of rims.now.0 labels.now marks.now)) c.edges.items c.nets.0) }
        ensures few { IfOk result (λ _. length (ways_of rims.now.0 labels.now marks.now) ≤ 2 ^ 31) }
    {
        let ways = ways_along(alloc, rims, labels, marks)?;
        let (edges, edge_of) = numbered(alloc, &ways)?;
        chain_of(alloc, &ways, edges.as_slice(), &edge_of)
    }

    /// The numbers of an edge.
    pub fn numbers(&self, edge: usize) -> &[LabelNumber]
        requires { edge < length self.now.nets.0 }
        ensures { result.now ≡ get_or self.now.nets.0 edge [] }
    {
        self.nets.list(edge)
    }

    // Adds an edge with its numbers, if there are some.
    fn push(&mut self, edge: (u32, u32), net: &[LabelNumber]) -> Result<(), NoMemory>
        ensures { OnOk result (HasPushed self.old self.new edge net.now) }
    {
        if net.is_empty() {
            return Ok(());
        }
        let (low, high) = edge;
        self.edges.push([low, high])?;
        self.nets.push_list(net)
    }
}

// The ways of the rims that have a mark.
fn ways_along(
    alloc: Global,
    rims: &Rims,
    labels: &[u32],
    marks: &[bool],
) -> Result<Vec<Way>, NoMemory>
    requires labels { length labels.now ≡ length rims.now.0 }
    requires marks { length marks.now ≡ length rims.now.0 }
    ensures ways { IfOk result (λ ways. ways.items ≡ ways_of rims.now.0 labels.now marks.now) }
    ensures few { IfOk result (λ ways. length ways.items ≤ 2 ^ 31) }
{
    let mut ways = Vec::new(alloc);
    for i in 0..rims.len() {
        if marks[i] {
            push_round(&mut ways, rims.list(i), labels[i])?;
        }
    }
    Ok(ways)
}

// Adds the ways round a rim.
fn push_round(ways: &mut Vec<Way>, rim: &[u32], label: u32) -> Result<(), NoMemory>
    requires { length ways.old.items ≤ 2 ^ 31 }
    ensures ways { OnOk result (ways.new.items ≡ ways.old.items ++ ways_round rim.now label) }
    ensures few { OnOk result (length ways.new.items ≤ 2 ^ 31) }
{
    if rim.is_empty() {
        return Ok(());
    }
    let mut from = rim[0];
    for to in &rim[1..] {
        push_way(
            ways,
            Way {
                from,
                to: *to,
                label,
            },
        )?;
        from = *to;
    }
    push_way(
        ways,
        Way {
            from,
            to: rim[0],
            label,
        },
    )
}

// Adds a way.
fn push_way(ways: &mut Vec<Way>, way: Way) -> Result<(), NoMemory>
    requires { length ways.old.items ≤ 2 ^ 31 }
    ensures ways { OnOk result (ways.new.items ≡ ways.old.items ++ way ∷ []) }
    ensures few { OnOk result (length ways.new.items ≤ 2 ^ 31) }
{
    if ways.len() == MOST_WAYS {
        return Err(NoMemory);
    }
    ways.push(way)?;
    Ok(())
}

// The edges along which ways lead, each from its lesser place and once, in the order of the first ways; and for each way the number of its edge.
fn numbered(alloc: Global, ways: &[Way]) -> Result<(IndexSet<(u32, u32)>, Vec<u32>), NoMemory>
    requires { length ways.now ≤ 2 ^ 31 }
    ensures { IfOk result (λ r. ArePlaced same_edge (map way_up ways.now) r.0.keys r.1.items) }
{
    let mut edges = IndexSet::new(alloc);
    let mut edge_of = Vec::with_capacity(alloc, ways.len())?;
    for way in ways {
        let (edge, _) = edges.insert_full(up(way))?;
        edge_of.push(edge as u32)?;
    }
    Ok((edges, edge_of))
}

// The edge along which a way leads, from its lesser place.
fn up(way: &Way) -> (u32, u32)
    ensures { result ≡ way_up way.now }
{
    (way.from.min(way.to), way.from.max(way.to))
}

// The chain of ways, from their edges and the number of each one's edge.
fn chain_of(
    alloc: Global,
    ways: &[Way],
    edges: &[(u32, u32)],
    edge_of: &[u32],
) -> Result<Chain, NoMemory>
    requires placed { ArePlaced same_edge (map way_up ways.now) edges.now edge_of.now }
    requires few { length ways.now ≤ 2 ^ 31 }
    ensures { (n : ℕ) → All (λ w. w.label < n) ways.now → IfOk result (λ c. IsStored (way_chain n ways.now) c.edges.items c.nets.0) }
{
    let gathered = Buckets::by_key(alloc, edge_of, edges.len())?;
    let mut chain = Chain {
        edges: Vec::new(alloc),
        nets: Lists::none(alloc),
    };
    let mut net = Vec::new(alloc);
    for (number, edge) in edges.iter().enumerate() {
        add_up(&mut net, ways, gathered.bucket(number))?;
        chain.push(*edge, &net)?;
    }
    Ok(chain)
}

// Makes the list of the numbers of some ways along one edge.
fn add_up(net: &mut Vec<LabelNumber>, ways: &[Way], some: &[u32]) -> Result<(), NoMemory>
    requires below { All (λ i. i < length ways.now) some.now }
    requires few { length some.now ≤ 2 ^ 31 }
    ensures { (n : ℕ) → All (λ w. w.label < n) ways.now → OnOk result (net.new.items ≡ nonzero (net_among n ways.now some.now)) }
{
    net.clear();
    for i in some {
        let way = ways[*i as usize];
        add_number(net, way.label, step(&way))?;
    }
    Ok(())
}

// 1 up, -1 down, 0 on the spot.
fn step(way: &Way) -> i64
    ensures value { result ≡ step way.now }
    ensures small { unsigned_abs result ≤ 1 }
{
    if way.from < way.to {
        1
    } else if way.to < way.from {
        -1
    } else {
        0
    }
}
