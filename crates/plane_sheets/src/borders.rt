// The edges of regions.
ghost use Rattle.std.specs.Prelude.{◌≡◌, ◌<◌, ◌≤◌, ◌^◌, ◌++◌, min, IfOk, OnOk, get_or, length};
ghost use Rattle.std.specs.List.{All};
ghost use Rattle.plane_sheets.specs.Seen.{seen_in};
ghost use Rattle.sheet_terms.specs.Numbers.{above_zero};
ghost use Rattle.plane_sheets.specs.Dealt.{dealt_edges, levels, run};
ghost use Rattle.plane_sheets.specs.Found.{AreBorders, AreWithin};
ghost use Rattle.plane_sheets.specs.Sides.{all_held, lefts, rights, size_held, sizes};

use crate::edge_ends::places_of;
use crate::side_numbers::SideNumbers;
use crate::sided::sides_of;
use box_tree::MOST_BOXES;
use mb_base::NoMemory;
use plane_chains::{Chain, FlatPlaces};
use std::alloc::Global;

/// An edge of the region where at least `level` sheets of a label lie, which it has at its left.
#[derive(Clone, Copy, Debug, PartialEq, Eq, Drop)]
pub struct RegionEdge {
    pub label: u32,
    pub level: u32,
    pub ends: [u32; 2],
}

/// The edges of all regions up to a level, edge by edge of the chain.
pub fn borders(
    alloc: Global,
    flat: FlatPlaces,
    chain: &Chain,
    most: u32,
) -> Result<Vec<RegionEdge>, NoMemory>
    requires places { All (λ e. All (λ v. v < length flat.points.now) e) chain.now.edges.items }
    requires few { length chain.now.edges.items ≤ MOST_BOXES }
    requires nets { length chain.now.nets.0 ≡ length chain.now.edges.items }
    requires small { sizes chain.now.nets.0 ≤ 2 ^ 61 }
    ensures borders { IfOk result (λ found. AreBorders most (seen_in flat.entry) chain.now.edges.items
        chain.now.nets.0 found.items) }
    ensures within { IfOk result (λ found. AreWithin most chain.now.nets.0 found.items) }
    ensures places { IfOk result (λ found. All (λ e. All (λ v. v < length flat.entry.points.now) e.ends) found.items) }
{
    let sided = sides_of(alloc, flat, chain)?;
    let mut found = Vec::new(alloc);
    for edge in 0..chain.edges.len() {
        push_edge(
            &mut found,
            sided.list(edge),
            places_of(&chain.edges, edge),
            most,
        )?;
    }
    Ok(found)
}

// Adds an edge as often as it is one of a region. At each of its sides as many sheets are dealt out as the sum of the numbers says, to the labels in order.
fn push_edge(
    found: &mut Vec<RegionEdge>,
    sides: &[SideNumbers],
    ends: [u32; 2],
    most: u32,
) -> Result<(), NoMemory>
    requires left_small { size_held (lefts sides.now) ≤ 2 ^ 62 }
    requires right_small { size_held (rights sides.now) ≤ 2 ^ 62 }
    ensures { OnOk result (found.new.items ≡ found.old.items ++
        dealt_edges most (get_or ends 0 0) (get_or ends 1 0) (above_zero (all_held (lefts sides.now))) (above_zero (all_held (rights sides.now))) sides.now) }
{
    let mut left = above_zero(left_sum(sides));
    let mut right = above_zero(right_sum(sides));
    for each in sides {
        let x = left.min(above_zero(each.left));
        let y = right.min(above_zero(each.right));
        push_levels(found, each.label, capped(x, most), capped(y, most), ends)?;
        left -= x;
        right -= y;
    }
    Ok(())
}

// A number, and 0 where it is below.
fn above_zero(number: i64) -> u64
    ensures { result ≡ above_zero number }
{
    if number > 0 { number.unsigned_abs() } else { 0 }
}

// A number, and the most where it is above.
fn capped(number: u64, most: u32) -> u32
    ensures { result ≡ min number most }
{
    number.min(u64::from(most)) as u32
}

// The sum of the numbers at the left.
fn left_sum(sides: &[SideNumbers]) -> i64
    requires { size_held (lefts sides.now) ≤ 2 ^ 62 }
    ensures { result ≡ all_held (lefts sides.now) }
{
    let mut sum = 0;
    for each in sides {
        sum += each.left;
    }
    sum
}

// The sum of those at the right.
fn right_sum(sides: &[SideNumbers]) -> i64
    requires { size_held (rights sides.now) ≤ 2 ^ 62 }
    ensures { result ≡ all_held (rights sides.now) }
{
    let mut sum = 0;
    for each in sides {
        sum += each.right;
    }
    sum
}

// Adds an edge with so many sheets of a label at its left and at its right: one for each number of sheets that only one side has.
fn push_levels(
    found: &mut Vec<RegionEdge>,
    label: u32,
    left: u32,
    right: u32,
    ends: [u32; 2],
) -> Result<(), NoMemory>
    ensures { OnOk result (found.new.items ≡ found.old.items ++ levels label left right (get_or ends 0 0) (get_or ends 1 0)) }
{
    let [a, b] = ends;
    push_run(found, label, right, left, [a, b])?;
    push_run(found, label, left, right, [b, a])
}

// Adds an edge for each level above one, up to another.
fn push_run(
    found: &mut Vec<RegionEdge>,
    label: u32,
    low: u32,
    high: u32,
    ends: [u32; 2],
) -> Result<(), NoMemory>
    ensures { OnOk result (found.new.items ≡ found.old.items ++ run label low high ends) }
{
    for level in low..high {
        found.push(RegionEdge {
            label,
            level: level + 1,
            ends,
        })?;
    }
    Ok(())
}
