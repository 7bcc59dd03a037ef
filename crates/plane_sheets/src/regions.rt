// The regions of a side.
ghost use Rattle.std.specs.Prelude.{◌≡◌, ℕ, ◌<◌, ◌≤◌, ◌^◌, ◌++◌, List, IfOk, OnOk, filter, length, map};
ghost use Rattle.std.specs.List.{All};
ghost use Rattle.std.specs.List.Sorted.{IsNonDecreasingBy};
ghost use Rattle.plane_sheets.specs.Seen.{seen_in};
ghost use Rattle.plane_chains.specs.EdgeBoxes.{pair_of};
ghost use Rattle.plane_chains.specs.Nets.{IsStored};
ghost use Rattle.sheet_terms.specs.Chains.{ChainEdge};
ghost use Rattle.sheet_terms.specs.Numbers.{border};
ghost use Rattle.sheet_terms.specs.Regions.{regions_within};
ghost use Rattle.sheet_terms.specs.Walks.{walks};
ghost use Rattle.plane_sheets.specs.Found.{AreBorders, AreCounted, AreGrouped, AreWithin, IsWithin, front_count, has_walks, label_regions, region_in, shown, side_regions};
ghost use Rattle.plane_sheets.specs.Sides.{sizes};

use crate::borders::{RegionEdge, borders};
use crate::walks::walks_of;
use box_tree::MOST_BOXES;
use face_loops::Loop;
use mb_base::NoMemory;
use plane_chains::{Chain, FlatPlaces};
use std::alloc::Global;

/// A region of a label, by the walks round its parts, which have it at their left.
#[derive(Drop)]
pub struct SheetRegion {
    pub label: u32,
    pub walks: Vec<Loop>,
}

/// The regions of a side of a plane, from which the places are seen: label by label, and of each label where at least 1, 2, .. sheets lie, up to so many. The net
/// numbers are counted for each edge by itself, along the ray from beside its middle into the way of u. The time is that of a sort of the edges, of a search in a tree for
/// each height at which edges have their middles, and of the pairs of an edge and another that the ray from beside it may meet; and for each place the product of the numbers of edges of a region that end
/// and that begin there. `NoMemory` may come for any chain.
pub fn regions_of(
    alloc: Global,
    flat: FlatPlaces,
    chain: &Chain,
    most: u32,
) -> Result<Vec<SheetRegion>, NoMemory>
    requires places { All (λ e. All (λ v. v < length flat.points.now) e) chain.now.edges.items }
    requires few { length chain.now.edges.items ≤ MOST_BOXES }
    requires nets { length chain.now.nets.0 ≡ length chain.now.edges.items }
    requires small { sizes chain.now.nets.0 ≤ 2 ^ 61 }
    ensures regions { IfOk result (λ regions. (labels : List (List ℕ)) (cs : List ChainEdge) → IsStored cs chain.now.edges.items chain.now.nets.0 → AreCounted labels cs →
        map (region_in labels) regions.items ≡ filter has_walks (regions_within most (seen_in flat.entry) labels
        (map (border (seen_in flat.entry) labels cs) cs))) }
    ensures labels { IfOk result (λ regions. (labels : List (List ℕ)) (cs : List ChainEdge) → IsStored cs chain.now.edges.items chain.now.nets.0 → AreCounted labels cs →
        All (λ r. r.label < length labels) regions.items) }
{
    let edges = sorted_borders(alloc, flat, chain, most)?;
    grouped(alloc, flat, &edges)
}

// The edges of all regions, by label, then by level.
fn sorted_borders(
    alloc: Global,
    flat: FlatPlaces,
    chain: &Chain,
    most: u32,
) -> Result<Vec<RegionEdge>, NoMemory>
    requires places { All (λ e. All (λ v. v < length flat.points.now) e) chain.now.edges.items }
    requires few { length chain.now.edges.items ≤ MOST_BOXES }
    requires nets { length chain.now.nets.0 ≡ length chain.now.edges.items }
    requires small { sizes chain.now.nets.0 ≤ 2 ^ 61 }
    ensures borders { IfOk result (λ found. AreBorders most (seen_in flat.entry) chain.now.edges.items
        chain.now.nets.0 found.items) }
    ensures within { IfOk result (λ found. AreWithin most chain.now.nets.0 found.items) }
    ensures places { IfOk result (λ found. All (λ e. All (λ v. v < length flat.entry.points.now) e.ends) found.items) }
    ensures grouped { IfOk result (λ found. AreGrouped found.items) }
{
    let mut edges = borders(alloc, flat, chain, most)?;
    edges.sort_by_key(|each: &RegionEdge| each.level)?;
    edges.sort_by_key(|each: &RegionEdge| each.label)?;
    Ok(edges)
}

// The regions of grouped edges.
fn grouped(
    alloc: Global,
    flat: FlatPlaces,
    edges: &[RegionEdge],
) -> Result<Vec<SheetRegion>, NoMemory>
    requires places { All (λ e. All (λ v. v < length flat.points.now) e.ends) edges.now }
    requires grouped { AreGrouped edges.now }
    ensures { IfOk result (λ regions. (n most : ℕ) → All (IsWithin n most) edges.now →
        map shown regions.items ≡ side_regions (seen_in flat.entry) most n edges.now) }
{
    let mut regions = Vec::new(alloc);
    let mut rest = edges;
    while let Some(first) = rest.first() {
        let (own, later) = rest.split_at(of_label(rest, first.label));
        push_label(alloc, &mut regions, flat, first.label, own)?;
        rest = later;
    }
    Ok(regions)
}

// Adds the regions of a label.
fn push_label(
    alloc: Global,
    regions: &mut Vec<SheetRegion>,
    flat: FlatPlaces,
    label: u32,
    edges: &[RegionEdge],
) -> Result<(), NoMemory>
    requires places { All (λ e. All (λ v. v < length flat.points.now) e.ends) edges.now }
    requires rise { IsNonDecreasingBy (λ e. e.level) edges.now }
    ensures { OnOk result ((n most : ℕ) → All (IsWithin n most) edges.now →
        map shown regions.new.items ≡ map shown regions.old.items ++ label_regions (seen_in flat.entry) most label edges.now) }
{
    let mut rest = edges;
    while let Some(first) = rest.first() {
        let (own, later) = rest.split_at(of_level(rest, first.level));
        let walks = region_walks(alloc, flat, own)?;
        regions.push(SheetRegion { label, walks })?;
        rest = later;
    }
    Ok(())
}

// The walks of a region.
fn region_walks(
    alloc: Global,
    flat: FlatPlaces,
    edges: &[RegionEdge],
) -> Result<Vec<Loop>, NoMemory>
    requires { All (λ e. All (λ v. v < length flat.points.now) e.ends) edges.now }
    ensures { IfOk result (λ all. all.items ≡
        walks (seen_in flat.entry) (map (λ e. pair_of e.ends) edges.now)) }
{
    let mut ends = Vec::with_capacity(alloc, edges.len())?;
    for edge in edges {
        ends.push(edge.ends)?;
    }
    walks_of(alloc, flat, &ends)
}

// How many at the front are of a label.
fn of_label(edges: &[RegionEdge], label: u32) -> usize
    ensures value { result ≡ front_count (λ e. e.label) label edges.now }
    ensures within { result ≤ length edges.now }
{
    for (i, edge) in edges.iter().enumerate() {
        if edge.label != label {
            return i;
        }
    }
    edges.len()
}

// How many at the front are of a level.
fn of_level(edges: &[RegionEdge], level: u32) -> usize
    ensures value { result ≡ front_count (λ e. e.level) level edges.now }
    ensures within { result ≤ length edges.now }
{
    for (i, edge) in edges.iter().enumerate() {
        if edge.level != level {
            return i;
        }
    }
    edges.len()
}
