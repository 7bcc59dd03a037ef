// The loops of a region.
ghost use Rattle.std.specs.Prelude.{◌≡◌, ◌≤◌, ◌<◌, ◌-◌, ℕ, List, IfOk, OnOk, length, take, drop};
ghost use Rattle.std.specs.List.{All};
ghost use Rattle.std.specs.Ordering.{is_lt};
ghost use Rattle.sheet_terms.specs.Filled.{comes_before};
ghost use Rattle.sheet_terms.specs.Places.{ordered};
ghost use Rattle.plane_filling.specs.Begun.{begun_without, loops_without, seen_in};
ghost use Rattle.plane_filling.specs.Ways.{Notes, is_passed};

use crate::flat::FlatPoints;
use crate::needless::Ways;
use crate::starts::started;
use face_loops::Loop;
use mb_base::NoMemory;
use plane_chains::Rims;
use std::alloc::Global;
use std::cmp::Ordering;

/// Some of the walks without needless places, each from its start, in ascending order.
pub fn loops_of(
    alloc: Global,
    flat: &FlatPoints,
    ways: &Ways,
    walks: &Rims,
    start: usize,
    end: usize,
) -> Result<Vec<Loop>, NoMemory>
    requires up { start ≤ end }
    requires within { end ≤ length walks.now.0 }
    requires places { All (λ walk. All (λ v. v < length flat.now.points.now) walk) walks.now.0 }
    requires full { length ways.now.leads.items ≡ length flat.now.points.now }
    requires noted { (es : List (ℕ × ℕ)) × Notes es ways.now }
    ensures { IfOk result (λ loops. loops.items ≡
        loops_without (is_passed flat.now.points.now ways.now) (seen_in flat.now) (take (end - start) (drop start walks.now.0))) }
{
    let mut loops = started_all(alloc, flat, ways, walks, start, end)?;
    sort_loops(&mut loops)?;
    Ok(loops)
}

// Those walks, each from its start.
fn started_all(
    alloc: Global,
    flat: &FlatPoints,
    ways: &Ways,
    walks: &Rims,
    start: usize,
    end: usize,
) -> Result<Vec<Loop>, NoMemory>
    requires up { start ≤ end }
    requires within { end ≤ length walks.now.0 }
    requires places { All (λ walk. All (λ v. v < length flat.now.points.now) walk) walks.now.0 }
    requires full { length ways.now.leads.items ≡ length flat.now.points.now }
    requires noted { (es : List (ℕ × ℕ)) × Notes es ways.now }
    ensures { IfOk result (λ loops. loops.items ≡
        begun_without (is_passed flat.now.points.now ways.now) (seen_in flat.now) (take (end - start) (drop start walks.now.0))) }
{
    let mut loops = Vec::with_capacity(alloc, end - start)?;
    for walk in start..end {
        let left = ways.left_of(alloc, flat.points, walks.rim(walk))?;
        loops.push(Loop::of(started(alloc, flat, &left)?))?;
    }
    Ok(loops)
}

// Puts loops in ascending order.
fn sort_loops(loops: &mut Vec<Loop>) -> Result<(), NoMemory>
    ensures { OnOk result (loops.new.items ≡ ordered comes_before loops.old.items) }
{
    loops.sort_by(
        |a: &Loop, b: &Loop|
            ensures { is_lt result ≡ comes_before a.now b.now }
        { in_order(a.vertices(), b.vertices()) },
    )?;
    Ok(())
}

// How two loops stand in that order.
fn in_order(a: &[u32], b: &[u32]) -> Ordering
    ensures { is_lt result ≡ comes_before a.now b.now }
{
    a.cmp(b)
}
