// The places strictly inside an edge.
ghost use Rattle.std.specs.Prelude.{◌≡◌, ◌≢◌, ◌<◌, ◌≤◌, ◌+◌, ◌++◌, IfOk, OnOk, false, filter, length, map, true};
ghost use Rattle.std.specs.List.{All};
ghost use Rattle.box_tree.specs.Touching.{touching_numbers};
ghost use Rattle.edge_cutting.specs.Boxes.{point_box};
ghost use Rattle.edge_cutting.specs.Inside.{AreApart, is_on_line, with_spans};
ghost use Rattle.edge_cutting.specs.Passed.{HasPassed, IsStepped};
ghost use Rattle.edge_cutting.specs.Spans.{IsShort, box_between};
ghost use Rattle.sheet_terms.specs.Cuts.{cuts};

use crate::steps::{Steps, span};
use box_tree::{Tree, find_few, find_near};
use mb_base::{NoMemory, Point, cross};
use std::alloc::Global;

/// So many places near a piece of an edge are asked one by one. A piece that has more near it is halved.
const FEW: usize = 24;

/// Lists the places strictly inside the edge from a to b, in order, each behind how far it lies from a. A long edge with many places near it is asked for piece after
/// piece, so that only those in thin boxes along it are looked at. `near` is used again for each edge.
pub fn find(
    alloc: Global,
    near: &mut Vec<u32>,
    tree: &Tree,
    points: &[Point],
    a: u32,
    b: u32,
) -> Result<Vec<(u64, u32)>, NoMemory>
    requires tree { tree.now ≡ map point_box points.now }
    requires apart { AreApart points.now }
    requires a { a < length points.now }
    requires b { b < length points.now }
    requires edge { a ≢ b }
    ensures { IfOk result (λ found. map (λ f. f.1) found.items ≡ cuts points.now a b) }
{
    let mut found = Vec::new(alloc);
    let edge = Edge::of(points, a, b);
    let last = edge.steps.count - 1;
    let mut from = 1;
    let mut length = last;
    while from <= last {
        let to = last.min(from + length);
        if edge.take_between(&mut found, near, tree, from, to)? {
            length = 2 * (to - from) + 1;
            from = to + 1;
        } else {
            length = (to - from) / 2;
        }
    }
    found.sort_unstable();
    Ok(found)
}

/// An edge between two of some places, and the points of the grid on it.
#[derive(Clone, Copy, Drop)]
struct Edge<'a> {
    points: &'a [Point],
    a: u32,
    b: u32,
    steps: Steps,
}

impl<'a> Edge<'a> {
    // The edge from a to b.
    fn of(points: &'a [Point], a: u32, b: u32) -> Edge<'a>
        requires apart { AreApart points.now }
        requires a { a < length points.now }
        requires b { b < length points.now }
        requires edge { a ≢ b }
        ensures points { result.points.now ≡ points.now }
        ensures a { result.a ≡ a }
        ensures b { result.b ≡ b }
        ensures stepped { IsStepped points.now a b result.steps }
        ensures short { IsShort result.steps }
    {
        let steps = Steps::between(points[a as usize], points[b as usize]);
        Edge {
            points,
            a,
            b,
            steps,
        }
    }

    // Takes the places inside a piece of the edge, unless many lie near it and it can be halved, and tells whether that was done.
    fn take_between(
        &self,
        found: &mut Vec<(u64, u32)>,
        near: &mut Vec<u32>,
        tree: &Tree,
        from: u64,
        to: u64,
    ) -> Result<bool, NoMemory>
        requires tree { tree.now ≡ map point_box self.now.points.now }
        requires apart { AreApart self.now.points.now }
        requires stepped { IsStepped self.now.points.now self.now.a self.now.b self.now.steps }
        requires short { IsShort self.now.steps }
        requires from { 0 < from }
        requires order { from ≤ to }
        requires to { to < self.now.steps.count }
        ensures done { IfOk result (λ done. done ≡ true → HasPassed self.now.points.now self.now.a self.now.b self.now.steps from found.old.items →
            HasPassed self.now.points.now self.now.a self.now.b self.now.steps (to + 1) found.new.items) }
        ensures same { IfOk result (λ done. done ≡ false → found.new.items ≡ found.old.items) }
        ensures one { from ≡ to → IfOk result (λ done. done ≡ true) }
    {
        if !look_between(near, tree, &self.steps, from, to)? {
            return Ok(false);
        }
        self.take(found, near)?;
        Ok(true)
    }

    // Takes those of some places that lie on the line of the edge.
    fn take(&self, found: &mut Vec<(u64, u32)>, near: &[u32]) -> Result<(), NoMemory>
        requires near { All (λ v. v < length self.now.points.now) near.now }
        requires a { self.now.a < length self.now.points.now }
        requires b { self.now.b < length self.now.points.now }
        ensures { OnOk result (found.new.items ≡ found.old.items
            ++ with_spans self.now.points.now self.now.a (filter (is_on_line self.now.points.now self.now.a self.now.b) near.now)) }
    {
        for place in near {
            if is_on_line(self.points, self.a, self.b, *place) {
                let distance = span(self.points[self.a as usize], self.points[*place as usize]);
                found.push((distance, *place))?;
            }
        }
        Ok(())
    }
}

// Lists the places near a piece of an edge, unless they are many and the piece can be halved, and tells whether that was done.
fn look_between(
    near: &mut Vec<u32>,
    tree: &Tree,
    steps: &Steps,
    from: u64,
    to: u64,
) -> Result<bool, NoMemory>
    requires short { IsShort steps.now }
    requires order { from ≤ to }
    requires to { to ≤ steps.now.count }
    ensures done { IfOk result (λ done. done ≡ true → near.new.items ≡ touching_numbers tree.now (box_between steps.now from to)) }
    ensures one { from ≡ to → IfOk result (λ done. done ≡ true) }
{
    let area = steps.box_between(from, to);
    if from == to {
        find_near(near, tree, area)?;
        return Ok(true);
    }
    find_few(near, tree, FEW, area)
}

// Whether three places lie on one line.
fn is_on_line(points: &[Point], a: u32, b: u32, c: u32) -> bool
    requires a { a < length points.now }
    requires b { b < length points.now }
    requires c { c < length points.now }
    ensures { result ≡ is_on_line points.now a b c }
{
    cross(points[a as usize], points[b as usize], points[c as usize]) == [0, 0, 0]
}
