// The triangles near a group of a mesh.
ghost use Rattle.std.specs.Prelude.{◌≡◌, ◌<◌, ◌≤◌, [], OnOk, IfOk, IsTrue, length, true};
ghost use Rattle.inspection_terms.specs.Triangles.{corners_at};
ghost use Rattle.inspection_laws.specs.Boxes.{boxes_of, holds, holds_on};
ghost use Rattle.self_cuts.specs.Faces.{places};
ghost use Rattle.self_cuts.specs.Hands.{AreAtHand};

use crate::cuts::triangles;
use crate::faces::{box_of, triangle_at};
use crate::seen::Seen;
use box_tree::Tree;
use mb_base::{Box3, NoMemory};
use mesh_check::Mesh;
use std::alloc::Global;

/// The triangles before a number whose boxes touch an area.
#[derive(Drop)]
pub struct Nearby {
    pub area: Box3,
    pub end: u32,
    pub seen: Vec<Seen>,
}

// So many triangles that follow one another are sought together, where they lie close to one another.
const GROUP: u32 = 16;

// They do where no more boxes than these touch the area round them.
const FEW: u32 = 128;

impl Nearby {
    /// None at all.
    pub fn none(alloc: Global) -> Nearby
        ensures end { result.end ≡ 0 }
        ensures seen { result.seen.items ≡ [] }
    {
        Nearby {
            area: Box3 {
                low: [0, 0, 0],
                high: [0, 0, 0],
            },
            end: 0,
            seen: Vec::new(alloc),
        }
    }

    /// Goes on to the triangle of a number, whose box is given, and tells whether those before it that touch its box are at hand.
    pub fn go_on(&mut self, mesh: &Mesh, tree: &Tree, t: u32, own: &Box3) -> Result<bool, NoMemory>
        requires within { t < length mesh.now.triples }
        requires tree { tree.now ≡ boxes_of mesh.now }
        requires at_hand { AreAtHand mesh.now self.old.area self.old.end self.old.seen.items }
        ensures at_hand { OnOk result (AreAtHand mesh.now self.new.area self.new.end self.new.seen.items) }
        ensures before { IfOk result (λ serves. IsTrue serves → t < self.new.end) }
        ensures holds { IfOk result (λ serves. IsTrue serves → holds self.new.area own.now ≡ true) }
    {
        if t % GROUP == 0 {
            self.move_to(mesh, tree, t)?;
        }
        Ok(self.serves(t, own))
    }

    // Whether the triangles at hand are all those before a number that touch a box.
    #[inline]
    fn serves(&self, t: u32, own: &Box3) -> bool
        ensures before { IsTrue result → t < self.now.end }
        ensures holds { IsTrue result → holds self.now.area own.now ≡ true }
    {
        t < self.end && holds(&self.area, own)
    }

    // Moves to the group that begins with a number. Where too many touch the box round it none is at hand.
    fn move_to(&mut self, mesh: &Mesh, tree: &Tree, t: u32) -> Result<(), NoMemory>
        requires within { t < length mesh.now.triples }
        requires tree { tree.now ≡ boxes_of mesh.now }
        ensures { OnOk result (AreAtHand mesh.now self.new.area self.new.end self.new.seen.items) }
    {
        self.area = box_of_group(mesh, t);
        self.end = triangles(mesh).min(t + GROUP);
        let few = gather(&mut self.seen, mesh, tree, self.area, self.end)?;
        if few {
            return Ok(());
        }
        self.seen.clear();
        self.end = 0;
        Ok(())
    }
}

// Gathers the triangles before the end whose boxes touch an area, if no more than a few do, and tells whether that is so.
fn gather(
    seen: &mut Vec<Seen>,
    mesh: &Mesh,
    tree: &Tree,
    area: Box3,
    end: u32,
) -> Result<bool, NoMemory>
    requires end { end ≤ length mesh.now.triples }
    requires tree { tree.now ≡ boxes_of mesh.now }
    ensures { IfOk result (λ few. IsTrue few → AreAtHand mesh.now area end seen.new.items) }
{
    seen.clear();
    let mut met = 0;
    for number in tree.touching(area) {
        if met == FEW {
            return Ok(false);
        }
        met += 1;
        if number < end {
            seen.push(seen_at(mesh, number))?;
        }
    }
    Ok(true)
}

// The triangle of a number.
#[inline]
fn seen_at(mesh: &Mesh, number: u32) -> Seen
    requires { number < length mesh.now.triples }
    ensures number { result.number ≡ number }
    ensures triangle { places result.triangle ≡ corners_at mesh.now number }
{
    let triangle = triangle_at(mesh, number);
    Seen {
        number,
        own: box_of(&triangle),
        triangle,
    }
}

// Whether an area holds a box.
#[inline]
fn holds(area: &Box3, own: &Box3) -> bool
    ensures { result ≡ holds area.now own.now }
{
    holds_on(area, own, 0) && holds_on(area, own, 1) && holds_on(area, own, 2)
}

// Whether it does on an axis.
#[inline]
fn holds_on(area: &Box3, own: &Box3, axis: usize) -> bool
    requires { axis < 3 }
    ensures { result ≡ holds_on axis area.now own.now }
{
    area.low[axis] <= own.low[axis] && own.high[axis] <= area.high[axis]
}

// The box round a group of triangles, from the one of a number on. Any box would do: it is looked at whether it holds what it has to.
fn box_of_group(mesh: &Mesh, t: u32) -> Box3
    requires { t < length mesh.now.triples }
{
    let mut area = box_of(&triangle_at(mesh, t));
    for s in t..triangles(mesh).min(t + GROUP) {
        area = joined(&area, &box_of(&triangle_at(mesh, s)));
    }
    area
}

// The box round two boxes.
#[inline]
fn joined(a: &Box3, b: &Box3) -> Box3 {
    Box3 {
        low: [
            a.low[0].min(b.low[0]),
            a.low[1].min(b.low[1]),
            a.low[2].min(b.low[2]),
        ],
        high: [
            a.high[0].max(b.high[0]),
            a.high[1].max(b.high[1]),
            a.high[2].max(b.high[2]),
        ],
    }
}
