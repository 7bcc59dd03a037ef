// A ring of nodes that is worked on at one place after another.
ghost use Rattle.std.specs.Prelude.{◌≡◌, ◌+◌, ◌<◌, ◌≤◌, ◌⊎◌, ◌^◌, IfOk, OnOk, length};
ghost use Rattle.std.specs.List.{All};
ghost use Rattle.hole_joining.specs.Bridges.{join};
ghost use Rattle.hole_joining.specs.Holes.{turned_to};

use crate::places::Places;
use loop_ring::Ring;
use mb_base::NoMemory;
use std::alloc::Global;
use std::marker::Model;

/// A ring whose cursor stays where work was last done, so that few steps lead to a place near by. Contracts see the list
/// from its first place.
#[derive(Drop)]
pub struct Circle {
    nodes: Ring,
    // How many steps the first place is ahead of the cursor.
    ahead: usize,
}

impl Model for Circle {
    ghost use Rattle.std.specs.Prelude.{◌≤◌, ℕ, List, length};
    ghost use Rattle.hole_joining.specs.Holes.{turned_to};

    ghost Value = { List ℕ };

    ghost view = { λ c. turned_to c.ahead c.nodes };

    ghost invariant = { λ c. c.ahead ≤ length c.nodes };
}

// Moves the cursor so many places on.
fn turn_on(circle: &mut Ring, count: usize)
    requires { count ≤ length circle.old }
    ensures { circle.new ≡ turned_to count circle.old }
{
    for _ in 0..count {
        circle.step();
    }
}

// The same, by going back past all the other places.
fn turn_back(circle: &mut Ring, count: usize)
    requires { count ≤ length circle.old }
    ensures { circle.new ≡ turned_to count circle.old }
{
    let rest = circle.len() - count;
    for _ in 0..rest {
        circle.back();
    }
}

// The same, the shorter way round.
fn turn(circle: &mut Ring, count: usize)
    requires { count ≤ length circle.old }
    ensures { circle.new ≡ turned_to count circle.old }
{
    if circle.len() - count < count {
        turn_back(circle, count);
    } else {
        turn_on(circle, count);
    }
}

// How many steps lead so many places on and then so many more, no more than once round.
fn steps_together(len: usize, first: usize, second: usize) -> usize
    requires first { first ≤ len }
    requires second { second ≤ len }
    ensures within { result ≤ len }
    ensures sum { (result ≡ first + second) ⊎ (result + len ≡ first + second) }
{
    let rest = len - first;
    if second <= rest {
        first + second
    } else {
        second - rest
    }
}

// Moves the cursor so many places on, and then so many more, the shorter way round.
fn turn_twice(circle: &mut Ring, first: usize, second: usize)
    requires first { first ≤ length circle.old }
    requires second { second ≤ length circle.old }
    ensures { circle.new ≡ turned_to second (turned_to first circle.old) }
{
    let count = steps_together(circle.len(), first, second);
    turn(circle, count);
}

impl Circle {
    /// The circle of these places, the first one at the cursor.
    pub fn of(alloc: Global, places: &[u32]) -> Result<Circle, NoMemory>
        requires { 0 < length places.now }
        ensures { IfOk result (λ circle. circle ≡ places.now) }
    {
        let nodes = Ring::of(alloc, places)?;
        Ok(Circle { nodes, ahead: 0 })
    }

    /// The hole's nodes are linked before the place after the bridge's end, then come the hole's start and the bridge's end.
    pub fn join(&mut self, alloc: Global, place: usize, hole: &[u32]) -> Result<(), NoMemory>
        requires place { place < length self.old }
        requires some { 0 < length hole.now }
        requires few { length self.old + length hole.now + 2 < 2 ^ 32 }
        ensures { OnOk result (self.new ≡ join self.old place hole.now) }
    {
        let own = Ring::of(alloc, hole)?;
        let start = own.get();
        let rest = self.nodes.len() - place - 1;
        turn_twice(&mut self.nodes, self.ahead, place);
        let end = self.nodes.get();
        self.nodes.step();
        self.nodes.splice(own);
        self.ahead = rest;
        self.nodes.grow(start)?;
        self.nodes.grow(end)?;
        Ok(())
    }

    /// The ring, its first place at the cursor.
    pub fn into_ring(self) -> Ring
        ensures { result ≡ self }
    {
        let Circle { mut nodes, ahead } = self;
        turn(&mut nodes, ahead);
        nodes
    }
}

/// The rings as circles of nodes.
pub fn circles_of(alloc: Global, rings: &[Places]) -> Result<Vec<Circle>, NoMemory>
    requires { All (λ r. 0 < length r) rings.now }
    ensures { IfOk result (λ circles. circles.items ≡ rings.now) }
{
    let mut circles = Vec::with_capacity(alloc, rings.len())?;
    for ring in rings {
        circles.push(Circle::of(alloc, &ring.places)?)?;
    }
    Ok(circles)
}

/// The circles as rings, each with its first place at the cursor.
pub fn rings_of_circles(alloc: Global, circles: Vec<Circle>) -> Result<Vec<Ring>, NoMemory>
    ensures { IfOk result (λ rings. rings.items ≡ circles.items) }
{
    let mut rings = Vec::with_capacity(alloc, circles.len())?;
    for circle in circles {
        rings.push(circle.into_ring())?;
    }
    Ok(rings)
}
