// Outlines of points on the grid.
ghost use Rattle.std.specs.Prelude.{◌≡◌, ◌≤◌, ◌++◌, ◌∷◌, [], pos, IfOk, OnOk, length, map};
ghost use Rattle.std.specs.List.{All, flat_map};
ghost use Rattle.chain_terms.specs.Paths.{round_edges};
ghost use Rattle.chain_terms.specs.Sums.{upto};
ghost use Rattle.mesh_terms.specs.Points.{IsOnGrid};
ghost use Rattle.outline_terms.specs.Outlines.{IsBetween, IsOutline, flat_at_zero, outline_edges, ring_of};
ghost use Rattle.outlines.specs.Places.{IsPlace};

use face_loops::Loop;
use mb_base::{NoMemory, Point};
use std::alloc::Global;
use std::marker::Model;

/// The most vertices of an outline.
pub const MOST_VERTICES: u32 = 1_000_000;

/// Loops of points whose z is 0. Every vertex, numbered from 0, is in exactly one loop, each loop has at least three, and
/// there are at most `MOST_VERTICES`. Points may repeat, and loops may cross themselves and each other.
#[derive(Debug, Drop)]
pub struct Outline {
    points: Vec<Point>,
    loops: Vec<Loop>,
}

impl Model for Outline {
    ghost use Rattle.mesh_terms.specs.Points.{IsOnGrid};
    ghost use Rattle.outline_terms.specs.Outlines.{IsOutline, Outline as TheOutline};

    ghost Value = { TheOutline };

    ghost view = { λ o. record { points = o.points.items; loops = o.loops.items } };

    ghost invariant = { λ o. IsOutline (record { points = o.points.items; loops = o.loops.items }) };
}

impl Outline {
    /// The outline of these points and of these loops of their numbers.
    pub fn of(points: Vec<Point>, loops: Vec<Loop>) -> Outline
        requires { IsOutline (record { points = points.items; loops = loops.items }) }
        ensures { result ≡ record { points = points.items; loops = loops.items } }
    {
        Outline { points, loops }
    }

    /// The outline of one loop through from 3 to 64 points, in order, whose x and y are in grid steps. `NoMemory` may come
    /// for any points.
    pub fn ring(alloc: Global, points: &[[i32; 2]]) -> Result<Outline, NoMemory>
        requires some { 3 ≤ length points.now }
        requires few { length points.now ≤ 64 }
        requires on_grid { All IsPlace points.now }
        ensures { IfOk result (λ o. o ≡ ring_of points.now) }
    {
        let vertices = numbers_to(alloc, points.len() as u32)?;
        let loops = one_loop(alloc, vertices)?;
        let points = at_zero(alloc, points)?;
        Ok(Outline::of(points, loops))
    }

    /// The points, in grid steps.
    pub fn points(&self) -> &[Point]
        ensures value { result.now ≡ self.now.points }
        ensures outline { IsOutline self.now }
    {
        &self.points
    }

    /// The loops, each as the numbers of its points.
    pub fn loops(&self) -> &[Loop]
        ensures value { result.now ≡ self.now.loops }
        ensures outline { IsOutline self.now }
    {
        &self.loops
    }

    /// The edges, each from one point to the next one, loop by loop. `NoMemory` may come for any outline.
    pub fn edges(&self, alloc: Global) -> Result<Vec<(u32, u32)>, NoMemory>
        ensures value { IfOk result (λ edges. edges.items ≡ outline_edges self.now) }
        ensures between { IfOk result (λ edges. All (IsBetween (length self.now.points)) edges.items) }
        ensures length { IfOk result (λ edges. length edges.items ≡ length self.now.points) }
        ensures outline { IsOutline self.now }
    {
        let count = self.points().len();
        let edges = edges_round(alloc, count, self.loops())?;
        Ok(edges)
    }
}

// The edges round loops, one loop after the other.
fn edges_round(alloc: Global, count: usize, loops: &[Loop]) -> Result<Vec<(u32, u32)>, NoMemory>
    ensures { IfOk result (λ edges. edges.items ≡ flat_map round_edges loops.now) }
{
    let mut edges = Vec::with_capacity(alloc, count)?;
    for ring in loops {
        push_round(&mut edges, ring.vertices())?;
    }
    Ok(edges)
}

// Adds the edges round a loop.
fn push_round(edges: &mut Vec<(u32, u32)>, vertices: &[u32]) -> Result<(), NoMemory>
    ensures { OnOk result (edges.new.items ≡ edges.old.items ++ round_edges vertices.now) }
{
    match vertices.split_first() {
        None => Ok(()),
        Some((first, rest)) => push_round_from(edges, *first, rest),
    }
}

// The same for a loop of a first vertex and others.
fn push_round_from(edges: &mut Vec<(u32, u32)>, first: u32, rest: &[u32]) -> Result<(), NoMemory>
    ensures { OnOk result (edges.new.items ≡ edges.old.items ++ round_edges (first ∷ rest.now)) }
{
    let mut from = first;
    for to in rest {
        edges.push((from, *to))?;
        from = *to;
    }
    edges.push((from, first))?;
    Ok(())
}

// The numbers below another.
fn numbers_to(alloc: Global, count: u32) -> Result<Vec<u32>, NoMemory>
    ensures { IfOk result (λ numbers. numbers.items ≡ upto count) }
{
    let mut numbers = Vec::with_capacity(alloc, count as usize)?;
    for number in 0..count {
        numbers.push(number)?;
    }
    Ok(numbers)
}

// A list of one loop.
fn one_loop(alloc: Global, vertices: Vec<u32>) -> Result<Vec<Loop>, NoMemory>
    ensures { IfOk result (λ loops. loops.items ≡ vertices.items ∷ []) }
{
    let mut loops = Vec::with_capacity(alloc, 1)?;
    loops.push(Loop::of(vertices))?;
    Ok(loops)
}

// The points of the plane at height 0.
fn at_zero(alloc: Global, places: &[[i32; 2]]) -> Result<Vec<Point>, NoMemory>
    requires { All IsPlace places.now }
    ensures { IfOk result (λ points. points.items ≡ map flat_at_zero places.now) }
{
    let mut points = Vec::with_capacity(alloc, places.len())?;
    for [x, y] in places {
        points.push(point_at(*x, *y))?;
    }
    Ok(points)
}

// The point with coordinates on the grid at height 0.
fn point_at(x: i32, y: i32) -> Point
    requires x { IsOnGrid x }
    requires y { IsOnGrid y }
    ensures { result ≡ x ∷ y ∷ pos 0 ∷ [] }
{
    match Point::of(x, y, 0) {
        Some(point) => point,
        // All three are on the grid.
        None => unreachable!(),
    }
}
