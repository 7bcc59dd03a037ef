// The marks of an outline's vertices.
ghost use Rattle.std.specs.Prelude.{◌≡◌, ◌<◌, ◌≤◌, ◌^◌, ◌-ℤ◌, [], IfOk, get_or, length, map, nat_abs};
ghost use Rattle.std.specs.List.{All};
ghost use Rattle.chain_terms.specs.Sums.{upto};
ghost use Rattle.outline_terms.specs.Outlines.{IsBetween, after, before, is_up, marks_between};

use mb_base::{NoMemory, Op, Point};
use std::alloc::Global;

/// The marks of points between their neighbours along the edges: on x and on y a vertex is up where what is right of the way
/// from the vertex before to the one after lies above 0 for a union, and below 0 for the other two; never on z.
pub fn marks_of(
    alloc: Global,
    op: Op,
    points: &[Point],
    edges: &[(u32, u32)],
) -> Result<Vec<[bool; 3]>, NoMemory>
    requires { All (IsBetween (length points.now)) edges.now }
    ensures { IfOk result (λ ups. ups.items ≡ map
        (λ v. marks_between op (get_or points.now (before edges.now v) []) (get_or points.now (after edges.now v) []))
        (upto (length points.now))) }
{
    let before = all_before(alloc, edges, points.len())?;
    let after = all_after(alloc, edges, points.len())?;
    let mut ups = Vec::with_capacity(alloc, points.len())?;
    for v in 0..points.len() {
        ups.push(marks_at(op, points, before[v], after[v]))?;
    }
    Ok(ups)
}

// The marks of a vertex between two others.
fn marks_at(op: Op, points: &[Point], a: u32, b: u32) -> [bool; 3]
    requires a { a < length points.now }
    requires b { b < length points.now }
    ensures { result ≡ marks_between op (get_or points.now a []) (get_or points.now b []) }
{
    marks_between(op, points[a as usize], points[b as usize])
}

// Of so many vertices the one that comes after each along the edges, and 0 where none does.
fn all_after(alloc: Global, edges: &[(u32, u32)], count: usize) -> Result<Vec<u32>, NoMemory>
    requires { All (IsBetween count) edges.now }
    ensures value { IfOk result (λ vs. vs.items ≡ map (after edges.now) (upto count)) }
    ensures below { IfOk result (λ vs. All (λ v. v < count) vs.items) }
{
    let mut vertices = vec![in alloc; 0; count]?;
    for k in (0..edges.len()).rev() {
        let (from, to) = edges[k];
        vertices[from as usize] = to;
    }
    Ok(vertices)
}

// Of so many vertices the one that comes before each along the edges, and 0 where none does.
fn all_before(alloc: Global, edges: &[(u32, u32)], count: usize) -> Result<Vec<u32>, NoMemory>
    requires { All (IsBetween count) edges.now }
    ensures value { IfOk result (λ vs. vs.items ≡ map (before edges.now) (upto count)) }
    ensures below { IfOk result (λ vs. All (λ v. v < count) vs.items) }
{
    let mut vertices = vec![in alloc; 0; count]?;
    for k in (0..edges.len()).rev() {
        let (from, to) = edges[k];
        vertices[to as usize] = from;
    }
    Ok(vertices)
}

// The marks of a vertex between two points.
fn marks_between(op: Op, a: Point, b: Point) -> [bool; 3]
    ensures { result ≡ marks_between op a b }
{
    let [ax, ay, _] = a.at();
    let [bx, by, _] = b.at();
    [is_up(op, step(ay, by)), is_up(op, step(bx, ax)), false]
}

// How far it is from one coordinate to another.
fn step(from: i32, to: i32) -> i64
    ensures value { result ≡ to -ℤ from }
    ensures small { nat_abs result ≤ 2 ^ 32 }
{
    i64::from(to) - i64::from(from)
}

// Whether a coordinate of what is right of the way makes a vertex count as moved up.
fn is_up(op: Op, right: i64) -> bool
    ensures { result ≡ is_up op right }
{
    match op {
        Op::Union => right > 0,
        Op::Intersect | Op::Subtract => right < 0,
    }
}
