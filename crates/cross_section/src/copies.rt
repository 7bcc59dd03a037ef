// The prescribed vertices, copies together.
ghost use Rattle.std.specs.Prelude.{◌≡◌, ◌≤◌, ◌<◌, ◌+◌, ◌++◌, [], pos, nat_abs, IfOk, OnOk, get_or, length, replicate};
ghost use Rattle.std.specs.List.{All};
ghost use Rattle.chain_terms.specs.Sums.{upto};
ghost use Rattle.cross_section.specs.Copies.{AreAdded, AreCopies, AreNumbers, FitVertices, by_sign, hit_number, vertex_number};
ghost use Rattle.outline_pair_terms.specs.Lists.{flat_copies};
ghost use Rattle.outline_terms.specs.Outlines.{most_vertices, outline_edges};

use crate::Numbers;
use crate::operand::{Operand, hit_number};
use crate::places::{VertexEdges, places_on};
use mb_base::{NoMemory, Op, Point};
use outline_pair_terms::FlatHit;
use outlines::Outline;
use std::alloc::Global;

/// The points of copies, and of each the list in which it is a start and that in which it is an end.
#[derive(Drop)]
pub struct FlatCopies {
    pub points: Vec<Point>,
    pub starts: Vec<u32>,
    pub ends: Vec<u32>,
}

/// The copies of P's vertices, of Q's and of the hits, in order.
pub fn copies_of(
    alloc: Global,
    op: Op,
    p: &Outline,
    q: &Outline,
    p_edges: &[(u32, u32)],
    q_edges: &[(u32, u32)],
    numbers: &Numbers,
) -> Result<FlatCopies, NoMemory>
    requires p_edges { p_edges.now ≡ outline_edges p.now }
    requires q_edges { q_edges.now ≡ outline_edges q.now }
    requires numbers { AreNumbers p.now q.now numbers.now }
    ensures { IfOk result (λ c. AreCopies p_edges.now q_edges.now (flat_copies op p.now q.now numbers.now) c.points.items c.starts.items c.ends.items) }
{
    let (p_points, q_points) = (p.points(), q.points());
    let mut copies = FlatCopies {
        points: Vec::new(alloc),
        starts: Vec::new(alloc),
        ends: Vec::new(alloc),
    };
    let p_places = places_on(alloc, p_edges, p_points.len())?;
    push_vertices(
        &mut copies,
        op,
        Operand::P,
        p_points,
        &numbers.w02,
        &p_places,
        0,
    )?;
    let q_places = places_on(alloc, q_edges, q_points.len())?;
    let first = p_edges.len() as u32;
    push_vertices(
        &mut copies,
        op,
        Operand::Q,
        q_points,
        &numbers.w20,
        &q_places,
        first,
    )?;
    push_hits(&mut copies, op, &numbers.hits, first)?;
    Ok(copies)
}

// Adds the copies of the vertices of one outline, whose edges' lists are numbered from a number on.
fn push_vertices(
    copies: &mut FlatCopies,
    op: Op,
    operand: Operand,
    points: &[Point],
    windings: &[i64],
    places: &VertexEdges,
    first: u32,
) -> Result<(), NoMemory>
    requires fit { FitVertices (length points.now) windings.now places.now.leaving.items places.now.entering.items }
    requires few { first ≤ most_vertices }
    ensures { OnOk result (AreAdded copies.old copies.new
        (λ v. vertex_number op operand (get_or windings.now v (pos 0))) (λ v. get_or points.now v [])
        (λ v. first + get_or places.now.leaving.items v 0) (λ v. first + get_or places.now.entering.items v 0) (upto (length points.now))) }
{
    for v in 0..points.len() {
        let number = operand.number(op, windings[v]);
        push_copies(
            copies,
            number,
            points[v],
            first + places.leaving[v],
            first + places.entering[v],
        )?;
    }
    Ok(())
}

// Adds the copies of hits. Q's lists are numbered from a number on.
fn push_hits(copies: &mut FlatCopies, op: Op, hits: &[FlatHit], first: u32) -> Result<(), NoMemory>
    requires small { All (λ h. nat_abs h.number ≤ 1) hits.now }
    requires below { All (λ h. h.q_edge < most_vertices) hits.now }
    requires few { first ≤ most_vertices }
    ensures { OnOk result (AreAdded copies.old copies.new (λ h. hit_number op h.number) (λ h. h.at) (λ h. h.p_edge) (λ h. first + h.q_edge) hits.now) }
{
    for hit in hits {
        let number = hit_number(op, hit.number);
        push_copies(copies, number, hit.at, hit.p_edge, first + hit.q_edge)?;
    }
    Ok(())
}

// Adds as many copies as the size of a number.
fn push_copies(
    copies: &mut FlatCopies,
    number: i64,
    point: Point,
    from: u32,
    to: u32,
) -> Result<(), NoMemory>
    ensures points { OnOk result (copies.new.points.items ≡ copies.old.points.items ++ replicate (nat_abs number) point) }
    ensures starts { OnOk result (copies.new.starts.items ≡ copies.old.starts.items ++ replicate (nat_abs number) (by_sign number from to)) }
    ensures ends { OnOk result (copies.new.ends.items ≡ copies.old.ends.items ++ replicate (nat_abs number) (by_sign number to from)) }
{
    let start = by_sign(number, from, to);
    let end = by_sign(number, to, from);
    push_many(copies, number.unsigned_abs(), point, start, end)?;
    Ok(())
}

// The second where a number is below 0, else the first.
fn by_sign(number: i64, from: u32, to: u32) -> u32
    ensures { result ≡ by_sign number from to }
{
    if number < 0 { to } else { from }
}

// Adds so many copies of one vertex.
fn push_many(
    copies: &mut FlatCopies,
    count: u64,
    point: Point,
    start: u32,
    end: u32,
) -> Result<(), NoMemory>
    ensures points { OnOk result (copies.new.points.items ≡ copies.old.points.items ++ replicate count point) }
    ensures starts { OnOk result (copies.new.starts.items ≡ copies.old.starts.items ++ replicate count start) }
    ensures ends { OnOk result (copies.new.ends.items ≡ copies.old.ends.items ++ replicate count end) }
{
    for _ in 0..count {
        copies.points.push(point)?;
        copies.starts.push(start)?;
        copies.ends.push(end)?;
    }
    Ok(())
}
