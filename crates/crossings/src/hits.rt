// The hits of the edges of one side with the faces of another.
ghost use Rattle.std.specs.Prelude.{◌≡◌, ◌++◌, ◌<◌, ◌≤◌, ◌*◌, ℕ, IfOk, OnOk, [], length, nat_lt};
ghost use Rattle.std.specs.List.{cons_option};
ghost use Rattle.chain_terms.specs.Chains.{all_edges};
ghost use Rattle.chain_terms.specs.Ranks.{twin};
ghost use Rattle.side_terms.specs.Corners.{AllFine};
ghost use Rattle.side_terms.specs.Sides.{IsSide, face_at};
ghost use Rattle.crossings.specs.Hits.{hit_of, hits_along, hits_before, hits_of};
ghost use Rattle.crossings.specs.Near.{AreNear, hits_with};

use crate::near::{Near, find_boxes};
use crate::pairs::EdgeFace;
use crate::runs::box_round;
use box_tree::{find_few, find_near, touch};
use lean::Side;
use mb_base::{Corner, Hit, NoMemory, box_of};
use std::alloc::Global;

// The triangles of a run.
const RUN: u32 = 16;

// The most faces near a run that are few.
const FEW: usize = 192;

/// One hit for each edge, by its lower half-edge, and face whose number is not 0, ascending by edge, then face. An edge is
/// asked with the faces whose boxes touch its own; with the others it has no crossing. For a run of triangles the faces
/// near all of it are found by one question to the tree, where they are few; its edges are then asked with these alone.
pub fn hits_of<C: EdgeFace>(
    alloc: Global,
    edges: &Side,
    faces: &Side,
    pairs: &C,
) -> Result<Vec<Hit>, NoMemory>
    ensures { IfOk result (λ hits. hits.items ≡ hits_of (C.crossing_of pairs.now) edges.now faces.now) }
{
    let mut hits = Vec::new(alloc);
    let mut near = Near {
        faces: Vec::new(alloc),
        boxes: Vec::new(alloc),
    };
    let count = edges.triples().len() as u32;
    let mut from = 0;
    while from < count {
        let to = from + RUN.min(count - from);
        push_run(&mut hits, &mut near, from, to, edges, faces, pairs)?;
        from = to;
    }
    Ok(hits)
}

// Adds the hits of the half-edges of a run of triangles, from a number up to another.
fn push_run<C: EdgeFace>(
    hits: &mut Vec<Hit>,
    near: &mut Near,
    from: u32,
    to: u32,
    edges: &Side,
    faces: &Side,
    pairs: &C,
) -> Result<(), NoMemory>
    requires order { from ≤ to }
    requires within { to ≤ length edges.now.triples }
    requires before { hits.old.items ≡ hits_before (C.crossing_of pairs.now) edges.now faces.now (3 * from) }
    ensures { OnOk result (hits.new.items ≡ hits_before (C.crossing_of pairs.now) edges.now faces.now (3 * to)) }
{
    let area = box_round(edges, from, to);
    let (first, end) = (3 * from, 3 * to);
    if !find_few(&mut near.faces, faces.tree(), FEW, area)? {
        return push_each(hits, &mut near.faces, first, end, edges, faces, pairs);
    }
    if near.faces.is_empty() {
        return Ok(());
    }
    find_boxes(&mut near.boxes, &near.faces, faces)?;
    push_among(hits, near, first, end, edges, faces, pairs)
}

// Adds the hits of the half-edges from a number up to another. The tree is asked for the faces near each.
fn push_each<C: EdgeFace>(
    hits: &mut Vec<Hit>,
    near: &mut Vec<u32>,
    first: u32,
    end: u32,
    edges: &Side,
    faces: &Side,
    pairs: &C,
) -> Result<(), NoMemory>
    requires order { first ≤ end }
    requires within { end ≤ 3 * length edges.now.triples }
    requires before { hits.old.items ≡ hits_before (C.crossing_of pairs.now) edges.now faces.now first }
    ensures { OnOk result (hits.new.items ≡ hits_before (C.crossing_of pairs.now) edges.now faces.now end) }
{
    for half in first..end {
        if is_lower(edges, half) {
            push_hits(hits, near, half, edges, faces, pairs)?;
        }
    }
    Ok(())
}

// The same, where no half-edge has a hit with a face that is not near.
fn push_among<C: EdgeFace>(
    hits: &mut Vec<Hit>,
    near: &Near,
    first: u32,
    end: u32,
    edges: &Side,
    faces: &Side,
    pairs: &C,
) -> Result<(), NoMemory>
    requires order { first ≤ end }
    requires within { end ≤ 3 * length edges.now.triples }
    requires side { IsSide faces.now }
    requires near { AreNear faces.now near.now }
    requires all { (h : ℕ) → first ≤ h → h < end →
        hits_with (C.crossing_of pairs.now) edges.now faces.now h near.now.faces.items ≡ hits_along (C.crossing_of pairs.now) edges.now faces.now h }
    requires before { hits.old.items ≡ hits_before (C.crossing_of pairs.now) edges.now faces.now first }
    ensures { OnOk result (hits.new.items ≡ hits_before (C.crossing_of pairs.now) edges.now faces.now end) }
{
    for half in first..end {
        if is_lower(edges, half) {
            push_hits_among(hits, near, half, edges, faces, pairs)?;
        }
    }
    Ok(())
}

// Whether a half-edge is the lower one of its edge: the smaller of it and its twin.
#[inline]
fn is_lower(edges: &Side, half: u32) -> bool
    requires { half < 3 * length edges.now.triples }
    ensures { result ≡ nat_lt half (twin (all_edges edges.now.triples) half) }
{
    half < edges.twins().twin(half)
}

// Adds the hits of one half-edge with near faces.
fn push_hits_among<C: EdgeFace>(
    hits: &mut Vec<Hit>,
    near: &Near,
    half: u32,
    edges: &Side,
    faces: &Side,
    pairs: &C,
) -> Result<(), NoMemory>
    requires half { half < 3 * length edges.now.triples }
    requires side { IsSide faces.now }
    requires near { AreNear faces.now near.now }
    ensures { OnOk result (hits.new.items ≡ hits.old.items ++ hits_with (C.crossing_of pairs.now) edges.now faces.now half near.now.faces.items) }
{
    let edge = edges.edge(half);
    let area = box_of(&edge);
    for place in 0..near.faces.len() {
        if touch(&near.boxes[place], &area) {
            push_hit(hits, half, near.faces[place], &edge, faces, pairs)?;
        }
    }
    Ok(())
}

// Adds the hits of one half-edge, ascending by face. The list of near faces is filled anew.
fn push_hits<C: EdgeFace>(
    hits: &mut Vec<Hit>,
    near: &mut Vec<u32>,
    half: u32,
    edges: &Side,
    faces: &Side,
    pairs: &C,
) -> Result<(), NoMemory>
    requires { half < 3 * length edges.now.triples }
    ensures { OnOk result (hits.new.items ≡ hits.old.items ++ hits_along (C.crossing_of pairs.now) edges.now faces.now half) }
{
    let edge = edges.edge(half);
    find_near(near, faces.tree(), box_of(&edge))?;
    for face in near.iter() {
        push_hit(hits, half, *face, &edge, faces, pairs)?;
    }
    Ok(())
}

// Adds the hit of a half-edge, of which these are the corners, and a face, where they have one.
#[inline]
fn push_hit<C: EdgeFace>(
    hits: &mut Vec<Hit>,
    half: u32,
    face: u32,
    edge: &[Corner; 2],
    faces: &Side,
    pairs: &C,
) -> Result<(), NoMemory>
    requires face { face < length faces.now.triples }
    requires fine { AllFine edge.now }
    ensures { OnOk result (hits.new.items ≡ hits.old.items ++
        cons_option (hit_of half face (C.crossing_of pairs.now edge.now (face_at faces.now face))) []) }
{
    if let Some(crossing) = pairs.crossing(edge, &faces.face(face)) {
        hits.push(Hit {
            edge: half,
            face,
            number: crossing.number,
            at: crossing.at,
        })?;
    }
    Ok(())
}
