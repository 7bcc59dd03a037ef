// The edges of the triangles that are not flat, between the first points at their places.
ghost use Rattle.std.specs.Prelude.{◌≡◌, ◌<◌, ◌++◌, ◌∷◌, [], IfOk, OnOk, length, map};
ghost use Rattle.inspection_laws.specs.Sharing.{edge_between, edges_between, edges_upto, full_edges};

use crate::cuts::triangles;
use crate::faces::{face_at, is_flat};
use mb_base::NoMemory;
use mesh_check::Mesh;
use std::alloc::Global;

/// The lesser ends of edges, and their greater ends.
#[derive(Drop)]
pub struct EdgeEnds {
    pub lows: Vec<u32>,
    pub highs: Vec<u32>,
}

/// The edges of all triangles that are not flat, where each point stands for the first at its place.
pub fn edges(alloc: Global, mesh: &Mesh, firsts: &[u32]) -> Result<EdgeEnds, NoMemory>
    requires { length firsts.now ≡ length mesh.now.points }
    ensures lows { IfOk result (λ e. e.lows.items ≡ map (λ x. x.0) (edges_upto mesh.now firsts.now (length mesh.now.triples))) }
    ensures highs { IfOk result (λ e. e.highs.items ≡ map (λ x. x.1) (edges_upto mesh.now firsts.now (length mesh.now.triples))) }
{
    let count = 3 * triangles(mesh) as usize;
    let mut lows = Vec::with_capacity(alloc, count)?;
    let mut highs = Vec::with_capacity(alloc, count)?;
    for t in 0..triangles(mesh) {
        push_full(&mut lows, &mut highs, mesh, firsts, t)?;
    }
    Ok(EdgeEnds { lows, highs })
}

// Adds those of a triangle, if it is not flat.
fn push_full(
    lows: &mut Vec<u32>,
    highs: &mut Vec<u32>,
    mesh: &Mesh,
    firsts: &[u32],
    t: u32,
) -> Result<(), NoMemory>
    requires within { t < length mesh.now.triples }
    requires full { length firsts.now ≡ length mesh.now.points }
    ensures lows { OnOk result (lows.new.items ≡ lows.old.items ++ map (λ x. x.0) (full_edges mesh.now firsts.now t)) }
    ensures highs { OnOk result (highs.new.items ≡ highs.old.items ++ map (λ x. x.1) (full_edges mesh.now firsts.now t)) }
{
    if is_flat(&face_at(mesh, t)) {
        return Ok(());
    }
    let [a, b, c] = mesh.triples()[t as usize];
    let (a, b, c) = (firsts[a as usize], firsts[b as usize], firsts[c as usize]);
    push_edges(lows, highs, a, b, c)?;
    Ok(())
}

// Adds those between three points.
fn push_edges(
    lows: &mut Vec<u32>,
    highs: &mut Vec<u32>,
    a: u32,
    b: u32,
    c: u32,
) -> Result<(), NoMemory>
    ensures lows { OnOk result (lows.new.items ≡ lows.old.items ++ map (λ x. x.0) (edges_between a b c)) }
    ensures highs { OnOk result (highs.new.items ≡ highs.old.items ++ map (λ x. x.1) (edges_between a b c)) }
{
    push_edge(lows, highs, a, b)?;
    push_edge(lows, highs, b, c)?;
    push_edge(lows, highs, c, a)?;
    Ok(())
}

// Adds the one between two.
#[inline]
fn push_edge(lows: &mut Vec<u32>, highs: &mut Vec<u32>, a: u32, b: u32) -> Result<(), NoMemory>
    ensures lows { OnOk result (lows.new.items ≡ lows.old.items ++ (edge_between a b).0 ∷ []) }
    ensures highs { OnOk result (highs.new.items ≡ highs.old.items ++ (edge_between a b).1 ∷ []) }
{
    let (low, high) = between(a, b);
    lows.push(low)?;
    highs.push(high)?;
    Ok(())
}

// The lesser of two and the greater.
#[inline]
fn between(a: u32, b: u32) -> (u32, u32)
    ensures { result ≡ edge_between a b }
{
    if a < b { (a, b) } else { (b, a) }
}
