// Where the edges of two sides cross.
ghost use Rattle.std.specs.Prelude.{◌≡◌, ◌++◌, ◌∷◌, ◌<◌, [], pos, IfOk, OnOk, length};
ghost use Rattle.mesh_terms.specs.Points.{IsOnGrid};
ghost use Rattle.shadow_kernels.specs.Bounds.{IsFineSpot};
ghost use Rattle.side_terms.specs.Corners.{AllFine};
ghost use Rattle.side_terms.specs.Fine.{IsFine};
ghost use Rattle.outline_pair_terms.specs.Numbers.{flat_hit, flat_hits, flat_hits_along, flat_point};

use crate::numbers::side::FlatSide;
use box_tree::find_near;
use mb_base::{Corner, NoMemory, Point, box_of};
use outline_pair_terms::FlatHit;
use rounding::Rounding;
use shadow_kernels::{Meets, Spot};
use std::alloc::Global;

/// One hit for each edge of P and edge of Q whose number is not 0, ascending by P's edge, then Q's. An edge is asked with those
/// whose boxes touch its own; with the others it has no crossing.
pub fn hits_of<K: Meets<2, 2>, R: Rounding>(
    alloc: Global,
    p: &FlatSide,
    q: &FlatSide,
    kernels: &K,
    rounding: &R,
) -> Result<Vec<FlatHit>, NoMemory>
    ensures { IfOk result (λ hits. hits.items ≡ flat_hits (K.meet_of kernels.now) (R.settle_of rounding.now) p.now q.now) }
{
    let mut hits = Vec::new(alloc);
    let mut near = Vec::new(alloc);
    for edge in 0..p.edges().len() as u32 {
        push_hits(&mut hits, &mut near, edge, p, q, kernels, rounding)?;
    }
    Ok(hits)
}

// Adds the hits of an edge of P, ascending by Q's edge. The list of near edges is filled anew.
fn push_hits<K: Meets<2, 2>, R: Rounding>(
    hits: &mut Vec<FlatHit>,
    near: &mut Vec<u32>,
    edge: u32,
    p: &FlatSide,
    q: &FlatSide,
    kernels: &K,
    rounding: &R,
) -> Result<(), NoMemory>
    requires { edge < length p.now.edges }
    ensures { OnOk result (hits.new.items ≡ hits.old.items ++ flat_hits_along (K.meet_of kernels.now) (R.settle_of rounding.now) p.now q.now edge) }
{
    // Read so that what P's side keeps is known here.
    let _ = p.corners();
    let own = p.edge(edge);
    find_near(near, q.tree(), box_of(&own))?;
    for other in near.iter() {
        if let Some(hit) = hit_of(kernels, rounding, edge, *other, &own, &q.edge(*other)) {
            hits.push(hit)?;
        }
    }
    Ok(())
}

// The hit of two edges; none where their number is 0.
fn hit_of<K: Meets<2, 2>, R: Rounding>(
    kernels: &K,
    rounding: &R,
    p_edge: u32,
    q_edge: u32,
    p: &[Corner; 2],
    q: &[Corner; 2],
) -> Option<FlatHit>
    requires p_fine { AllFine p.now }
    requires q_fine { AllFine q.now }
    ensures { result ≡ flat_hit (R.settle_of rounding.now) p_edge q_edge (K.meet_of kernels.now p.now q.now) }
{
    match kernels.meet(p, q) {
        None => None,
        Some(meet) => {
            if meet.count == 0 {
                return None;
            }
            Some(FlatHit {
                p_edge,
                q_edge,
                number: meet.count,
                at: point_of(rounding, &meet.spot),
            })
        }
    }
}

// The point of a spot: its x and P's y there, each settled, and z 0.
fn point_of<R: Rounding>(rounding: &R, spot: &Spot) -> Point
    requires { IsFineSpot spot.now }
    ensures { result ≡ flat_point (R.settle_of rounding.now) spot.now }
{
    point_at(settled(rounding, spot.x), settled(rounding, spot.py))
}

// The grid step of a fine coordinate.
fn settled<R: Rounding>(rounding: &R, fine: i64) -> i32
    requires { IsFine fine }
    ensures value { result ≡ R.settle_of rounding.now fine }
    ensures on_grid { IsOnGrid result }
{
    rounding.settle(fine)
}

// The point with coordinates on the grid at height 0.
fn point_at(x: i32, y: i32) -> Point
    requires x { IsOnGrid x }
    requires y { IsOnGrid y }
    ensures { result ≡ x ∷ y ∷ pos 0 ∷ [] }
{
    match Point::of(x, y, 0) {
        Some(point) => point,
        // All three are on the grid.
        None => unreachable!(),
    }
}
