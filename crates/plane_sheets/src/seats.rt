// Edges by the heights of their middles.
ghost use Rattle.std.specs.Prelude.{◌≡◌, ◌<◌, ◌≤◌, ◌+ℤ◌, IfOk, length, map};
ghost use Rattle.std.specs.List.{All};
ghost use Rattle.std.specs.List.Sorted.{IsPermutation};
ghost use Rattle.chain_terms.specs.Sums.{upto};
ghost use Rattle.plane_sheets.specs.Sided.{seat_numbers};

use crate::edge_ends::ends_at;
use box_tree::MOST_BOXES;
use face_plane::FlatPoint;
use mb_base::NoMemory;
use plane_chains::FlatPlaces;
use std::alloc::Global;

/// An edge by its number, with the doubled height of its middle.
#[derive(Clone, Copy, Debug, PartialEq, Eq, Drop)]
pub struct Seat {
    pub height: i64,
    pub number: u32,
}

/// All edges, those with middles of one height together.
pub fn seats_of(alloc: Global, flat: FlatPlaces, edges: &[[u32; 2]]) -> Result<Vec<Seat>, NoMemory>
    requires places { All (λ e. All (λ v. v < length flat.points.now) e) edges.now }
    requires few { length edges.now ≤ MOST_BOXES }
    ensures { IfOk result (λ order. IsPermutation (upto (length edges.now)) (seat_numbers order.items)) }
{
    let mut order = seats(alloc, flat, edges)?;
    order.sort_by_key(|each: &Seat| each.height)?;
    Ok(order)
}

// All edges in their own order.
fn seats(alloc: Global, flat: FlatPlaces, edges: &[[u32; 2]]) -> Result<Vec<Seat>, NoMemory>
    requires places { All (λ e. All (λ v. v < length flat.points.now) e) edges.now }
    requires few { length edges.now ≤ MOST_BOXES }
    ensures { IfOk result (λ order. seat_numbers order.items ≡ upto (length edges.now)) }
{
    let mut order = Vec::with_capacity(alloc, edges.len())?;
    for number in 0..edges.len() {
        let (a, b) = ends_at(flat, edges, number);
        order.push(Seat {
            height: middle_height(a, b),
            number: number as u32,
        })?;
    }
    Ok(order)
}

/// The height of the middle of the segment from a to b, doubled.
pub fn middle_height(a: FlatPoint, b: FlatPoint) -> i64
    ensures { result ≡ a.1 +ℤ b.1 }
{
    a.v() + b.v()
}
