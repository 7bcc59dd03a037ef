// The edges of a side, in an order in which the loops that follow one another lie near each other.
ghost use Rattle.std.specs.Prelude.{◌≡◌, IfOk, length, map};
ghost use Rattle.std.specs.List.{All};
ghost use Rattle.std.specs.List.Sorted.{IsPermutation};
ghost use Rattle.outline_terms.specs.Outlines.{IsBetween};
ghost use Rattle.cross_section.specs.Order.{edge_in};

use mb_base::{Corner, NoMemory};
use std::alloc::Global;

/// An edge with its place among all, and with where its loop begins on a curve through the plane. Such values compare by the curve, and then by place.
#[derive(Clone, Copy, Debug, PartialEq, Eq, PartialOrd, Ord, Drop)]
pub struct Placed {
    pub key: u64,
    pub place: usize,
    pub from: u32,
    pub to: u32,
}

/// The edges loop after loop, as they are, the loops by where they begin on a curve that fills the plane square after square. The time is that of a sort.
pub fn nearby(
    alloc: Global,
    corners: &[Corner],
    edges: &[(u32, u32)],
) -> Result<Vec<(u32, u32)>, NoMemory>
    requires { All (IsBetween (length corners.now)) edges.now }
    ensures { IfOk result (λ near. IsPermutation edges.now near.items) }
{
    let mut order = with_places(alloc, corners, edges)?;
    order.sort_unstable();
    edges_in(alloc, &order)
}

// The edges alone.
fn edges_in(alloc: Global, order: &[Placed]) -> Result<Vec<(u32, u32)>, NoMemory>
    ensures { IfOk result (λ edges. edges.items ≡ map edge_in order.now) }
{
    let mut edges = Vec::new(alloc);
    for edge in order {
        edges.push((edge.from, edge.to))?;
    }
    Ok(edges)
}

// The edges with their places and with where their loops begin.
fn with_places(
    alloc: Global,
    corners: &[Corner],
    edges: &[(u32, u32)],
) -> Result<Vec<Placed>, NoMemory>
    requires { All (IsBetween (length corners.now)) edges.now }
    ensures { IfOk result (λ all. map edge_in all.items ≡ edges.now) }
{
    let mut all = Vec::new(alloc);
    let mut key = 0;
    let mut end = None;
    for edge in edges {
        let (from, to) = *edge;
        if end != Some(from) {
            key = along_curve(&corners[from as usize]);
        }
        end = Some(to);
        let place = all.len();
        all.push(Placed {
            key,
            place,
            from,
            to,
        })?;
    }
    Ok(all)
}

// Where a corner lies on the curve: the bits of its coordinates in turn, x and y.
fn along_curve(corner: &Corner) -> u64 {
    apart(steps(corner.at[0])) << 1 | apart(steps(corner.at[1]))
}

// A coordinate as a number below 2^32, which tells some 128 fine steps apart: those of the grid lie between -2^38 and 2^38.
fn steps(at: i64) -> u64 {
    at.abs_diff(-(1 << 38)) >> 7 & 0xFFFF_FFFF
}

// A number below 2^32 with a 0 before each of its bits.
fn apart(number: u64) -> u64 {
    let by_16 = (number | number << 16) & 0x0000_FFFF_0000_FFFF;
    let by_8 = (by_16 | by_16 << 8) & 0x00FF_00FF_00FF_00FF;
    let by_4 = (by_8 | by_8 << 4) & 0x0F0F_0F0F_0F0F_0F0F;
    let by_2 = (by_4 | by_4 << 2) & 0x3333_3333_3333_3333;
    (by_2 | by_2 << 1) & 0x5555_5555_5555_5555
}
