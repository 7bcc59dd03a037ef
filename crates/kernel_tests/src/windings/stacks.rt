// Stacks of plates, those of one between those of the other, and boxes round some of them. Over most plates lie more faces
// than a sum asks at once, so their numbers come from the plates before.
ghost use Rattle.std.specs.Prelude.{◌≡◌, ◌<◌};

use super::numbers::numbers_of;
use crate::boxes::{Span, boxes_of};
use edge_face::Kernels;
use exact_kernels::Exact;
use mb_base::{Op, Windings};
use mesh_check::Mesh;
use rounding::Nearest;
use shadow_kernels::Grid;
use std::alloc::Global;
use std::marker::Brand;
use std::sync::ledger::{Blank, Ledger};
use std::test::Fail;
use test_tables::{marked_side, plain_side};

// How many plates a stack has.
const PLATES: i32 = 12;

// The lowest plate of either stack. Each next one lies 20 higher.
const FIRST: Span = [[0, 0, 0], [100, 100, 5]];

const SECOND: Span = [[0, 0, 10], [70, 70, 15]];

// Boxes round the plates 3 to 6 of either stack, and 4 and 5.
const ROUND: Span = [[-9, -9, 57], [200, 200, 138]];

const INNER: Span = [[-5, -5, 78], [120, 120, 117]];

// The boxes of the second stack beside its plates, the winding numbers of the first stack's plates, and of the second's.
const ROWS: [(&[Span], [i64; 12]); 3] = [
    (&[], [0, 0, 0, 0, 0, 0, 0, 0, 0, 0, 0, 0]),
    (&[ROUND], [0, 0, 0, 1, 1, 1, 1, 0, 0, 0, 0, 0]),
    (&[INNER, ROUND], [0, 0, 0, 1, 2, 2, 1, 0, 0, 0, 0, 0]),
];

// A stack of plates, and then boxes.
fn stack(alloc: Global, lowest: Span, boxes: &[Span]) -> Result<Mesh, Fail> {
    let [[x, y, z], [u, v, w]] = lowest;
    let mut spans = Vec::new(alloc);
    for plate in 0..PLATES {
        let rise = plate.wrapping_mul(20);
        spans.push([[x, y, z.wrapping_add(rise)], [u, v, w.wrapping_add(rise)]])?;
    }
    for span in boxes {
        spans.push(*span)?;
    }
    boxes_of(alloc, &spans)
}

// The winding numbers of two stacks.
fn stacked<K: Kernels, L: Ledger>(
    alloc: Global,
    p: &Mesh,
    q: &Mesh,
    kernels: &K,
    blank: Blank,
) -> Result<Windings, Fail>
    requires name { blank.name ≡ L.name }
    requires parts { blank.parts ≡ L.parts }
    requires some { 0 < blank.parts }
{
    let p = marked_side(alloc, p, Op::Union)?;
    let q = plain_side(alloc, q)?;
    let (_, windings) = numbers_of::<K, L>(alloc, &p, &q, kernels, blank)?;
    Ok(windings)
}

// Whether the corners of the plates have these numbers, eight each.
fn have(corners: &[i64], plates: &[i64; 12]) -> bool {
    for plate in 0..12 {
        for corner in 0..8 {
            if corners.get(8 * plate + corner) != Some(&plates[plate]) {
                return false;
            }
        }
    }
    true
}

// Whether a stack has these numbers in the other, under the kernels, and so with the two exchanged.
fn row_holds<K: Kernels>(
    alloc: Global,
    plates: &Mesh,
    others: &Mesh,
    numbers: &[i64; 12],
    kernels: &K,
) -> Result<bool, Fail> {
    let ahead = stacked::<K, Brand>(alloc, plates, others, kernels, Blank::new(1))?;
    let back = stacked::<K, Brand>(alloc, others, plates, kernels, Blank::new(1))?;
    Ok(have(&ahead.w03, numbers) && have(&back.w30, numbers))
}

// Whether the first stack has these numbers in the second with these boxes.
fn boxes_hold<K: Kernels>(
    alloc: Global,
    boxes: &[Span],
    numbers: &[i64; 12],
    kernels: &K,
) -> Result<bool, Fail> {
    let plates = stack(alloc, FIRST, &[])?;
    let others = stack(alloc, SECOND, boxes)?;
    row_holds(alloc, &plates, &others, numbers, kernels)
}

// Whether the rows hold under the kernels.
fn rows_hold<K: Kernels>(
    alloc: Global,
    rows: &[(&[Span], [i64; 12])],
    kernels: &K,
) -> Result<bool, Fail> {
    for (boxes, numbers) in rows {
        if !boxes_hold(alloc, boxes, numbers, kernels)? {
            return Ok(false);
        }
    }
    Ok(true)
}

#[test]
fn plates_between_plates(rt: HostRuntime) -> Result<(), Fail> {
    let rounding = Nearest;
    assert!(rt; rows_hold(rt.alloc(), &ROWS, &Grid { rounding })?);
    assert!(rt; rows_hold(rt.alloc(), &ROWS, &Exact { rounding })?);
    Ok(())
}
