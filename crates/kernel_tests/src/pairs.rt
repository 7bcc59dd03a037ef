// Two boxes, worked out by a separate program in Python that was written from the definitions alone.
use crate::boxes::{Span, boxes_of, plain_boxes};
use crossings::crossings;
use lean::Side;
use mb_base::{Hit, Op};
use rounding::Nearest;
use shadow_kernels::Grid;
use std::alloc::Global;
use std::test::Fail;
use test_tables::marked_side;

const CUBE: Span = [[0; 3], [10; 3]];

const POST: Span = [[3, 4, 5], [6, 7, 20]];

// Boxes as the first mesh of a union, with its marks.
fn first_side(alloc: Global, spans: &[Span]) -> Result<Side, Fail> {
    let mesh = boxes_of(alloc, spans)?;
    Ok(marked_side(alloc, &mesh, Op::Union)?)
}

// A hit: edge, face, number and the coordinates of the point.
type Row = [i64; 6];

fn is_row(hit: &Hit, row: &Row) -> bool {
    let [edge, face, number, x, y, z] = *row;
    let [u, v, w] = hit.at.at();
    i64::from(hit.edge) == edge
        && i64::from(hit.face) == face
        && i64::from(hit.number) == number
        && i64::from(u) == x
        && i64::from(v) == y
        && i64::from(w) == z
}

fn are_rows(hits: &[Hit], rows: &[Row]) -> bool {
    if hits.len() != rows.len() {
        return false;
    }
    for (hit, row) in hits.iter().zip(rows) {
        if !is_row(hit, row) {
            return false;
        }
    }
    true
}

// Whether these boxes cross so: the hits of the edges of the first, and those of the second.
fn crossing_at(
    alloc: Global,
    first: &[Span],
    second: &[Span],
    x12: &[Row],
    x21: &[Row],
) -> Result<bool, Fail> {
    let p = first_side(alloc, first)?;
    let q = plain_boxes(alloc, second)?;
    let hits = crossings(alloc, &p, &q, &Grid { rounding: Nearest })?;
    Ok(are_rows(&hits.x12, x12) && are_rows(&hits.x21, x21))
}

// A post that stands through the top of a cube: the diagonal of the top runs through two walls of the post, and the
// post's edges and the diagonals of its walls run through the top.
const TOP: [Row; 2] = [[8, 4, 1, 4, 4, 10], [8, 6, -1, 6, 6, 10]];

const WALLS: [Row; 8] = [
    [13, 2, 1, 5, 4, 10],
    [14, 3, -1, 3, 4, 10],
    [15, 2, 1, 6, 4, 10],
    [19, 3, 1, 6, 7, 10],
    [20, 2, -1, 6, 5, 10],
    [25, 3, 1, 3, 7, 10],
    [26, 3, -1, 5, 7, 10],
    [32, 3, -1, 3, 5, 10],
];

#[test]
fn a_post_crosses_the_top_of_a_cube(rt: HostRuntime) -> Result<(), Fail> {
    assert!(rt; crossing_at(rt.alloc(), &[CUBE], &[POST], &TOP, &WALLS)?);
    Ok(())
}

// The same post after two boxes that are near nothing, so that the first 16 of its 36 triangles are passed over, and the
// last 4 are asked: its edges have the numbers from 72 on, its faces those from 24 on.
const AFTER_TWO: [Span; 3] = [[[50; 3], [60; 3]], [[70; 3], [80; 3]], POST];

const TOP_AFTER_TWO: [Row; 2] = [[8, 28, 1, 4, 4, 10], [8, 30, -1, 6, 6, 10]];

const WALLS_AFTER_TWO: [Row; 8] = [
    [85, 2, 1, 5, 4, 10],
    [86, 3, -1, 3, 4, 10],
    [87, 2, 1, 6, 4, 10],
    [91, 3, 1, 6, 7, 10],
    [92, 2, -1, 6, 5, 10],
    [97, 3, 1, 3, 7, 10],
    [98, 3, -1, 5, 7, 10],
    [104, 3, -1, 3, 5, 10],
];

#[test]
fn boxes_far_away_change_no_hit(rt: HostRuntime) -> Result<(), Fail> {
    assert!(rt;
        crossing_at(
            rt.alloc(),
            &[CUBE],
            &AFTER_TWO,
            &TOP_AFTER_TWO,
            &WALLS_AFTER_TWO
        )?
    );
    Ok(())
}

// The first is grown, so nothing crosses.
#[test]
fn a_cube_does_not_cross_itself(rt: HostRuntime) -> Result<(), Fail> {
    assert!(rt; crossing_at(rt.alloc(), &[CUBE], &[CUBE], &[], &[])?);
    Ok(())
}
