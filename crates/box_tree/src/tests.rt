// Trees over boxes that lie in memory.
ghost use Rattle.std.specs.Prelude.{◌≤◌, ◌<◌, length, IfOk};
ghost use Rattle.std.specs.List.{All};
ghost use Rattle.box_tree.specs.Touching.{IsBox};

use crate::Tree;
use crate::extent::quantization_of;
use crate::keys::keys_of;
use mb_base::Box3;
use std::alloc::Global;
use std::test::Fail;

// The first two have a corner in common; a coordinate of the last one is no i32.
const BOXES: [Box3; 3] = [
    Box3 {
        low: [0, 0, 0],
        high: [4, 4, 4],
    },
    Box3 {
        low: [4, 4, 4],
        high: [8, 9, 10],
    },
    Box3 {
        low: [9, 9, 0],
        high: [9, 9, 1 << 40],
    },
];

// The numbers of the boxes that touch an area, ascending.
fn found(alloc: Global, tree: &Tree, area: Box3) -> Result<Vec<u32>, Fail> {
    let mut numbers = Vec::new(alloc);
    for number in tree.touching(area) {
        numbers.push(number)?;
    }
    numbers.sort_unstable();
    Ok(numbers)
}

#[test]
fn boxes_are_found_by_an_area(rt: HostRuntime) -> Result<(), Fail> {
    let tree = Tree::build(rt.alloc(), &BOXES)?;
    let corner = Box3 {
        low: [4, 4, 4],
        high: [4, 4, 4],
    };
    assert_eq!(rt;
        found(rt.alloc(), &tree, corner)?.as_slice(),
        [0, 1].as_slice()
    );
    let far = Box3 {
        low: [8, 8, 1 << 40],
        high: [9, 9, 1 << 41],
    };
    assert_eq!(rt; found(rt.alloc(), &tree, far)?.as_slice(), [2].as_slice());
    Ok(())
}

// Ten blocks and a half.
const COUNT: u32 = 168;

// The box at a place of a line. Those at two places do not touch.
fn box_at(place: u32) -> Box3
    ensures { IsBox result }
{
    let low = i64::from(place) * 8;
    Box3 {
        low: [low, 0, 0],
        high: [low + 2, 2, 2],
    }
}

// The place of a box on a line: those before a number stand in order, and the others with far steps between them.
fn place_of(number: u32, ordered: u32) -> u32 {
    if number < ordered || COUNT <= ordered {
        number
    } else {
        ordered + number.wrapping_mul(17) % (COUNT - ordered)
    }
}

// Boxes on a line, those before a number in order.
fn line(alloc: Global, ordered: u32) -> Result<Vec<Box3>, Fail>
    ensures few { IfOk result (λ boxes. length boxes.items ≤ 168) }
    ensures boxes { IfOk result (λ boxes. All IsBox boxes.items) }
{
    let mut boxes = Vec::new(alloc);
    for number in 0..COUNT {
        boxes.push(box_at(place_of(number, ordered)))?;
    }
    Ok(boxes)
}

// Whether a tree over the boxes of a line finds all of them, and each by itself.
fn all_are_found(alloc: Global, ordered: u32) -> Result<bool, Fail> {
    let boxes = line(alloc, ordered)?;
    let tree = Tree::build(alloc, &boxes)?;
    let mut each = Vec::new(alloc);
    for area in &boxes {
        for number in tree.touching(*area) {
            each.push(number)?;
        }
    }
    let around = Box3 {
        low: [0, 0, 0],
        high: [2_000, 2, 2],
    };
    let all = found(alloc, &tree, around)?;
    Ok(each.iter().copied().eq(0..COUNT) && all.iter().copied().eq(0..COUNT))
}

// The box at a place of a line, or its lowest corner.
fn box_or_point(place: u32, is_point: bool) -> Box3
    ensures { IsBox result }
{
    let Box3 { low, high } = box_at(place);
    if is_point {
        Box3 { low, high: low }
    } else {
        Box3 { low, high }
    }
}

// Boxes on a line, as many as a block has, the first ones single points.
fn run_with_points(alloc: Global, points: u32) -> Result<Vec<Box3>, Fail>
    ensures few { IfOk result (λ boxes. length boxes.items ≤ 168) }
    ensures boxes { IfOk result (λ boxes. All IsBox boxes.items) }
{
    let mut boxes = Vec::new(alloc);
    for number in 0..16 {
        boxes.push(box_or_point(number, number < points))?;
    }
    Ok(boxes)
}

// A run keeps together with four boxes that have too little of its surface, and not with five.
#[test]
fn a_run_keeps_together_with_four_points(rt: HostRuntime) -> Result<(), Fail> {
    for (points, runs) in [(0, 1), (4, 1), (5, 0), (16, 0)] {
        let boxes = run_with_points(rt.alloc(), points)?;
        let keys = keys_of(rt.alloc(), &boxes.as_slice(), 0)?;
        assert!(rt; keys.runs.len() == runs);
    }
    Ok(())
}

#[test]
fn keys_stand_for_runs_or_single_boxes(rt: HostRuntime) -> Result<(), Fail> {
    for (ordered, runs) in [(COUNT, 10), (80, 5), (0, 0)] {
        let boxes = line(rt.alloc(), ordered)?;
        let keys = keys_of(rt.alloc(), &boxes.as_slice(), 0)?;
        assert!(rt; keys.runs.len() == runs);
        assert!(rt; all_are_found(rt.alloc(), ordered)?);
    }
    Ok(())
}

// Flat boxes side by side along x, each of which begins where the one before ends: how many, where the first begins, their width and height.
type Row = (u8, i64, i64, i64);

const MIDDLE: i64 = 715_827_882 << 8;

const FAR: i64 = 0x7fff_ffff << 8;

// Rows, with the power of two of their coarse steps, and whether those lose nothing: small coordinates; multiples of 256 up to 2^38;
// such of which one is a multiple of 128 alone; rows with more zero bits along x than along y, with many, and with nearly all; the last
// i32 but one, and the last, in steps of 256.
const ROWS: [(Row, u32, bool); 8] = [
    ((12, -6, 1, 5), 0, true),
    ((16, -(1 << 38), 1 << 35, 256), 8, true),
    ((16, -(1 << 38), 1 << 35, 128), 8, false),
    ((16, -(1 << 38), 1 << 35, 3 << 20), 20, true),
    ((16, -(1 << 38), 1 << 35, 1 << 33), 33, true),
    ((16, -(1 << 62), 1 << 59, 1 << 59), 59, true),
    ((6, -3 * MIDDLE, MIDDLE, 256), 8, true),
    ((2, -FAR, FAR, 256), 8, false),
];

// Where a box of a row begins.
fn begin_of(row: &Row, place: u8) -> i64 {
    let (_, first, width, _) = *row;
    first.wrapping_add(width.wrapping_mul(i64::from(place)))
}

// The boxes of a row.
fn boxes_of_row(alloc: Global, row: &Row) -> Result<Vec<Box3>, Fail>
    ensures few { IfOk result (λ boxes. length boxes.items ≤ 255) }
    ensures boxes { IfOk result (λ boxes. All IsBox boxes.items) }
{
    let (count, _, width, height) = *row;
    let mut boxes = Vec::new(alloc);
    for place in 0..count {
        boxes.push(flat(begin_of(row, place), width, height))?;
    }
    Ok(boxes)
}

// A flat box that begins at a number, with a width and a height.
fn flat(low: i64, width: i64, height: i64) -> Box3
    ensures { IsBox result }
{
    let high = low.max(low.wrapping_add(width));
    Box3 {
        low: [low, 0, 0],
        high: [high, height.max(0), 0],
    }
}

// Whether a box and an area have a number in common on an axis.
fn overlap(one: &Box3, area: &Box3, axis: usize) -> bool
    requires { axis < 3 }
{
    let (from, to) = (area.low[axis], area.high[axis]);
    from <= to && one.low[axis] <= to && from <= one.high[axis]
}

// The numbers of the boxes that touch an area, where each of them is looked at.
fn looked_up(alloc: Global, boxes: &[Box3], area: &Box3) -> Result<Vec<u32>, Fail> {
    let mut numbers = Vec::new(alloc);
    for (one, number) in boxes.iter().zip(0..) {
        if overlap(one, area, 0) && overlap(one, area, 1) && overlap(one, area, 2) {
            numbers.push(number)?;
        }
    }
    Ok(numbers)
}

// Whether a tree finds the boxes that touch an area.
fn finds(alloc: Global, tree: &Tree, boxes: &[Box3], area: Box3) -> Result<bool, Fail> {
    let wanted = looked_up(alloc, boxes, &area)?;
    Ok(found(alloc, tree, area)?.as_slice() == wanted.as_slice())
}

// Where areas begin and end along x, from the begin of a box on.
const BETWEEN: [(i64, i64); 9] = [
    (0, 0),
    (-1, -1),
    (1, 1),
    (-1, 0),
    (0, 1),
    (1, 255),
    (-255, -1),
    (1, -1),
    (-1_000, 1_000),
];

// Whether a tree finds the boxes of a row by areas about the begin of each box, with ends at any fine steps, and by areas that reach
// as far as numbers do.
fn row_is_found(alloc: Global, row: &Row, y: i64) -> Result<bool, Fail> {
    let boxes = boxes_of_row(alloc, row)?;
    let tree = Tree::build(alloc, &boxes)?;
    let mut all = true;
    for place in 0..=row.0 {
        let begin = begin_of(row, place);
        for (from, to) in BETWEEN {
            let area = plate(begin.wrapping_add(from), begin.wrapping_add(to), y);
            all = all && finds(alloc, &tree, &boxes, area)?;
        }
        for (low, high) in [
            (i64::MIN, begin.wrapping_sub(1)),
            (begin.wrapping_add(1), i64::MAX),
        ] {
            all = all && finds(alloc, &tree, &boxes, plate(low, high, y))?;
        }
    }
    for (low, high) in [
        (i64::MIN, i64::MIN),
        (i64::MIN, i64::MAX),
        (i64::MAX, i64::MAX),
    ] {
        all = all && finds(alloc, &tree, &boxes, plate(low, high, y))?;
    }
    Ok(all)
}

// An area from a number along x to another, at some y.
fn plate(from: i64, to: i64, y: i64) -> Box3 {
    Box3 {
        low: [from, y, 0],
        high: [to, y, 0],
    }
}

#[test]
fn boxes_are_found_at_any_scale(rt: HostRuntime) -> Result<(), Fail> {
    for (row, shift, exact) in ROWS {
        let boxes = boxes_of_row(rt.alloc(), &row)?;
        let quantization = quantization_of(&boxes.as_slice());
        assert!(rt; quantization.shift == shift && quantization.exact == exact);
        for y in [0, 1, row.3, row.3.wrapping_add(1)] {
            assert!(rt; row_is_found(rt.alloc(), &row, y)?, "at {y}");
        }
    }
    Ok(())
}
