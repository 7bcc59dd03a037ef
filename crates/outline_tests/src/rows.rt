// Rows of numbers: two operations and three rings, and what comes of them.
ghost use Rattle.std.specs.Prelude.{◌↔◌, ◌≤◌, ◌^◌, IsTrue, length, unsigned_abs};
ghost use Rattle.std.specs.List.{All};
ghost use Rattle.outlines.specs.Places.{IsPlace};

use cross_section::{Extruded, Flat, Numbers, Outline, combine_outlines, extrude, outline_numbers};
use exact_kernels::Exact;
use mb_base::{Limits, Op, Point};
use rounding::Nearest;
use shadow_kernels::{Flats, Grid};
use std::alloc::Global;
use std::process::Abort;
use std::test::Fail;

// The size of the greatest coordinate, and the most that a number of a row has.
const END: i64 = 1 << 30;

// The value of a digit.
fn digit(byte: u8) -> Result<i64, Fail> {
    if byte < b'0' || byte > b'9' {
        return Err("no digit".into());
    }
    Ok((byte - b'0') as i64)
}

// The size of a number after one more digit.
fn grown(size: Option<i64>, byte: u8) -> Result<i64, Fail> {
    let size = size
        .unwrap_or(0)
        .wrapping_mul(10)
        .wrapping_add(digit(byte)?);
    if size > END {
        return Err("a number beyond the grid".into());
    }
    Ok(size)
}

// Adds a number of this size, above 0 or below, if one has begun.
fn push_number(numbers: &mut Vec<i64>, size: Option<i64>, is_below: bool) -> Result<(), Fail> {
    if let Some(size) = size {
        numbers.push(if is_below { size.wrapping_neg() } else { size })?;
    } else if is_below {
        return Err("a minus sign without digits".into());
    }
    Ok(())
}

// The whole numbers of a line, with blanks between them, and how many of them stand before its sign =. There is one such sign,
// after a blank.
fn numbers_of(alloc: Global, line: &str) -> Result<(Vec<i64>, usize), Fail> {
    let mut numbers = Vec::new(alloc);
    let mut before = 0usize;
    let mut size = None;
    let mut is_below = false;
    for byte in line.as_bytes() {
        if *byte == b' ' {
            push_number(&mut numbers, size, is_below)?;
            size = None;
            is_below = false;
        } else if *byte == b'=' {
            if size.is_some() || is_below || before != 0 {
                return Err("a second sign =, or one within a number".into());
            }
            before = numbers.len();
        } else if *byte == b'-' {
            if size.is_some() || is_below {
                return Err("a minus sign within a number".into());
            }
            is_below = true;
        } else {
            size = Some(grown(size, *byte)?);
        }
    }
    push_number(&mut numbers, size, is_below)?;
    Ok((numbers, before))
}

// A count as a row has it.
fn signed(rt: &impl Abort, count: u64) -> i64 {
    i64::try_from(count).expect(rt, "a count")
}

// A coordinate of a row.
fn coordinate(rt: &impl Abort, number: i64) -> i32 {
    i32::try_from(number).expect(rt, "a coordinate")
}

// The operation of a number.
fn op_of(number: i64) -> Op {
    match number {
        0 => Op::Union,
        1 => Op::Intersect,
        _ => Op::Subtract,
    }
}

// Whether a coordinate is on the grid.
fn is_on_grid(place: &[i32; 2]) -> bool
    ensures { IsTrue result ↔ IsPlace place.now }
{
    place[0].unsigned_abs() <= 1 << 30 && place[1].unsigned_abs() <= 1 << 30
}

// Whether all places are on the grid.
fn are_places(places: &[[i32; 2]]) -> bool
    ensures { IsTrue result ↔ All IsPlace places.now }
{
    places.iter().all(|place| is_on_grid(place))
}

/// The outline of one loop through these places.
pub fn ring_of(alloc: Global, places: &[[i32; 2]]) -> Result<Outline, Fail> {
    if places.len() < 3 || places.len() > 64 || !are_places(places) {
        return Err("a ring".into());
    }
    Ok(Outline::ring(alloc, places)?)
}

// The places that follow a place in a list, which says how many there are.
fn places_from(
    rt: &impl Abort,
    alloc: Global,
    numbers: &[i64],
    at: usize,
) -> Result<Vec<[i32; 2]>, Fail> {
    let mut places = Vec::new(alloc);
    if at >= numbers.len() {
        return Err("a row".into());
    }
    for [x, y] in numbers[at + 1..].as_chunks::<2>().0 {
        if places.len() as i64 == numbers[at] {
            break;
        }
        places.push([coordinate(rt, *x), coordinate(rt, *y)])?;
    }
    Ok(places)
}

// Where the list of places ends that begins at a place with how many there are.
fn end_from(rt: &impl Abort, numbers: &[i64], at: usize) -> Result<usize, Fail> {
    if at >= numbers.len() {
        return Err("a row".into());
    }
    let count = usize::try_from(numbers[at]).expect(rt, "a count");
    Ok(at.wrapping_add(1).wrapping_add(count.wrapping_mul(2)))
}

// Adds a point's x and y.
fn push_point(out: &mut Vec<i64>, point: &Point) -> Result<(), Fail> {
    let [x, y, _] = point.at();
    out.push(x as i64)?;
    out.push(y as i64)?;
    Ok(())
}

// Adds numbers, how many first.
fn push_list(rt: &impl Abort, out: &mut Vec<i64>, numbers: &[i64]) -> Result<(), Fail> {
    out.push(signed(rt, numbers.len() as u64))?;
    out.extend_from_slice(numbers)?;
    Ok(())
}

// Adds winding numbers and hits.
fn push_numbers(rt: &impl Abort, out: &mut Vec<i64>, numbers: &Numbers) -> Result<(), Fail> {
    push_list(rt, out, &numbers.w02)?;
    push_list(rt, out, &numbers.w20)?;
    out.push(signed(rt, numbers.hits.len() as u64))?;
    for hit in &numbers.hits {
        out.push(hit.p_edge as i64)?;
        out.push(hit.q_edge as i64)?;
        out.push(hit.number as i64)?;
        push_point(out, &hit.at)?;
    }
    Ok(())
}

// Adds an outline's points and loops.
fn push_outline(rt: &impl Abort, out: &mut Vec<i64>, outline: &Outline) -> Result<(), Fail> {
    out.push(signed(rt, outline.points().len() as u64))?;
    for point in outline.points() {
        push_point(out, point)?;
    }
    out.push(signed(rt, outline.loops().len() as u64))?;
    for ring in outline.loops() {
        out.push(signed(rt, ring.vertices().len() as u64))?;
        for vertex in ring.vertices() {
            out.push(*vertex as i64)?;
        }
    }
    Ok(())
}

// Adds what an operation gave.
fn push_flat(rt: &impl Abort, out: &mut Vec<i64>, flat: &Flat) -> Result<(), Fail> {
    out.push(signed(rt, flat.kept[0]))?;
    out.push(signed(rt, flat.kept[1]))?;
    out.push(signed(rt, flat.crossings))?;
    push_outline(rt, out, &flat.outline)
}

// Adds the triangles of a solid.
fn push_solid(rt: &impl Abort, out: &mut Vec<i64>, solid: &Extruded) -> Result<(), Fail> {
    out.push(signed(rt, solid.forced))?;
    out.push(signed(rt, solid.mesh.triples().len() as u64))?;
    for [a, b, c] in solid.mesh.triples() {
        out.push(*a as i64)?;
        out.push(*b as i64)?;
        out.push(*c as i64)?;
    }
    Ok(())
}

// The ring whose places a list tells from a place on.
fn ring_at(rt: &impl Abort, alloc: Global, numbers: &[i64], at: usize) -> Result<Outline, Fail> {
    ring_of(alloc, &places_from(rt, alloc, numbers, at)?)
}

// What the operations on three rings give, in numbers.
fn given<K: Flats>(
    rt: &impl Abort,
    alloc: Global,
    row: &[i64],
    kernels: &K,
) -> Result<Vec<i64>, Fail> {
    if row.len() < 6 {
        return Err("a row".into());
    }
    let second = end_from(rt, row, 3)?;
    let third = end_from(rt, row, second)?;
    if end_from(rt, row, third)? != row.len() {
        return Err("a row".into());
    }
    let first = first_two(rt, alloc, row, second, kernels)?;
    let last = ring_at(rt, alloc, row, third)?;
    told(rt, alloc, op_of(row[1]), &first.outline, &last, kernels)
}

// What the first operation gives on the first ring and the second.
fn first_two<K: Flats>(
    rt: &impl Abort,
    alloc: Global,
    row: &[i64],
    second: usize,
    kernels: &K,
) -> Result<Flat, Fail> {
    if row.is_empty() {
        return Err("a row".into());
    }
    let p = ring_at(rt, alloc, row, 3)?;
    let q = ring_at(rt, alloc, row, second)?;
    combined(alloc, op_of(row[0]), &p, &q, kernels)
}

// An operation under the program's limits.
fn combined<K: Flats>(
    alloc: Global,
    op: Op,
    p: &Outline,
    q: &Outline,
    kernels: &K,
) -> Result<Flat, Fail> {
    match combine_outlines(alloc, op, p, q, kernels, &Nearest, &Limits::program()) {
        Ok(flat) => Ok(flat),
        Err(_) => Err("combined".into()),
    }
}

// What an operation and an extrusion give, in numbers.
fn told<K: Flats>(
    rt: &impl Abort,
    alloc: Global,
    op: Op,
    p: &Outline,
    q: &Outline,
    kernels: &K,
) -> Result<Vec<i64>, Fail> {
    let mut out = Vec::new(alloc);
    push_numbers(
        rt,
        &mut out,
        &outline_numbers(alloc, op, p, q, kernels, &Nearest)?,
    )?;
    let flat = combined(alloc, op, p, q, kernels)?;
    push_made(rt, alloc, &mut out, &flat)?;
    Ok(out)
}

// Adds what an operation gave, and the solid of it.
fn push_made(rt: &impl Abort, alloc: Global, out: &mut Vec<i64>, flat: &Flat) -> Result<(), Fail> {
    push_flat(rt, out, flat)?;
    push_solid(rt, out, &extruded(alloc, &flat.outline)?)
}

// The solid from -1 to 4.
fn extruded(alloc: Global, outline: &Outline) -> Result<Extruded, Fail> {
    match extrude(alloc, outline, -1, 4, &Limits::program()) {
        Ok(solid) => Ok(solid),
        Err(_) => Err("extruded".into()),
    }
}

/// Whether a row gives what it tells.
pub fn agrees(rt: &impl Abort, alloc: Global, line: &str) -> Result<bool, Fail> {
    let (numbers, before) = numbers_of(alloc, line)?;
    if before < 3 || before > numbers.len() {
        return Err("a row".into());
    }
    let (row, wanted) = numbers.split_at(before);
    let found = found_of(rt, alloc, row)?;
    Ok(found.as_slice() == wanted)
}

// What a row's operations give under its kernels.
fn found_of(rt: &impl Abort, alloc: Global, row: &[i64]) -> Result<Vec<i64>, Fail> {
    if row.len() < 6 {
        return Err("a row".into());
    }
    if row[2] == 0 {
        given(rt, alloc, row, &Grid { rounding: Nearest })
    } else {
        given(rt, alloc, row, &Exact { rounding: Nearest })
    }
}
