// What numbers prescribe, on boxes and on pairs of small meshes.
mod table;
pub(crate) mod text;

use crate::handed::are_of_sides;
use crate::rows::{Kind, expect_rows};
use lean::Side;
use mb_base::{Limits, Op};
use mesh_check::Mesh;
use retained_verts::{PrescribeFault, Prescribed, prescribe};
use std::alloc::Global;
use std::process::Abort;
use table::PAIRS;
use test_tables::{POST_IN_BOX, plain_side, read_meshes, read_numbers, read_pair};
use text::text_of;

// What the numbers of a line prescribe for two sides.
fn answer_of_sides(
    rt: &impl Abort,
    alloc: Global,
    op: Op,
    p: &Side,
    q: &Side,
    numbers: &str,
    limits: &Limits,
) -> Result<Prescribed, PrescribeFault> {
    let (windings, hits) = read_numbers(alloc, numbers).expect(rt, "numbers");
    assert!(rt; are_of_sides(p, q, &windings, &hits));
    prescribe(alloc, op, p, q, &windings, &hits, limits)
}

// What they prescribe for two meshes without marks.
fn answer(
    rt: &impl Abort,
    alloc: Global,
    op: Op,
    p: &Mesh,
    q: &Mesh,
    numbers: &str,
    limits: &Limits,
) -> Result<Prescribed, PrescribeFault> {
    let p = plain_side(alloc, p).expect(rt, "the first side");
    let q = plain_side(alloc, q).expect(rt, "the second side");
    answer_of_sides(rt, alloc, op, &p, &q, numbers, limits)
}

/// Compares what a pair prescribes with the line of a table.
pub fn expect_line(rt: &impl Abort, alloc: Global, meshes: &str, numbers: &str, expected: &str) {
    let (op, p, q) = read_pair(alloc, meshes).expect(rt, "a pair");
    let all = answer(rt, alloc, op, &p, &q, numbers, &Limits::program());
    let text = text_of(alloc, &all.expect(rt, "few half-edges")).expect(rt, "a text");
    assert_eq!(rt; text.as_str(), expected, "{meshes}");
}

#[test]
fn agrees_with_the_table(rt: HostRuntime) {
    expect_rows(&rt, rt.alloc(), &Kind::Prescribed, PAIRS, 60);
}

// The numbers of the box and the post.
const NUMBERS: &str =
    "00000000 11110000 84144a 86-166a | d2154a e3-134a f2164a j3167a k2-165a p3137a q3-157a w3-135a";

// Whether what is prescribed is within its limits, and the counts, or the half-edges alone where they are too many.
fn counts_of(all: &Result<Prescribed, PrescribeFault>) -> (bool, [u64; 4]) {
    match all {
        Ok(all) => (
            true,
            [all.kept[0], all.kept[1], all.crossings, all.halfedges],
        ),
        Err(PrescribeFault::TooLarge { seen }) => (false, [0, 0, 0, *seen]),
        Err(PrescribeFault::NoMemory) => (false, [0; 4]),
    }
}

// That of the boxes for an operation, with as many half-edges at most.
fn boxes(rt: &impl Abort, alloc: Global, op: Op, halfedges: u32) -> (bool, [u64; 4]) {
    let limits = Limits::of(1 << 31, 15_000_000, 10_000_000, halfedges).expect(rt, "limits");
    let (p, q) = read_meshes(alloc, POST_IN_BOX).expect(rt, "two meshes");
    counts_of(&answer(rt, alloc, op, &p, &q, NUMBERS, &limits))
}

// The counts at limits that are just enough, and the half-edges below them.
const COUNTS: [(Op, u32, bool, [u64; 4]); 6] = [
    (Op::Union, 84, true, [8, 4, 10, 84]),
    (Op::Intersect, 48, true, [0, 4, 10, 48]),
    (Op::Subtract, 84, true, [8, 4, 10, 84]),
    (Op::Union, 83, false, [0, 0, 0, 84]),
    (Op::Intersect, 47, false, [0, 0, 0, 48]),
    (Op::Subtract, 0, false, [0, 0, 0, 84]),
];

#[test]
fn a_post_in_a_box_is_counted(rt: HostRuntime) {
    for (op, halfedges, is_within, wanted) in COUNTS {
        let (within, counts) = boxes(&rt, rt.alloc(), op, halfedges);
        assert!(rt; within == is_within && counts == wanted, "at {halfedges}");
    }
}

// The union of two boxes apart.
const APART: &str = "union 000a000a0aa000aa0a0aaaaa 031023457476014154137175326367046062 \
k00u00ka0ua0k0au0akaauaa 031023457476014154137175326367046062";

// All vertices of both once, then the crossing.
const TWICE: &str = "8 8 2 78 p0000 p1a00 p20a0 p3aa0 p400a p5a0a p60aa p7aaa \
q0k00 q1u00 q2ka0 q3ua0 q4k0a q5u0a q6kaa q7uaa e00123 e00123";

#[test]
fn a_crossing_of_number_2_is_listed_twice(rt: HostRuntime) {
    let numbers = "00000000 00000000 002123 |";
    expect_line(&rt, rt.alloc(), APART, numbers, TWICE);
}
