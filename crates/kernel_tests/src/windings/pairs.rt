// The hits and winding numbers of pairs of meshes, against those of an independent reference program.
use super::numbers::numbers_of;
use super::table::{FIRST_PAIRS, SECOND_PAIRS};
use lean::Side;
use mb_base::Op;
use mesh_check::Mesh;
use rounding::{Low, Nearest, Rounding};
use shadow_kernels::Grid;
use std::alloc::Global;
use std::marker::Brand;
use std::process::Abort;
use std::sync::ledger::Blank;
use std::test::Fail;
use test_tables::{POST_IN_BOX, marked_side, plain_side, read_meshes, read_pair, write_numbers};

// The answers of two sides, as the table writes them.
fn answers_of<R: Rounding + Copy>(
    alloc: Global,
    p: &Side,
    q: &Side,
    rounding: R,
) -> Result<String, Fail> {
    let kernels = Grid { rounding };
    let (hits, windings) = numbers_of::<Grid<R>, Brand>(alloc, p, q, &kernels, Blank::new(1))?;
    Ok(write_numbers(alloc, &windings, &hits)?)
}

// Whether two sides have these answers, to the nearest and low.
fn have_answers(alloc: Global, p: &Side, q: &Side, nearest: &str, low: &str) -> Result<bool, Fail> {
    let answers = answers_of(alloc, p, q, Nearest)?;
    let low_answers = answers_of(alloc, p, q, Low)?;
    Ok(answers.as_str() == nearest && low_answers.as_str() == low)
}

// Whether the sides of two meshes, the first with the marks of an operation, have these answers.
fn meshes_have_answers(
    alloc: Global,
    op: Op,
    p: &Mesh,
    q: &Mesh,
    nearest: &str,
    low: &str,
) -> Result<bool, Fail> {
    let p = marked_side(alloc, p, op)?;
    let q = plain_side(alloc, q)?;
    have_answers(alloc, &p, &q, nearest, low)
}

// Whether the meshes of a line have these answers.
fn line_has_answers(alloc: Global, line: &str, nearest: &str, low: &str) -> Result<bool, Fail> {
    let (op, p, q) = read_pair(alloc, line)?;
    meshes_have_answers(alloc, op, &p, &q, nearest, low)
}

// Compares the answers with those of a table of a hundred pairs.
fn expect_answers(rt: &impl Abort, alloc: Global, table: &str) -> Result<(), Fail> {
    let mut lines = table.lines();
    for _ in 0..100 {
        let line = lines.next().ok_or("no pair")?;
        let nearest = lines.next().ok_or("no answers")?;
        let low = lines.next().ok_or("no answers")?;
        assert!(rt; line_has_answers(alloc, line, nearest, low)?, "{line}");
    }
    assert!(rt; lines.next().is_none());
    Ok(())
}

#[test]
fn agrees_with_the_table(rt: HostRuntime) -> Result<(), Fail> {
    expect_answers(&rt, rt.alloc(), FIRST_PAIRS)?;
    expect_answers(&rt, rt.alloc(), SECOND_PAIRS)
}

// The answers of two meshes in a union, to the nearest.
fn answers_in_union(alloc: Global, p: &Mesh, q: &Mesh) -> Result<String, Fail> {
    let p = marked_side(alloc, p, Op::Union)?;
    let q = plain_side(alloc, q)?;
    answers_of(alloc, &p, &q, Nearest)
}

fn post_in_box(alloc: Global) -> Result<String, Fail> {
    let (p, q) = read_meshes(alloc, POST_IN_BOX)?;
    answers_in_union(alloc, &p, &q)
}

// The lower corners of the post lie in the box, its walls cross the box's top.
#[test]
fn a_post_begins_in_a_box(rt: HostRuntime) -> Result<(), Fail> {
    let answers = post_in_box(rt.alloc())?;
    let wanted =
        "00000000 11110000 84144a 86-166a | d2154a e3-134a f2164a j3167a k2-165a p3137a q3-157a w3-135a";
    assert!(rt; answers.as_str() == wanted);
    Ok(())
}
