// Audits of what operations give, and of what is made of it.
mod changes;
mod table;

use crate::results::{LOOSE, SOLIDS, operated, to_the_nearest};
use changes::changed;
use edge_face::Kernels;
use mb_base::{Limits, Op};
use mesh_boolean::{Outcome, audit};
use mesh_check::Mesh;
use rounding::{High, Low, Nearest};
use shadow_kernels::Grid;
use std::alloc::Global;
use std::process::Abort;
use std::str::{Lines, SplitWhitespace};
use table::CHANGES;
use test_tables::{POST_IN_BOX, read_meshes, read_pair};

// What an audit to the nearest answers of an outcome that is changed in the way of these words.
fn answer_of(
    rt: &impl Abort,
    alloc: Global,
    op: Op,
    p: &Mesh,
    q: &Mesh,
    outcome: Outcome,
    words: &mut SplitWhitespace,
) -> &'static str {
    let Some(other) = changed(rt, alloc, outcome, p, words) else {
        return "none";
    };
    let kernels = Grid { rounding: Nearest };
    if audit(alloc, op, p, q, &kernels, &other).expect(rt, "memory") {
        "yes"
    } else {
        "no"
    }
}

// Compares that answer with a row, which begins with it and has no more words than the change takes.
fn expect_answer(
    rt: &impl Abort,
    alloc: Global,
    op: Op,
    p: &Mesh,
    q: &Mesh,
    meshes: &str,
    row: &str,
) {
    let mut words = row.split_whitespace();
    let expected = words.next().expect(rt, "an answer");
    let outcome = to_the_nearest(rt, alloc, op, p, q);
    let answer = answer_of(rt, alloc, op, p, q, outcome, &mut words);
    assert!(rt;
        answer == expected && words.next().is_none(),
        "{meshes}: {row}"
    );
}

// The same for the meshes of a line.
fn expect_row(rt: &impl Abort, alloc: Global, meshes: &str, row: &str) {
    let (op, p, q) = read_pair(alloc, meshes).expect(rt, "a pair");
    expect_answer(rt, alloc, op, &p, &q, meshes, row);
}

// Compares the answers for the pairs of a table, the first line of three each, with the next rows.
fn expect_answers(rt: &impl Abort, alloc: Global, table: &str, rows: &mut Lines) {
    let mut lines = table.lines();
    while let Some(meshes) = lines.next() {
        let _ = lines.next().expect(rt, "a second line");
        let _ = lines.next().expect(rt, "a third line");
        let row = rows.next().expect(rt, "a row");
        expect_row(rt, alloc, meshes, row);
    }
}

#[test]
fn agrees_on_changed_outcomes(rt: HostRuntime) {
    let mut rows = CHANGES.lines();
    expect_answers(&rt, rt.alloc(), SOLIDS, &mut rows);
    expect_answers(&rt, rt.alloc(), LOOSE, &mut rows);
    assert!(rt; rows.next().is_none());
}

// Whether an audit says yes of what an operation gives, under the same kernels.
fn is_sound<K: Kernels>(
    rt: &impl Abort,
    alloc: Global,
    op: Op,
    p: &Mesh,
    q: &Mesh,
    kernels: &K,
) -> bool {
    let outcome = operated(alloc, op, p, q, kernels, &Limits::program());
    let outcome = outcome.expect(rt, "few half-edges");
    audit(alloc, op, p, q, kernels, &outcome).expect(rt, "memory")
}

// Asks that of the meshes of a line under three roundings.
fn expect_sound(rt: &impl Abort, alloc: Global, line: &str) {
    let (op, p, q) = read_pair(alloc, line).expect(rt, "a pair");
    let nearest = Grid { rounding: Nearest };
    assert!(rt;
        is_sound(rt, alloc, op, &p, &q, &nearest),
        "nearest: {line}"
    );
    let low = Grid { rounding: Low };
    assert!(rt; is_sound(rt, alloc, op, &p, &q, &low), "low: {line}");
    let high = Grid { rounding: High };
    assert!(rt; is_sound(rt, alloc, op, &p, &q, &high), "high: {line}");
}

#[test]
fn says_yes_of_what_operations_give(rt: HostRuntime) {
    for (meshes, _) in crate::results::SOUND {
        expect_sound(&rt, rt.alloc(), meshes);
    }
}

// Ways in which an outcome is broken: vertices exchanged, another source face, a prescribed vertex left out, another mesh, and
// triangles of two source faces filled as if they were one.
const BROKEN: [&str; 5] = [
    "no froms 0 1",
    "no source 0 23",
    "no less",
    "no first",
    "no diagonal 0 1",
];

// Compares the answer with a row where a post stands through a box.
fn expect_for_post(rt: &impl Abort, alloc: Global, row: &str) {
    let (p, q) = read_meshes(alloc, POST_IN_BOX).expect(rt, "two meshes");
    expect_answer(rt, alloc, Op::Union, &p, &q, POST_IN_BOX, row);
}

#[test]
fn says_no_of_what_is_broken(rt: HostRuntime) {
    for row in BROKEN {
        expect_for_post(&rt, rt.alloc(), row);
    }
}

#[test]
fn says_yes_of_another_filling(rt: HostRuntime) {
    // Both triangles come from one source face.
    expect_for_post(&rt, rt.alloc(), "yes diagonal 2 7");
}
