// Tables whose rows are three lines each.
use crate::{faces, prescribed, results};
use std::alloc::Global;
use std::process::Abort;

/// What the rows of a table tell.
#[derive(Drop)]
pub enum Kind {
    Faces,
    Prescribed,
    Results,
    Farthest,
}

// Compares what a row gives with it.
fn expect_row(
    rt: &impl Abort,
    alloc: Global,
    kind: &Kind,
    meshes: &str,
    second: &str,
    third: &str,
) {
    match kind {
        Kind::Faces => faces::expect_line(rt, alloc, meshes, second, third),
        Kind::Prescribed => prescribed::expect_line(rt, alloc, meshes, second, third),
        Kind::Results => results::expect_near_and_low(rt, alloc, meshes, second, third),
        Kind::Farthest => results::expect_low_and_high(rt, alloc, meshes, second, third),
    }
}

/// Compares what each row of a table gives with it, and how many there are.
pub fn expect_rows(rt: &impl Abort, alloc: Global, kind: &Kind, table: &str, count: u64) {
    let mut lines = table.lines();
    let mut found: u64 = 0;
    while let Some(meshes) = lines.next() {
        let second = lines.next().expect(rt, "a second line");
        let third = lines.next().expect(rt, "a third line");
        expect_row(rt, alloc, kind, meshes, second, third);
        found = found.wrapping_add(1);
    }
    assert!(rt; found == count, "{found} rows");
}
