// Tables, row by row.
use crate::{cutting, filling, loops, pairing};
use std::alloc::Global;
use std::process::Abort;

/// What the rows of a table tell.
#[derive(Drop)]
pub enum Kind {
    Pairs,
    Loops,
    Cuts,
    Fillings,
    Rings,
}

// Whether what a row gives is what it tells.
fn agrees(rt: &impl Abort, alloc: Global, kind: &Kind, row: &str) -> bool {
    match kind {
        Kind::Pairs => pairing::agrees(rt, alloc, row),
        Kind::Loops => loops::agrees(rt, alloc, row),
        Kind::Cuts => cutting::agrees(rt, alloc, row),
        Kind::Fillings => filling::agrees(rt, alloc, row),
        Kind::Rings => filling::joined::agrees(rt, alloc, row),
    }
}

/// Compares what each row of a table gives with it, and how many there are.
pub fn expect_rows(rt: &impl Abort, alloc: Global, kind: &Kind, rows: &str, count: u32) {
    let mut found = 0u32;
    for row in rows.lines() {
        assert!(rt; agrees(rt, alloc, kind, row), "{row}");
        found = found.saturating_add(1);
    }
    assert!(rt; found == count, "{found} rows");
}
