// Operations on random rings, against a table.
use crate::rows::agrees;
use crate::table::{FIRST, FOURTH, SECOND, THIRD};
use std::alloc::Global;
use std::process::Abort;
use std::test::Fail;

// Compares what fifty rows tell with what the operations give.
fn expect_fifty(rt: &impl Abort, alloc: Global, rows: &str) -> Result<(), Fail> {
    let mut found = 0u32;
    for row in rows.lines() {
        assert!(rt; agrees(rt, alloc, row)?, "{row}");
        found = found.saturating_add(1);
    }
    assert_eq!(rt; found, 50);
    Ok(())
}

#[test]
fn rows_1_to_50_give_what_the_sums_give(rt: HostRuntime) -> Result<(), Fail> {
    expect_fifty(&rt, rt.alloc(), FIRST)
}

#[test]
fn rows_51_to_100_give_what_the_sums_give(rt: HostRuntime) -> Result<(), Fail> {
    expect_fifty(&rt, rt.alloc(), SECOND)
}

#[test]
fn rows_101_to_150_give_what_the_sums_give(rt: HostRuntime) -> Result<(), Fail> {
    expect_fifty(&rt, rt.alloc(), THIRD)
}

#[test]
fn rows_151_to_200_give_what_the_sums_give(rt: HostRuntime) -> Result<(), Fail> {
    expect_fifty(&rt, rt.alloc(), FOURTH)
}
