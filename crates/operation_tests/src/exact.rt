// Whole operations under exact kernels.
mod table;

use crate::results::{expect_text, operated};
use exact_kernels::Exact;
use mb_base::{Limits, Op};
use rounding::{High, Low, Nearest};
use std::alloc::Global;
use std::process::Abort;
use table::PAIRS;
use test_tables::{read_meshes, read_pair};

// Compares what a pair gives under three roundings with the lines of a table.
fn expect_pair(rt: &impl Abort, alloc: Global, meshes: &str, expected: [&str; 3]) {
    let (op, p, q) = read_pair(alloc, meshes).expect(rt, "a pair");
    let [nearest, low, high] = expected;
    let kernels = Exact { rounding: Nearest };
    expect_text(
        rt,
        alloc,
        op,
        &p,
        &q,
        &kernels,
        nearest,
        ("nearest", meshes),
    );
    let kernels = Exact { rounding: Low };
    expect_text(rt, alloc, op, &p, &q, &kernels, low, ("low", meshes));
    let kernels = Exact { rounding: High };
    expect_text(rt, alloc, op, &p, &q, &kernels, high, ("high", meshes));
}

#[test]
fn agrees_with_the_table(rt: HostRuntime) {
    let mut lines = PAIRS.lines();
    let mut found: u64 = 0;
    while let Some(meshes) = lines.next() {
        let nearest = lines.next().expect(&rt, "a second line");
        let low = lines.next().expect(&rt, "a third line");
        let high = lines.next().expect(&rt, "a fourth line");
        expect_pair(&rt, rt.alloc(), meshes, [nearest, low, high]);
        found = found.wrapping_add(1);
    }
    assert!(rt; found == 64, "{found} rows");
}

// A cube twice: as if it were moved towards one corner, all but that corner of the one is outside the other.
const CUBE_TWICE: &str =
    "000a000a0aa000aa0a0aaaaa 031023457476014154137175326367046062 000a000a0aa000aa0a0aaaaa 031023457476014154137175326367046062";

#[test]
fn a_cube_is_united_with_itself_as_if_moved(rt: HostRuntime) {
    let (p, q) = read_meshes(rt.alloc(), CUBE_TWICE).expect(&rt, "two meshes");
    let kernels = Exact { rounding: Nearest };
    let outcome = operated(rt.alloc(), Op::Union, &p, &q, &kernels, &Limits::program());
    let outcome = outcome.expect(&rt, "few half-edges");
    let all = &outcome.prescribed;
    assert!(rt; all.kept == [7, 7] && all.crossings == 14 && all.halfedges == 104);
}
