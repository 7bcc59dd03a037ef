// Whole operations on pairs of small meshes.
ghost use Rattle.std.specs.Prelude.{◌≡◌, ◌<◌};

mod table;
mod text;
mod volume;

use crate::rows::{Kind, expect_rows};
use edge_face::Kernels;
use mb_base::{Limits, Op, Steps};
use mesh_boolean::{Outcome, boolean};
use mesh_check::Mesh;
use retained_verts::PrescribeFault;
use rounding::{High, Low, Nearest};
use shadow_kernels::Grid;
use std::alloc::Global;
use std::marker::Brand;
use std::process::Abort;
use std::sync::ledger::{Blank, Ledger};
use table::{FARTHEST, WORKED};
pub use table::{LOOSE, SOLIDS};
use test_tables::{POST_IN_BOX, read_meshes, read_pair};
use text::text_of;
use volume::volume6;

/// The pairs that are worked out by hand, of whose results an audit has to say yes, with their numbers.
pub const SOUND: [(&str, [i128; 7]); 18] = WORKED;

// What an operation gives under any kernels.
fn answer<K: Kernels, L: Ledger>(
    alloc: Global,
    op: Op,
    p: &Mesh,
    q: &Mesh,
    kernels: &K,
    limits: &Limits,
    blank: Blank,
) -> Result<Outcome, PrescribeFault>
    requires name { blank.name ≡ L.name }
    requires parts { blank.parts ≡ L.parts }
    requires some { 0 < blank.parts }
{
    let mut steps = Steps::<L>::over(blank);
    boolean(alloc, op, p, q, kernels, limits, &mut steps)
}

/// That, with a counter of steps that begins anew.
pub fn operated<K: Kernels>(
    alloc: Global,
    op: Op,
    p: &Mesh,
    q: &Mesh,
    kernels: &K,
    limits: &Limits,
) -> Result<Outcome, PrescribeFault> {
    answer::<K, Brand>(alloc, op, p, q, kernels, limits, Blank::new(1))
}

/// Compares what it gives, as the tables write it, with a line.
pub fn expect_text<K: Kernels>(
    rt: &impl Abort,
    alloc: Global,
    op: Op,
    p: &Mesh,
    q: &Mesh,
    kernels: &K,
    expected: &str,
    place: (&str, &str),
) {
    let outcome = operated(alloc, op, p, q, kernels, &Limits::program());
    let text = text_of(alloc, &outcome.expect(rt, "few half-edges")).expect(rt, "a text");
    let (rule, meshes) = place;
    assert_eq!(rt; text.as_str(), expected, "{rule}: {meshes}");
}

// Compares what a pair gives under two kernels with two lines of a table.
fn expect_lines<K: Kernels, J: Kernels>(
    rt: &impl Abort,
    alloc: Global,
    meshes: &str,
    first: (&K, &str),
    second: (&J, &str),
) {
    let (op, p, q) = read_pair(alloc, meshes).expect(rt, "a pair");
    let (kernels, expected) = first;
    expect_text(rt, alloc, op, &p, &q, kernels, expected, ("first", meshes));
    let (kernels, expected) = second;
    expect_text(rt, alloc, op, &p, &q, kernels, expected, ("second", meshes));
}

/// Compares what a pair gives with two lines of a table, to the nearest and low.
pub fn expect_near_and_low(rt: &impl Abort, alloc: Global, meshes: &str, nearest: &str, low: &str) {
    let near_grid = Grid { rounding: Nearest };
    let low_grid = Grid { rounding: Low };
    expect_lines(rt, alloc, meshes, (&near_grid, nearest), (&low_grid, low));
}

/// Compares what a pair gives with two lines of a table, low and high.
pub fn expect_low_and_high(rt: &impl Abort, alloc: Global, meshes: &str, low: &str, high: &str) {
    let low_grid = Grid { rounding: Low };
    let high_grid = Grid { rounding: High };
    expect_lines(rt, alloc, meshes, (&low_grid, low), (&high_grid, high));
}

#[test]
fn agrees_on_solids_and_on_loose_parts(rt: HostRuntime) {
    expect_rows(&rt, rt.alloc(), &Kind::Results, SOLIDS, 100);
    expect_rows(&rt, rt.alloc(), &Kind::Results, LOOSE, 100);
}

#[test]
fn agrees_under_the_farthest_roundings(rt: HostRuntime) {
    expect_rows(&rt, rt.alloc(), &Kind::Farthest, FARTHEST, 20);
}

/// What an operation gives to the nearest.
pub fn to_the_nearest(rt: &impl Abort, alloc: Global, op: Op, p: &Mesh, q: &Mesh) -> Outcome {
    let kernels = Grid { rounding: Nearest };
    operated(alloc, op, p, q, &kernels, &Limits::program()).expect(rt, "few half-edges")
}

// The numbers of what an operation gives: how many vertices are kept of each mesh, the crossings, the forced triangles, the
// points and triangles, and six times the volume.
fn numbers_of(rt: &impl Abort, all: &Outcome) -> [i128; 7] {
    let [p, q] = all.prescribed.kept;
    let volume = volume6(&all.mesh).expect(rt, "points of all triangles");
    [
        p as i128,
        q as i128,
        all.prescribed.crossings as i128,
        all.forced as i128,
        all.mesh.points().len() as i128,
        all.mesh.triples().len() as i128,
        volume,
    ]
}

// Those of an operation to the nearest.
fn numbers_to_the_nearest(rt: &impl Abort, alloc: Global, op: Op, p: &Mesh, q: &Mesh) -> [i128; 7] {
    let outcome = to_the_nearest(rt, alloc, op, p, q);
    numbers_of(rt, &outcome)
}

#[test]
fn has_the_numbers_worked_out(rt: HostRuntime) {
    for (meshes, numbers) in WORKED {
        let (op, p, q) = read_pair(rt.alloc(), meshes).expect(&rt, "a pair");
        let found = numbers_to_the_nearest(&rt, rt.alloc(), op, &p, &q);
        assert!(rt; found == numbers, "{meshes}");
    }
}

// How many half-edges a union of a post and a box needs, where they are more than the limit; none where it has a result.
fn above_limit(rt: &impl Abort, alloc: Global, halfedges: u32) -> Option<u64> {
    let (p, q) = read_meshes(alloc, POST_IN_BOX).expect(rt, "two meshes");
    let limits = Limits::of(22_470, 210, 140, halfedges).expect(rt, "limits");
    let kernels = Grid { rounding: Nearest };
    match operated(alloc, Op::Union, &p, &q, &kernels, &limits) {
        Ok(_) => None,
        Err(PrescribeFault::TooLarge { seen }) => Some(seen),
        Err(PrescribeFault::NoMemory) => panic!(rt; "no memory"),
    }
}

#[test]
fn half_edges_above_the_limit_are_too_many(rt: HostRuntime) {
    let needed = above_limit(&rt, rt.alloc(), 83).expect(&rt, "too many");
    assert!(rt; needed == 84);
    assert!(rt; above_limit(&rt, rt.alloc(), 84).is_none());
}
