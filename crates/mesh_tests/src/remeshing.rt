// Remeshed meshes.
mod table;

use crate::lines::are_same;
use mb_base::Limits;
use mesh_check::Mesh;
use plane_remesh::remesh;
use std::alloc::Global;
use std::process::Abort;
use table::ROWS;
use test_tables::read_meshes;

// Whether a byte is a digit.
fn is_digit(byte: u8) -> bool {
    byte >= b'0' && byte <= b'9'
}

// The counts of these digits.
fn counts(tens: u8, ones: u8, kept: u8) -> Option<(u64, u64)> {
    if !is_digit(tens) || !is_digit(ones) || !is_digit(kept) {
        return None;
    }
    let (tens, ones) = ((tens & 15) as u64, (ones & 15) as u64);
    Some((10 * tens + ones, (kept & 15) as u64))
}

// The numbers of planes and of triangles that were kept, which end a line, a blank before each: the first of one or two digits, the
// second of one.
fn counts_of(line: &str) -> Option<(u64, u64)> {
    match line.as_bytes() {
        [.., b' ', ones, b' ', kept] => counts(b'0', *ones, *kept),
        [.., b' ', tens, ones, b' ', kept] => counts(*tens, *ones, *kept),
        _ => None,
    }
}

// Whether remeshing makes this of a mesh, and counts so many planes and so many triangles that were kept.
fn is_remeshed_to(
    rt: &impl Abort,
    alloc: Global,
    mesh: &Mesh,
    wanted: &Mesh,
    counts: (u64, u64),
) -> bool {
    let done = remesh(alloc, mesh, &Limits::program()).expect(rt, "within the limits");
    are_same(&done.mesh, wanted) && done.planes == counts.0 && done.kept == counts.1
}

// Whether the first mesh of a line is remeshed to the second, with the line's counts.
fn agrees(rt: &impl Abort, alloc: Global, line: &str) -> bool {
    let counts = counts_of(line).expect(rt, "two counts");
    let (mesh, wanted) = read_meshes(alloc, line).expect(rt, "two meshes");
    is_remeshed_to(rt, alloc, &mesh, &wanted, counts)
}

// Each mesh of so many lines is remeshed as its line says.
fn expect_lines(rt: &impl Abort, alloc: Global, lines: &str, wanted: u32) {
    let mut count = 0u32;
    for line in lines.lines() {
        assert!(rt; agrees(rt, alloc, line), "{line}");
        count = count.saturating_add(1);
    }
    assert!(rt; count == wanted);
}

#[test]
fn three_hundred_results_are_remeshed(rt: HostRuntime) {
    expect_lines(&rt, rt.alloc(), ROWS, 300);
}
