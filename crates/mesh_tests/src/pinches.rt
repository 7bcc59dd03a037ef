// Meshes whose fans are known from outside.
mod table;

use crate::lines::{are_same, lie_at};
use mesh_check::Mesh;
use pinch_split::split;
use std::alloc::Global;
use std::process::Abort;
use table::ROWS;
use test_tables::read_meshes;

// Whether a mesh is split into this one, whose points lie at the numbers of the vertices that they come from.
fn is_split_into(rt: &impl Abort, alloc: Global, mesh: &Mesh, wanted: &Mesh) -> bool {
    let split = split(alloc, mesh.points(), mesh.triples()).expect(rt, "memory");
    lie_at(wanted.points(), &split.from) && are_same(&split.mesh, wanted)
}

// Whether the first mesh of a line is split into the second.
fn agrees(rt: &impl Abort, alloc: Global, line: &str) -> bool {
    let (mesh, wanted) = read_meshes(alloc, line).expect(rt, "two meshes");
    is_split_into(rt, alloc, &mesh, &wanted)
}

// Lines as in the table.
static KNOWN: [&str; 4] = [
    // A tetrahedron is clean, and stays.
    "000100200300 021013123203 000100200300 021013123203",
    // No triangles stay none.
    ". . . .",
    // Two boxes that share a vertex, which becomes two.
    "000100200300400500600700800900a00b00c00d00e00 0310234574760141541371753263670460627a879abcebed78b8cb8ae8eca9dade7bd7d9 000100200300400500600700700800900a00b00c00d00e00 0310234574760141541371753263670460628b98abcdfcfe89c9dc9bf9fdbaebef8ce8ea",
    // Two tetrahedra that share the edge between the vertices 0 and 1, which is used four times and comes apart.
    "000100200300400500 021013123203041015145405 000000100100200300400500 042025245405163137367617",
];

#[test]
fn small_meshes_are_split(rt: HostRuntime) {
    for line in &KNOWN {
        assert!(rt; agrees(&rt, rt.alloc(), line), "{line}");
    }
}

// Each mesh of so many lines is split as its line says.
fn expect_lines(rt: &impl Abort, alloc: Global, lines: &str, wanted: u32) {
    let mut count = 0u32;
    for line in lines.lines() {
        assert!(rt; agrees(rt, alloc, line), "{line}");
        count = count.saturating_add(1);
    }
    assert!(rt; count == wanted);
}

#[test]
fn sixty_meshes_are_split(rt: HostRuntime) {
    expect_lines(&rt, rt.alloc(), ROWS, 60);
}
