// Small meshes, closed and open, and their reductions against a table from outside.
mod table;

use crate::lines::{DOUBLED, are_same, consists_of, line_mesh};
use mesh_check::{Mesh, MeshFault, is_plainly_reduced, kept_places, reduce};
use std::alloc::Global;
use std::process::Abort;
use table::{ROWS, SHEET_AND_BOX};
use test_tables::{BOX, TETRAHEDRON, line_soup, read_meshes};

#[test]
fn a_closed_mesh_keeps_its_lists(rt: HostRuntime) {
    let mesh = line_mesh(&rt, rt.alloc(), 4, &TETRAHEDRON);
    assert!(rt; consists_of(&mesh, &[0, 1, 2, 3], &TETRAHEDRON));
    assert!(rt; mesh.twins().twins() == [9, 6, 3, 2, 8, 10, 1, 11, 4, 0, 5, 7].as_slice());
}

// Whether this open edge is named of these triangles over so many points on a line; where it is empty, whether they are closed.
fn is_open_at(
    rt: &impl Abort,
    alloc: Global,
    count: u8,
    triples: &[[u32; 3]],
    wanted: &[u32],
) -> bool {
    let soup = line_soup(alloc, count, triples).expect(rt, "a soup");
    match Mesh::check(alloc, soup) {
        Ok(_) => wanted.is_empty(),
        Err(MeshFault::OpenEdge { from, to }) => [from, to].as_slice() == wanted,
        Err(MeshFault::NoMemory) => false,
    }
}

// How many points, the triangles over them, and the open edge that is named, an empty list where they are closed. The edges of
// a missing face are missing, so that their reverses are open: 0 to 2, 3 to 0 and 2 to 3. An edge that two triangles use one way
// and one the other, as from 1 to 0, comes after 0 to 2 and 0 to 4.
static FAULTS: [(&str, u8, &[[u32; 3]], &[u32]); 5] = [
    ("a sheet", 3, &[[0, 1, 2], [2, 1, 0]], &[]),
    ("two tetrahedra in one place", 4, &DOUBLED, &[]),
    (
        "no last face",
        4,
        &[[0, 2, 1], [0, 1, 3], [1, 2, 3]],
        &[0, 2],
    ),
    (
        "an edge twice from 1 to 0",
        5,
        &[[1, 0, 2], [0, 1, 3], [1, 0, 4]],
        &[0, 2],
    ),
    (
        "an edge twice from 0 to 1",
        5,
        &[[0, 1, 2], [1, 0, 3], [0, 1, 4]],
        &[0, 1],
    ),
];

#[test]
fn the_least_open_edge_is_named(rt: HostRuntime) {
    for (name, count, triples, wanted) in &FAULTS {
        assert!(rt;
            is_open_at(&rt, rt.alloc(), *count, triples, wanted),
            "{name}"
        );
    }
}

// Whether a mesh is reduced to this one.
fn is_reduced_to(rt: &impl Abort, alloc: Global, mesh: &Mesh, wanted: &Mesh) -> bool {
    let left = reduce(alloc, mesh).expect(rt, "memory");
    are_same(&left, wanted)
}

// Whether the first mesh of a line is reduced to the second.
fn agrees(rt: &impl Abort, alloc: Global, line: &str) -> bool {
    let (mesh, wanted) = read_meshes(alloc, line).expect(rt, "two meshes");
    is_reduced_to(rt, alloc, &mesh, &wanted)
}

// Lines as in the table: a box before a two-sided triangle, a box among one, and a tetrahedron among five, where there are more
// vertices than triangles.
static SHEETS: [&str; 3] = [
    "000100200300400500600700800900a00 03102345747601415413717532636704606289a8a9 000100200300400500600700 031023457476014154137175326367046062",
    "000100200300400500600700800900a00 12036435678a7a934748746a1024a865969a379395 300400500600700800900a00 031023457476014154137175326367046062",
    "000100200300400500600700800900a00b00c00d00e00f00g00h00i00 012021345354fhgfgi6786879ab9baghihfiedcdec f00g00h00i00 021013123203",
];

#[test]
fn two_sided_triangles_go_with_their_points(rt: HostRuntime) {
    for line in &SHEETS {
        assert!(rt; agrees(&rt, rt.alloc(), line), "{line}");
    }
}

// How many points, the triangles, and whether their mesh is plainly reduced. Of the last nothing goes, but that is not
// plain.
static PLAIN: [(&str, u8, &[[u32; 3]], bool); 3] = [
    ("a box", 8, &BOX, true),
    ("a sheet and a box", 11, &SHEET_AND_BOX, false),
    ("two tetrahedra in one place", 4, &DOUBLED, false),
];

#[test]
fn a_box_is_plainly_reduced(rt: HostRuntime) {
    for (name, count, triples, wanted) in &PLAIN {
        let mesh = line_mesh(&rt, rt.alloc(), *count, triples);
        assert!(rt; is_plainly_reduced(&mesh) == *wanted, "{name}");
    }
}

// How many points, the triangles, and the places of those that are kept: all of them; those of a box, in which the sides of a
// sheet stand; all but a face of a tetrahedron and the same one turned over, of which the tetrahedron's own comes later; none.
static KEPT: [(&str, u8, &[[u32; 3]], &[u32]); 4] = [
    (
        "two tetrahedra in one place",
        4,
        &DOUBLED,
        &[0, 1, 2, 3, 4, 5, 6, 7],
    ),
    (
        "a sheet and a box",
        11,
        &SHEET_AND_BOX,
        &[1, 2, 3, 4, 5, 6, 7, 9, 10, 11, 12, 13],
    ),
    (
        "a face twice and turned over",
        4,
        &[
            [0, 2, 1],
            [0, 1, 3],
            [0, 2, 1],
            [1, 2, 3],
            [0, 1, 2],
            [2, 0, 3],
        ],
        &[1, 2, 3, 5],
    ),
    ("a sheet", 3, &[[0, 1, 2], [2, 1, 0]], &[]),
];

#[test]
fn kept_triangles_have_their_places(rt: HostRuntime) {
    for (name, count, triples, wanted) in &KEPT {
        let mesh = line_mesh(&rt, rt.alloc(), *count, triples);
        let places = kept_places(rt.alloc(), &mesh).expect(&rt, "memory");
        assert!(rt; places.as_slice() == *wanted, "{name}");
    }
}

// Each mesh of so many lines is reduced as its line says.
fn expect_lines(rt: &impl Abort, alloc: Global, lines: &str, wanted: u32) {
    let mut count = 0u32;
    for line in lines.lines() {
        assert!(rt; agrees(rt, alloc, line), "{line}");
        count = count.saturating_add(1);
    }
    assert!(rt; count == wanted);
}

#[test]
fn three_hundred_meshes_are_reduced(rt: HostRuntime) {
    expect_lines(&rt, rt.alloc(), ROWS, 300);
}
