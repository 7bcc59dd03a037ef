// The text of a mesh, through a sink and through a file of a shelf.
ghost use Rattle.std.specs.Prelude.{◌≤◌};

use crate::lists::{point_at, points_at};
use crate::shelves::{failing_sink, holds};
use mb_base::{NoMemory, Point, Soup};
use mb_outside::{Failed, MemoryShelf, MemorySink, Shelf, Sink};
use mesh_check::Mesh;
use mesh_writer::{PageSink, write_obj, write_stl};
use std::alloc::Global;
use std::process::Abort;

const TEXT: &[u8] =
    b"v 0 0 0\nv 1.5 0 0\nv 0 -0.0001 0\nv 0 0 107374.1824\nf 1 3 2\nf 1 2 4\nf 2 3 4\nf 3 1 4\n";

const SOLID: &[u8] =
    b"solid manifold\nfacet normal 0 0 0\nouter loop\nvertex 0 0 0\nvertex 0 -0.0001 0\nvertex 1.5 0 0\nendloop\nendfacet\nfacet normal 0 0 0\nouter loop\nvertex 0 0 0\nvertex 1.5 0 0\nvertex 0 0 107374.1824\nendloop\nendfacet\nfacet normal 0 0 0\nouter loop\nvertex 1.5 0 0\nvertex 0 -0.0001 0\nvertex 0 0 107374.1824\nendloop\nendfacet\nfacet normal 0 0 0\nouter loop\nvertex 0 -0.0001 0\nvertex 0 0 0\nvertex 0 0 107374.1824\nendloop\nendfacet\nendsolid manifold\n";

// The closed mesh of some triangles, if it is one.
fn mesh_of(alloc: Global, points: Vec<Point>, triples: Vec<[u32; 3]>) -> Option<Mesh> {
    if !Soup::fits(&points, &triples) {
        return None;
    }
    Mesh::check(alloc, Soup::of(points, triples, 0)).ok()
}

// Coordinates that have digits after the point.
const FOUR: [[i32; 3]; 4] = [[0, 0, 0], [15_000, 0, 0], [0, -1, 0], [0, 0, 1_073_741_824]];

// A tetrahedron there.
fn tetrahedron(rt: &impl Abort, alloc: Global) -> Mesh {
    let points = points_at(alloc, &FOUR).expect(rt, "points");
    let triples = [[0, 2, 1], [0, 1, 3], [1, 2, 3], [2, 0, 3]];
    let triples = Vec::from_array(alloc, triples).expect(rt, "triangles");
    mesh_of(alloc, points, triples).expect(rt, "the tetrahedron is closed")
}

// Writes a mesh as a solid of STL, or as OBJ.
fn write<K: Sink>(mesh: &Mesh, solid: bool, digits: u8, sink: &mut K) -> Result<(), Failed>
    requires { digits ≤ 6 }
{
    if solid {
        write_stl(mesh, digits, sink)
    } else {
        write_obj(mesh, digits, sink)
    }
}

// Whether a sink gets this text of a mesh.
fn goes_to_a_sink(rt: &impl Abort, alloc: Global, mesh: &Mesh, solid: bool, text: &[u8]) -> bool {
    let mut sink = MemorySink::of(alloc, 1000, 7, Vec::new(alloc)).expect(rt, "a sink");
    write(mesh, solid, 4, &mut sink).is_ok() && sink.bytes() == text
}

// Whether a file of a shelf gets this text of a mesh.
fn goes_to_a_file(rt: &impl Abort, alloc: Global, mesh: &Mesh, solid: bool, text: &[u8]) -> bool {
    let mut shelf = MemoryShelf::of(alloc, 1, 1000, 1000, Vec::new(alloc)).expect(rt, "a shelf");
    shelf.begin("t").expect(rt, "a file is begun");
    let written = write(mesh, solid, 4, &mut PageSink::of(&mut shelf, "t")).is_ok();
    written && holds(&shelf, "t", text)
}

static TEXTS: [(bool, &[u8]); 2] = [(false, TEXT), (true, SOLID)];

#[test]
fn the_text_goes_to_a_sink_and_to_a_file(rt: HostRuntime) {
    let mesh = tetrahedron(&rt, rt.alloc());
    for (solid, text) in &TEXTS {
        assert!(rt; goes_to_a_sink(&rt, rt.alloc(), &mesh, *solid, text));
        assert!(rt; goes_to_a_file(&rt, rt.alloc(), &mesh, *solid, text));
    }
}

// Points whose lines have 16 bytes each, the first `wide` of them 17.
fn many_points(alloc: Global, wide: i32) -> Result<Vec<Point>, NoMemory> {
    let mut points = Vec::new(alloc);
    for i in 0..300i32 {
        let z = if i < wide { 10 } else { 1 };
        if let Some(point) = point_at([10_000 + i, 10_000, z]) {
            points.push(point)?;
        }
    }
    Ok(points)
}

// 100 triangles, each from both sides.
fn flat_triples(alloc: Global) -> Result<Vec<[u32; 3]>, NoMemory> {
    let mut triples = Vec::new(alloc);
    for t in 0..100u32 {
        triples.push([3 * t, 3 * t + 1, 3 * t + 2])?;
        triples.push([3 * t, 3 * t + 2, 3 * t + 1])?;
    }
    Ok(triples)
}

// These triangles on 300 points.
fn flat_triangles(rt: &impl Abort, alloc: Global, wide: i32) -> Mesh {
    let points = many_points(alloc, wide).expect(rt, "points");
    let triples = flat_triples(alloc).expect(rt, "triangles");
    mesh_of(alloc, points, triples).expect(rt, "each triangle has its reverse")
}

// How many bytes a sink gets whose second write fails; None where no write fails.
fn taken_at_once(
    rt: &impl Abort,
    alloc: Global,
    mesh: &Mesh,
    solid: bool,
    digits: u8,
) -> Option<usize>
    requires { digits ≤ 6 }
{
    let mut sink = failing_sink(rt, alloc, 10_000, 10_000);
    match write(mesh, solid, digits, &mut sink) {
        Ok(()) => None,
        Err(_) => Some(sink.bytes().len()),
    }
}

// Whether so many bytes go out at once of the flat triangles.
fn has_a_page_of(rt: &impl Abort, alloc: Global, solid: bool, wide: i32, length: usize) -> bool {
    let mesh = flat_triangles(rt, alloc, wide);
    match taken_at_once(rt, alloc, &mesh, solid, 0) {
        Some(taken) => taken == length,
        None => false,
    }
}

// Whether the text is that of a solid, how many lines are longer, and how many bytes go out at once.
static PAGES: [(bool, i32, usize); 3] = [(false, 0, 3984), (false, 1, 3969), (true, 0, 3975)];

#[test]
fn a_page_goes_out_where_fewer_than_128_bytes_are_free(rt: HostRuntime) {
    // After 248 lines of OBJ 128 bytes are free, or 127 where one line is longer. Of a solid with so many bytes fewer than 128 are
    // free for the first time after a line.
    for (solid, wide, length) in &PAGES {
        assert!(rt;
            has_a_page_of(&rt, rt.alloc(), *solid, *wide, *length),
            "at {length}"
        );
    }
}

#[test]
fn a_text_that_fits_a_page_goes_out_in_one_write(rt: HostRuntime) {
    let mesh = tetrahedron(&rt, rt.alloc());
    assert!(rt; taken_at_once(&rt, rt.alloc(), &mesh, false, 4).is_none());
    assert!(rt; taken_at_once(&rt, rt.alloc(), &mesh, true, 4).is_none());
}
