// Lists of labels, and the labels of soups and meshes.
use crate::lists::points_at;
use mb_base::{Labels, Limits, NoMemory, Soup};
use mb_outside::MemorySink;
use mesh_check::Mesh;
use mesh_writer::write_stl;
use obj_text::read_obj;
use std::alloc::Global;
use std::process::Abort;
use stl_text::read_stl;

const EMPTY: &[u8] = b"";

// Triangles with no label, and with each of three.
const SOURCE: &[u8] =
    b"v 0 0 0\nv 1 0 0\nv 0 1 0\nf 1 2 3\ng a\nf 3 2 1\ng b\nf 1 2 3\ng c\nf 3 2 1\n";

// Adds the labels of these triangles of the source.
fn push_all(labels: &mut Labels, source: &Labels, triangles: &[u32]) -> Result<(), NoMemory> {
    for t in triangles {
        labels.push(source.get(*t))?;
    }
    Ok(())
}

// The soup of the source.
fn source(rt: &impl Abort, alloc: Global) -> Soup {
    read_obj(alloc, SOURCE, 0, &Limits::program()).expect(rt, "the source is read")
}

// The labels of these triangles of the source.
fn labels_of(rt: &impl Abort, alloc: Global, triangles: &[u32]) -> Labels {
    let soup = source(rt, alloc);
    let source = soup.labels().expect(rt, "the source has labels");
    let mut labels = Labels::start(alloc);
    push_all(&mut labels, source, triangles).expect(rt, "labels are added");
    labels
}

// Whether these are the labels, with an empty one past their end.
fn are(labels: &Labels, wanted: &[&[u8]]) -> bool {
    let mut all = labels.len() == wanted.len();
    let mut t = 0u32;
    for label in wanted {
        if labels.get(t) != *label {
            all = false;
        }
        t = t.wrapping_add(1);
    }
    all && labels.get(t).is_empty()
}

const FOUR: [&[u8]; 4] = [b"", b"a", b"a", b"b"];

const FOUR_AND_C: [&[u8]; 5] = [b"", b"a", b"a", b"b", b"c"];

const FOUR_AND_B: [&[u8]; 5] = [b"", b"a", b"a", b"b", b"b"];

// Two triangles, and whether they share a label of four.
const SHARED: [(u32, u32, bool); 7] = [
    (0, 1, false),
    (1, 1, true),
    (1, 2, true),
    (1, 3, false),
    (0, 4, false),
    (3, 4, false),
    (4, 9, true),
];

// The four labels.
fn four(rt: &impl Abort, alloc: Global) -> Labels {
    labels_of(rt, alloc, &[0, 1, 1, 2])
}

// Asks whether labels are shared as the table says.
fn expect_shared(rt: &impl Abort, labels: &Labels) {
    for (t, other, shared) in &SHARED {
        assert!(rt; labels.shares(*t, *other) == *shared, "{t} and {other}");
    }
}

#[test]
fn labels_are_added_at_the_end(rt: HostRuntime) {
    let none = labels_of(&rt, rt.alloc(), &[]);
    assert!(rt; are(&none, &[]) && none.shares(0, 1));
    let labels = four(&rt, rt.alloc());
    assert!(rt; are(&labels, &FOUR));
    expect_shared(&rt, &labels);
}

// Whether one more label of the source is added.
fn grows(labels: &mut Labels, source: &Soup, triangle: u32) -> bool {
    match source.labels() {
        Some(source) => labels.push(source.get(triangle)).is_ok(),
        None => false,
    }
}

// Whether a copy and then its original grow, each alone.
fn grow_apart(labels: &mut Labels, copy: &mut Labels, source: &Soup) -> bool {
    are(copy, &FOUR)
        && grows(copy, source, 3)
        && are(copy, &FOUR_AND_C)
        && are(labels, &FOUR)
        && grows(labels, source, 2)
        && are(copy, &FOUR_AND_C)
        && are(labels, &FOUR_AND_B)
}

#[test]
fn a_copy_and_its_original_grow_apart(rt: HostRuntime) {
    let mut labels = four(&rt, rt.alloc());
    let mut copy = labels.copy(rt.alloc()).expect(&rt, "a copy");
    let source = source(&rt, rt.alloc());
    assert!(rt; grow_apart(&mut labels, &mut copy, &source));
}

// Faces of two lists, the first of three faces with one label, the second with three labels.
const FACES: [u32; 12] = [3, 0, 2, 5, 1, 2, 4, 8, 7, 0, 0, 5];

const THEIRS: [&[u8]; 12] = [
    b"b", b"a", b"", b"c", b"", b"", b"", b"", b"", b"a", b"a", b"c",
];

// The labels of the faces.
fn labels_of_faces(rt: &impl Abort, alloc: Global) -> Labels {
    let first = labels_of(rt, alloc, &[1]);
    let second = labels_of(rt, alloc, &[2, 0, 3]);
    Labels::of_faces(alloc, &first, &second, 3, &FACES).expect(rt, "labels")
}

#[test]
fn faces_of_two_lists_have_their_labels(rt: HostRuntime) {
    let labels = labels_of_faces(&rt, rt.alloc());
    assert!(rt; are(&labels, &THEIRS));
    // A run keeps its place; the two past the end of the first list are one.
    assert!(rt; labels.shares(9, 10) && labels.shares(4, 5) && !labels.shares(8, 9));
}

// A triangle and its reverse, twice, with these labels.
fn labelled(alloc: Global, labels: Labels) -> Result<Option<Soup>, NoMemory> {
    let points = points_at(alloc, &[[0, 0, 0], [1, 0, 0], [0, 1, 0]])?;
    let triples = Vec::from_array(alloc, [[0, 1, 2], [2, 1, 0], [0, 1, 2], [2, 1, 0]])?;
    if labels.len() > triples.len() || !Soup::fits(&points, &triples) {
        return Ok(None);
    }
    Ok(Some(Soup::labelled(points, triples, labels, 0)))
}

// The mesh with these labels, if it has so many triangles.
fn relabelled(mesh: Mesh, labels: Labels) -> Option<Mesh> {
    if labels.len() > mesh.triples().len() {
        return None;
    }
    Some(mesh.with_labels(labels))
}

// Whether these are the labels of the triangles of a mesh.
fn has(mesh: &Mesh, wanted: &[&[u8]]) -> bool {
    let mut all = mesh.triples().len() == wanted.len();
    let mut t = 0u32;
    for label in wanted {
        if mesh.label(t) != *label {
            all = false;
        }
        t = t.wrapping_add(1);
    }
    all
}

// Whether a soup has these labels.
fn is_labelled(soup: &Soup, wanted: &[&[u8]]) -> bool {
    match soup.labels() {
        Some(labels) => are(labels, wanted),
        None => false,
    }
}

// The mesh of that soup with two labels.
fn labelled_mesh(rt: &impl Abort, alloc: Global) -> Mesh {
    let two = labels_of(rt, alloc, &[1, 2]);
    let soup = labelled(alloc, two).expect(rt, "lists");
    let soup = soup.expect(rt, "these are a soup");
    assert!(rt; is_labelled(&soup, &[b"a", b"b"]));
    Mesh::check(alloc, soup).expect(rt, "a triangle and its reverse are closed")
}

// A mesh with the labels of these triangles of the source.
fn with_labels_of(rt: &impl Abort, alloc: Global, mesh: Mesh, triangles: &[u32]) -> Mesh {
    let labels = labels_of(rt, alloc, triangles);
    relabelled(mesh, labels).expect(rt, "it has as many triangles")
}

#[test]
fn triangles_past_the_labels_have_empty_ones(rt: HostRuntime) {
    let mesh = labelled_mesh(&rt, rt.alloc());
    assert!(rt; has(&mesh, &[b"a", b"b", b"", b""]));
    let mesh = with_labels_of(&rt, rt.alloc(), mesh, &[3, 0, 1]);
    assert!(rt; has(&mesh, &[b"c", b"", b"a", b""]));
    let mesh = with_labels_of(&rt, rt.alloc(), mesh, &[]);
    assert!(rt; has(&mesh, &[EMPTY; 4]));
}

// Squares, two of them in groups.
const SQUARES: &[u8] =
    b"v 0 0 0\nv 1 0 0\nv 1 1 0\nv 0 1 0\nf 1 2 3 4\ng red\nf 4 3 2 1\ng\nf 1 2 3 4\ng blue\nf 4 3 2 1\n";

const HALVES: [&[u8]; 8] = [b"", b"", b"red", b"red", b"", b"", b"blue", b"blue"];

// What is read of a mesh that was written as STL.
fn through_stl(rt: &impl Abort, alloc: Global, mesh: &Mesh) -> Soup {
    let mut sink = MemorySink::of(alloc, 10_000, 10_000, Vec::new(alloc)).expect(rt, "a sink");
    write_stl(mesh, 0, &mut sink).expect(rt, "it is written");
    read_stl(alloc, sink.bytes(), 0, &Limits::program()).expect(rt, "it is read")
}

// The mesh of a soup.
fn accepted(rt: &impl Abort, alloc: Global, soup: Soup) -> Mesh {
    Mesh::check(alloc, soup).expect(rt, "the squares are closed")
}

// The mesh of the squares.
fn squares(rt: &impl Abort, alloc: Global) -> Mesh {
    let soup = read_obj(alloc, SQUARES, 0, &Limits::program()).expect(rt, "it is read");
    accepted(rt, alloc, soup)
}

#[test]
fn both_halves_of_a_square_have_its_label_until_it_is_stl(rt: HostRuntime) {
    let mesh = squares(&rt, rt.alloc());
    assert!(rt; has(&mesh, &HALVES));
    let again = accepted(&rt, rt.alloc(), through_stl(&rt, rt.alloc(), &mesh));
    assert!(rt; has(&again, &[EMPTY; 8]));
}
