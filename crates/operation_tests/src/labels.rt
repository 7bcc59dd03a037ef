// Labels of triangles, through reduction, motions and operations. What is expected was found by a reference program.
use crate::results::to_the_nearest;
use mb_base::{Limits, Op};
use mesh_boolean::audit;
use mesh_check::{Mesh, reduce};
use mesh_make::{mirror, quarter_turn, scale, shift};
use obj_text::read_obj;
use rounding::Nearest;
use shadow_kernels::Grid;
use std::alloc::{AllocError, Global};
use std::process::Abort;
use test_tables::{POST_IN_BOX, read_meshes};

// The box from (0,0,0) to (10,10,10) with a sheet of two triangles between three of its corners, each triangle with its own
// label: x and y those of the sheet.
const BOX_WITH_SHEET: &[u8] =
    b"v 0 0 0\nv 10 0 0\nv 0 10 0\nv 10 10 0\nv 0 0 10\nv 10 0 10\nv 0 10 10\nv 10 10 10\n\
g x\nf 1 2 3\ng a\nf 1 4 2\ng b\nf 1 3 4\ng c\nf 5 6 8\ng d\nf 5 8 7\ng e\nf 1 2 5\ng f\nf 2 6 5\n\
g y\nf 3 2 1\ng g\nf 2 4 8\ng h\nf 2 8 6\ng i\nf 4 3 7\ng j\nf 4 7 8\ng k\nf 1 5 7\ng l\nf 1 7 3\n";

// The post from (3,4,5) to (6,7,20), each triangle with its own label.
const POST: &[u8] = b"v 3 4 5\nv 6 4 5\nv 3 7 5\nv 6 7 5\nv 3 4 20\nv 6 4 20\nv 3 7 20\nv 6 7 20\n\
g A\nf 1 4 2\ng B\nf 1 3 4\ng C\nf 5 6 8\ng D\nf 5 8 7\ng E\nf 1 2 5\ng F\nf 2 6 5\n\
g G\nf 2 4 8\ng H\nf 2 8 6\ng I\nf 4 3 7\ng J\nf 4 7 8\ng K\nf 1 5 7\ng L\nf 1 7 3\n";

// The box alone, all of it one body.
const BODY: &[u8] =
    b"v 0 0 0\nv 10 0 0\nv 0 10 0\nv 10 10 0\nv 0 0 10\nv 10 0 10\nv 0 10 10\nv 10 10 10\n\
g body\nf 1 4 2\nf 1 3 4\nf 5 6 8\nf 5 8 7\nf 1 2 5\nf 2 6 5\n\
f 2 4 8\nf 2 8 6\nf 4 3 7\nf 4 7 8\nf 1 5 7\nf 1 7 3\n";

fn read(rt: &impl Abort, alloc: Global, text: &[u8]) -> Mesh {
    let soup = read_obj(alloc, text, 0, &Limits::program()).expect(rt, "a soup");
    Mesh::check(alloc, soup).expect(rt, "closed triangles")
}

// The labels of all triangles, one behind the other.
fn labels_of(alloc: Global, mesh: &Mesh) -> Result<String, AllocError> {
    let mut text = String::new(alloc);
    for triangle in 0..mesh.triples().len() {
        for byte in mesh.label(triangle as u32) {
            text.push(char::from(*byte))?;
        }
    }
    Ok(text)
}

// Compares the labels of all triangles with a text.
fn expect_labels(rt: &impl Abort, alloc: Global, mesh: &Mesh, expected: &str) {
    let labels = labels_of(alloc, mesh).expect(rt, "a text");
    assert_eq!(rt; labels.as_str(), expected);
}

// Operations on the box and the post, and the labels of what they give.
const OPERATIONS: [(Op, &str); 3] = [
    (Op::Union, "abccccccddddddddefghijklCDEEFFGGHHIJJKKL"),
    (Op::Intersect, "cccdddddABEEEFGGGHIIJKLL"),
    (Op::Subtract, "abccccccddddddddefghijklABEEEFGGGHIIJKLL"),
];

// Compares the labels of what an operation gives with a text.
fn expect_given(rt: &impl Abort, alloc: Global, op: Op, p: &Mesh, q: &Mesh, labels: &str) {
    let outcome = to_the_nearest(rt, alloc, op, p, q);
    expect_labels(rt, alloc, &outcome.mesh, labels);
}

#[test]
fn a_triangle_has_the_label_of_its_source_face(rt: HostRuntime) {
    let p = read(&rt, rt.alloc(), BOX_WITH_SHEET);
    let q = read(&rt, rt.alloc(), POST);
    for (op, labels) in OPERATIONS {
        expect_given(&rt, rt.alloc(), op, &p, &q, labels);
    }
}

// Whether an audit says yes of what the union of two meshes gives, as one of two others.
fn is_union_of(
    rt: &impl Abort,
    alloc: Global,
    made: (&Mesh, &Mesh),
    asked: (&Mesh, &Mesh),
) -> bool {
    let (p, q) = made;
    let outcome = to_the_nearest(rt, alloc, Op::Union, p, q);
    let (p, q) = asked;
    let kernels = Grid { rounding: Nearest };
    audit(alloc, Op::Union, p, q, &kernels, &outcome).expect(rt, "memory")
}

// What an audit says of the union of two meshes with labels: taken as that of these; as that where the first has none; as that
// where the second has none; and of the union of two without labels, taken as that of the two with labels.
fn answers(
    rt: &impl Abort,
    alloc: Global,
    labelled: (&Mesh, &Mesh),
    plain: (&Mesh, &Mesh),
) -> [bool; 4] {
    let ((body, post), (plain_body, plain_post)) = (labelled, plain);
    [
        is_union_of(rt, alloc, labelled, labelled),
        is_union_of(rt, alloc, labelled, (plain_body, post)),
        is_union_of(rt, alloc, labelled, (body, plain_post)),
        is_union_of(rt, alloc, plain, labelled),
    ]
}

// The same of this module's body and post, beside two without labels.
fn answers_beside(rt: &impl Abort, alloc: Global, plain: (&Mesh, &Mesh)) -> [bool; 4] {
    let body = read(rt, alloc, BODY);
    let post = read(rt, alloc, POST);
    answers(rt, alloc, (&body, &post), plain)
}

#[test]
fn an_audit_asks_for_labels(rt: HostRuntime) {
    let (body, post) = read_meshes(rt.alloc(), POST_IN_BOX).expect(&rt, "two meshes");
    let answers = answers_beside(&rt, rt.alloc(), (&body, &post));
    assert!(rt; answers == [true, false, false, false]);
}

// How many triangles have this label.
fn count_of(mesh: &Mesh, label: &[u8]) -> usize {
    let mut count = 0usize;
    for triangle in 0..mesh.triples().len() {
        if mesh.label(triangle as u32) == label {
            count = count.wrapping_add(1);
        }
    }
    count
}

// How many triangles of the body less another mesh have its label, and how many have none.
fn counts_of_rest(rt: &impl Abort, alloc: Global, other: &Mesh) -> (usize, usize) {
    let body = read(rt, alloc, BODY);
    let rest = to_the_nearest(rt, alloc, Op::Subtract, &body, other);
    (count_of(&rest.mesh, b"body"), count_of(&rest.mesh, b""))
}

#[test]
fn faces_of_a_mesh_without_labels_stay_without(rt: HostRuntime) {
    let (_, post) = read_meshes(rt.alloc(), POST_IN_BOX).expect(&rt, "two meshes");
    let (of_body, without) = counts_of_rest(&rt, rt.alloc(), &post);
    assert!(rt; of_body == 24);
    assert!(rt; without == 16);
}

// The labels of the box with a sheet.
const LABELS: &str = "xabcdefyghijkl";

fn expect_kept_by_copy(rt: &impl Abort, alloc: Global, mesh: &Mesh) {
    let copy = mesh.clone().expect(rt, "a copy");
    expect_labels(rt, alloc, &copy, LABELS);
}

fn expect_kept_by_shift(rt: &impl Abort, alloc: Global, mesh: &Mesh) {
    let shifted = shift(alloc, mesh, [1, 2, 3]).expect(rt, "it stays on the grid");
    expect_labels(rt, alloc, &shifted, LABELS);
}

fn expect_kept_by_scale(rt: &impl Abort, alloc: Global, mesh: &Mesh) {
    let scaled = scale(alloc, mesh, 3).expect(rt, "it stays on the grid");
    expect_labels(rt, alloc, &scaled, LABELS);
}

fn expect_kept_by_mirror(rt: &impl Abort, alloc: Global, mesh: &Mesh) {
    let mirrored = mirror(alloc, mesh, 1).expect(rt, "it stays on the grid");
    expect_labels(rt, alloc, &mirrored, LABELS);
}

fn expect_kept_by_turn(rt: &impl Abort, alloc: Global, mesh: &Mesh) {
    let turned = quarter_turn(alloc, mesh, 2).expect(rt, "it stays on the grid");
    expect_labels(rt, alloc, &turned, LABELS);
}

// A reduced mesh has lost its sheet.
fn expect_kept_by_reduction(rt: &impl Abort, alloc: Global, mesh: &Mesh) {
    let reduced = reduce(alloc, mesh).expect(rt, "memory");
    expect_labels(rt, alloc, &reduced, "abcdefghijkl");
}

#[test]
fn reduction_and_motions_keep_labels(rt: HostRuntime) {
    let mesh = read(&rt, rt.alloc(), BOX_WITH_SHEET);
    expect_labels(&rt, rt.alloc(), &mesh, LABELS);
    expect_kept_by_copy(&rt, rt.alloc(), &mesh);
    expect_kept_by_shift(&rt, rt.alloc(), &mesh);
    expect_kept_by_scale(&rt, rt.alloc(), &mesh);
    expect_kept_by_mirror(&rt, rt.alloc(), &mesh);
    expect_kept_by_turn(&rt, rt.alloc(), &mesh);
    expect_kept_by_reduction(&rt, rt.alloc(), &mesh);
}
