// The groups of faces: what is read of a `g` line, and what is written of it.
use crate::lists::joined;
use mb_base::{Labels, Limits, Soup};
use mb_outside::MemorySink;
use mesh_check::Mesh;
use mesh_writer::write_obj;
use obj_text::read_obj;
use std::alloc::Global;
use std::process::Abort;

// A triangle and its reverse, and between them the line of a group.
const FRONT: &[u8] = b"v 0 0 0\nv 1 0 0\nv 0 1 0\nf 1 2 3\n";

const AFTER: &[u8] = b"f 3 2 1\n";

// The line of a group, as it is read and as it is written.
static GROUPS: [(&[u8], &[u8]); 14] = [
    (b"", b""),
    (b"g\n", b""),
    (b"g # red\n", b""),
    (b"g red\ng\n", b""),
    (b"g red\n", b"g red\n"),
    (b"\tg  red \t blue # green\r\n", b"g red blue\n"),
    (b"g red \\\n blue\n", b"g red blue\n"),
    (b"o red\ng body\ns off\nusemtl blue\n", b"g body\n"),
    (b"g a\\b\x01\x7f \x1f\n", b"g a_b__ _\n"),
    (b"g \xc3\xa4 \xff#\n", b"g \xc3\xa4 \xff#\n"),
    // 64 bytes, and 65.
    (
        b"g xxxxxxxxxxxxxxxxxxxxxxxxxxxxxxxxxxxxxxxxxxxxxxxxxxxxxxxxxxxxxxxx\n",
        b"g xxxxxxxxxxxxxxxxxxxxxxxxxxxxxxxxxxxxxxxxxxxxxxxxxxxxxxxxxxxxxxxx\n",
    ),
    (
        b"g xxxxxxxxxxxxxxxxxxxxxxxxxxxxxxxxxxxxxxxxxxxxxxxxxxxxxxxxxxxxxxxxy\n",
        b"g xxxxxxxxxxxxxxxxxxxxxxxxxxxxxxxxxxxxxxxxxxxxxxxxxxxxxxxxxxxxxxxx\n",
    ),
    // A blank as byte 64, and as byte 63.
    (
        b"g xxxxxxxxxxxxxxxxxxxxxxxxxxxxxxxxxxxxxxxxxxxxxxxxxxxxxxxxxxxxxxx y\n",
        b"g xxxxxxxxxxxxxxxxxxxxxxxxxxxxxxxxxxxxxxxxxxxxxxxxxxxxxxxxxxxxxxx\n",
    ),
    (
        b"g xxxxxxxxxxxxxxxxxxxxxxxxxxxxxxxxxxxxxxxxxxxxxxxxxxxxxxxxxxxxxx yz\n",
        b"g xxxxxxxxxxxxxxxxxxxxxxxxxxxxxxxxxxxxxxxxxxxxxxxxxxxxxxxxxxxxxx y\n",
    ),
];

// What is read where this line stands between the triangles, under limits that allow no more.
fn read_between(rt: &impl Abort, alloc: Global, line: &[u8], limits: &Limits) -> Option<Soup> {
    let bytes = joined(alloc, FRONT, line, AFTER).expect(rt, "a text");
    read_obj(alloc, &bytes, 0, limits).ok()
}

// The mesh of that.
fn mesh_between(rt: &impl Abort, alloc: Global, line: &[u8], limits: &Limits) -> Option<Mesh> {
    Mesh::check(alloc, read_between(rt, alloc, line, limits)?).ok()
}

// Whether this is written of a mesh between the triangles.
fn is_text(rt: &impl Abort, alloc: Global, mesh: &Mesh, wanted: &[u8]) -> bool {
    let text = joined(alloc, FRONT, wanted, AFTER).expect(rt, "a text");
    let mut sink = MemorySink::of(alloc, 1000, 1000, Vec::new(alloc)).expect(rt, "a sink");
    write_obj(mesh, 0, &mut sink).is_ok() && sink.bytes() == text.as_slice()
}

// Whether this is written where that stands between the triangles.
fn is_written(rt: &impl Abort, alloc: Global, line: &[u8], wanted: &[u8], limits: &Limits) -> bool {
    match mesh_between(rt, alloc, line, limits) {
        Some(mesh) => is_text(rt, alloc, &mesh, wanted),
        None => false,
    }
}

// Limits that allow no more than the triangles.
fn limits(rt: &impl Abort) -> Limits {
    Limits::of(321, 3, 2, 0).expect(rt, "these limits are lawful")
}

#[test]
fn groups_are_written_as_they_were_read(rt: HostRuntime) {
    let limits = limits(&rt);
    for (line, wanted) in &GROUPS {
        assert!(rt;
            is_written(&rt, rt.alloc(), line, wanted, &limits),
            "at {line:?}"
        );
        assert!(rt;
            is_written(&rt, rt.alloc(), wanted, wanted, &limits),
            "again at {line:?}"
        );
    }
}

// Whether these are an empty label and this one, and past their end an empty one.
fn are_two(labels: &Labels, second: &[u8]) -> bool {
    labels.len() == 2
        && labels.get(0).is_empty()
        && labels.get(1) == second
        && labels.get(2).is_empty()
}

// Whether labels and their copy are an empty one and this one.
fn are_copied(rt: &impl Abort, alloc: Global, labels: &Labels, second: &[u8]) -> bool {
    let copy = labels.copy(alloc).expect(rt, "a copy");
    are_two(labels, second) && are_two(&copy, second)
}

// What is read where this line stands between the triangles.
fn soup_between(rt: &impl Abort, alloc: Global, line: &[u8]) -> Soup {
    read_between(rt, alloc, line, &limits(rt)).expect(rt, "this is read")
}

#[test]
fn labels_stand_by_their_triangles(rt: HostRuntime) {
    assert!(rt; soup_between(&rt, rt.alloc(), b"g\n").labels().is_none());
    let grouped = soup_between(&rt, rt.alloc(), b"g red  blue\n");
    let labels = grouped.labels().expect(&rt, "one has a label");
    assert!(rt; are_copied(&rt, rt.alloc(), labels, b"red blue"));
}
