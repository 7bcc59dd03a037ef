// What ASCII STL texts are read as, and what refuses them.
use crate::texts::{Lists, Refused, is_over, is_read, is_refused_at, refuses};
use mb_base::{Counted, Limits, TextKind};

// A facet of 3 corners, before and after other text.
const TETRAHEDRON: &[u8] = b"solid t
facet normal 0 0 0
outer loop
vertex 0 0 0
vertex 0 1 0
vertex 1 0 0
endloop
endfacet
facet normal 0 0 0
outer loop
vertex 0 0 0
vertex 1 0 0
vertex 0 0 1
endloop
endfacet
facet normal 0 0 0
outer loop
vertex 1 0 0
vertex 0 1 0
vertex 0 0 1
endloop
endfacet
facet normal 0 0 0
outer loop
vertex 0 1 0
vertex 0 0 0
vertex 0 0 1.00001
endloop
endfacet
endsolid t
";

// The same by a writer on another system: a mark at the start, CR LF, tabs, keywords in any case, blanks and
// line ends anywhere, two solids whose names look like keywords, a triangle with one corner twice, and no
// end of the last line.
const SPACED: &[u8] =
    b"\xef\xbb\xbf\r\n \tSOLID facet\tendsolid \r\nFacet Normal a\r\nb c\tOUTER\r\n\r\nloop Vertex +0 -0 0e9 vertex 0 1. 0 vertex 1 0 0 endLOOP endfacet facet normal outer loop endloop outer loop vertex 0 0 0\r\nvertex 1.00001 0 0 vertex\t0\t0\r\n1 endloop endfacet endsolid solid facet\r\nsolid\r\nfacet normal 0 0 0 outer loop vertex 1 0 0 vertex 0 1 0 vertex 0 0 1 endloop endfacet\r\nfacet normal 0 0 0 outer loop vertex 0 1 0 vertex 0 0 0 vertex 0 0 1 endloop endfacet\r\nfacet normal 0 0 0 outer loop vertex 0 0 0 vertex 7 7 7 vertex 7 7 7 endloop endfacet endsolid";

// The corners and the triangles of the tetrahedron.
const CORNERS: [[i32; 3]; 4] = [[0, 0, 0], [0, 10_000, 0], [10_000, 0, 0], [0, 0, 10_000]];

const SIDES: [[u32; 3]; 4] = [[0, 1, 2], [0, 2, 3], [2, 1, 3], [1, 0, 3]];

static READ: [(&[u8], Lists<'static>); 2] = [
    (TETRAHEDRON, (&CORNERS, 0, &SIDES)),
    (SPACED, (&CORNERS, 1, &SIDES)),
];

#[test]
fn reads_a_tetrahedron(rt: HostRuntime) {
    let limits = Limits::program();
    for (bytes, wanted) in &READ {
        assert!(rt;
            is_read(rt.alloc(), true, bytes, 4, &limits, wanted),
            "at {bytes:?}"
        );
    }
}

// The head of a binary file: 80 bytes, which may begin with `solid`, the number of triangles, and a triangle.
const BINARY: &[u8] =
    b"solid made by a scanner, in 80 bytes, as some programs write them to this day      \x01\0\0\0\0\0\0\0\0\0\0\0\0\0\x80\x3f\0\0\0\0\0\0\0\0\0\0\0\0\0\0\x80\x3f\0\0\0\0\0\0\0\0\0\0\0\0\0\0\x80\x3f\0\0\0\0\0\0";

static REFUSED: [Refused; 18] = [
    (b"", 1, TextKind::NotStl),
    (b"\n\r\n \n", 4, TextKind::NotStl),
    (b"v 0 0 0\n", 1, TextKind::NotStl),
    (BINARY, 1, TextKind::NotStl),
    (b"solid \xff\xfe\n\xff", 2, TextKind::NotStl),
    (b"\x80\n", 1, TextKind::NotStl),
    (b"solid t\nfacet\n\nnormal 0\n", 5, TextKind::NotStl),
    (b"solid\nfacets", 2, TextKind::NotStl),
    (b"solid\nendsolid\nfacet", 3, TextKind::NotStl),
    (
        b"solid facet\nfacet normal 0 0 outer\nloop",
        3,
        TextKind::NotStl,
    ),
    (
        b"solid\nfacet normal 0 0 0 outer loop vertex 0 0 0 vertex 0 0 0\nendloop",
        3,
        TextKind::NotStl,
    ),
    (
        b"solid\nfacet normal 0 0 0 outer loop\nvertex 0 0 endloop\n",
        3,
        TextKind::BadNumber,
    ),
    (
        b"solid\nfacet normal 0 0 0 outer loop\nvertex 0\n0\n\xff 0",
        5,
        TextKind::BadNumber,
    ),
    (
        b"solid\nfacet normal 0 0 0 outer loop\nvertex 107375 0 x\n",
        3,
        TextKind::OutOfGrid,
    ),
    (
        b"solid\nfacet normal 0 0 0 outer loop\nvertex 0 0\n\n",
        5,
        TextKind::NotStl,
    ),
    (
        b"solid\nfacet normal 0 0 0 outer loop vertex 0 0 0 vertex 0 0 0 vertex 0 0 0\nendloop\nendfacets",
        4,
        TextKind::NotStl,
    ),
    (
        b"solid t\rfacet\nendsolid\r\nendsolid\r",
        3,
        TextKind::NotStl,
    ),
    (b"solid t # c\n# c\nendsolid", 2, TextKind::NotStl),
];

#[test]
fn refuses_the_first_fault(rt: HostRuntime) {
    refuses(&rt, rt.alloc(), true, b"", &REFUSED);
}

#[test]
fn a_text_cut_after_any_line_ends_too_early(rt: HostRuntime) {
    let mut line = 1;
    for (end, byte) in TETRAHEDRON.iter().enumerate() {
        if *byte != b'\n' {
            continue;
        }
        if line < 30 {
            line += 1;
            let text = &TETRAHEDRON[..end + 1];
            assert!(rt;
                is_refused_at(rt.alloc(), true, text, 4, line, TextKind::NotStl),
                "{line}"
            );
        }
    }
    assert!(rt; line == 30);
}

#[test]
fn counts_to_the_limits(rt: HostRuntime) {
    let alloc = rt.alloc();
    let three_points = Limits::of(1000, 3, 2, 1).expect(&rt, "limits");
    assert!(rt; is_over(alloc, true, TETRAHEDRON, &three_points, Counted::Points, 4));
    let three_triangles = Limits::of(1000, 5, 3, 1).expect(&rt, "limits");
    assert!(rt;
        is_over(
            alloc,
            true,
            TETRAHEDRON,
            &three_triangles,
            Counted::Triangles,
            4
        )
    );
    let four_triangles = Limits::of(1000, 6, 4, 1).expect(&rt, "limits");
    assert!(rt;
        is_read(
            alloc,
            true,
            TETRAHEDRON,
            4,
            &four_triangles,
            &(&CORNERS, 0, &SIDES)
        )
    );
}
