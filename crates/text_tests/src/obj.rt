// What OBJ texts are read as, and what refuses them.
ghost use Rattle.std.specs.Prelude.{◌≤◌};

use crate::lists::joined;
use crate::texts::{Lists, Refused, is_over, is_read, is_refused_at, refuses};
use mb_base::{Counted, Limits, TextKind};
use std::alloc::Global;
use std::process::Abort;

pub const TETRAHEDRON: &[u8] =
    b"v 0 0 0\nv 1 0 0\nv 0 1 0\nv 0 0 1\nf 1 3 2\nf 1 2 4\nf 2 3 4\nf 3 1 4\n";

// The file as an editor on another system may save it: a mark at the start, CRLF, tabs, spare blanks, empty
// lines, comments, and no end of the last line.
const SPACED: &[u8] =
    b"\xef\xbb\xbf\r\n \t v\t0 0  0\r\nv 01 -0 +.0e9 1 \r\n# f 1 2\\\r\nv 0 1 0\r\nv 0 0 1\r\n\tf 1 3 2\r\nf 1 2 004 # f\r\nf 2 3 4\r\n \r\nf 3 1 4";

// The file with lines that go on, other numbers of the same points, and what is passed over.
const DRESSED: &[u8] =
    b"mtllib a \\\nv\nv 0 0\\\n 0\ng \nv 1 0 0 1 1 1 1\nv 0 1 0\nvn 0 0 1\nv 9 9 9\nv 0 \\\n\\\n0 1\nf 1/1 3//-3 2/2/2\nf -5 -4 -1\\\n\nusemtl f\nf -4//1 -3//1 -1//1 \\\n#\nf 3 1 5\n";

// The corners and the triangles of the file.
const CORNERS: [[i32; 3]; 4] = [[0, 0, 0], [10_000, 0, 0], [0, 10_000, 0], [0, 0, 10_000]];

const SIDES: [[u32; 3]; 4] = [[0, 2, 1], [0, 1, 3], [1, 2, 3], [2, 0, 3]];

// A face of five vertices, counted back but for the last, and a point that it leaves out; then its corners and its fan.
const POLYGON: &[u8] = b"v 5 5 5\nv 0 0 0\nv 2.5 0 0\nv 2 2 0\nv 1 3 0\nv 0 2 0\nf -5 -4 -3 -2 6\n";

const FIVE: [[i32; 3]; 5] = [[0, 0, 0], [3, 0, 0], [2, 2, 0], [1, 3, 0], [0, 2, 0]];

const FAN: [[u32; 3]; 3] = [[0, 1, 2], [0, 2, 3], [0, 3, 4]];

// Points on a line, and a face through all of them.
const MANY_POINTS: &[u8] =
    b"v 0 0 0\nv 1 0 0\nv 2 0 0\nv 3 0 0\nv 4 0 0\nv 5 0 0\nv 6 0 0\nv 7 0 0\nv 8 0 0\nv 9 0 0\nv 10 0 0\nv 11 0 0\nv 12 0 0\nv 13 0 0\n";

const MANY_CORNERS: &[u8] = b"f 7 1 14 2 13 3 12 4 11 5 10 6 9 8\n";

const FOURTEEN: [[i32; 3]; 14] = [
    [0, 0, 0],
    [1, 0, 0],
    [2, 0, 0],
    [3, 0, 0],
    [4, 0, 0],
    [5, 0, 0],
    [6, 0, 0],
    [7, 0, 0],
    [8, 0, 0],
    [9, 0, 0],
    [10, 0, 0],
    [11, 0, 0],
    [12, 0, 0],
    [13, 0, 0],
];

const WIDE_FAN: [[u32; 3]; 12] = [
    [6, 0, 13],
    [6, 13, 1],
    [6, 1, 12],
    [6, 12, 2],
    [6, 2, 11],
    [6, 11, 3],
    [6, 3, 10],
    [6, 10, 4],
    [6, 4, 9],
    [6, 9, 5],
    [6, 5, 8],
    [6, 8, 7],
];

// The two parts of a file, the digits of the grid, and the lists that it gives.
static READ: [(&[u8], &[u8], u8, Lists<'static>); 6] = [
    (TETRAHEDRON, b"", 4, (&CORNERS, 0, &SIDES)),
    (SPACED, b"", 4, (&CORNERS, 0, &SIDES)),
    (DRESSED, b"", 4, (&CORNERS, 1, &SIDES)),
    (b"", b"", 0, (&[], 0, &[])),
    (POLYGON, b"", 0, (&FIVE, 1, &FAN)),
    (MANY_POINTS, MANY_CORNERS, 0, (&FOURTEEN, 0, &WIDE_FAN)),
];

// Whether a file of two parts gives these lists.
fn gives(
    rt: &impl Abort,
    alloc: Global,
    front: &[u8],
    after: &[u8],
    digits: u8,
    wanted: &Lists<'_>,
) -> bool
    requires { digits ≤ 6 }
{
    let bytes = joined(alloc, front, after, b"").expect(rt, "a text");
    is_read(alloc, false, &bytes, digits, &Limits::program(), wanted)
}

#[test]
fn reads_meshes(rt: HostRuntime) {
    for (front, after, digits, wanted) in &READ {
        assert!(rt;
            *digits <= 6 && gives(&rt, rt.alloc(), front, after, *digits, wanted),
            "at {front:?}"
        );
    }
}

// Files, with the line and the fault that refuse them.
static REFUSED: [Refused; 22] = [
    (b"v 0 0 0\nvn 0 0 1\nx\nv 0", 3, TextKind::UnknownLine),
    (b"vp 1\n", 1, TextKind::UnknownLine),
    (b"o \\\n \\\nv\nV 1 2 3\n", 4, TextKind::UnknownLine),
    (b"v 1 2 3 \\\n# c \\\nq\n", 3, TextKind::UnknownLine),
    (b"\r\nv 0 \\\r\n0\r\nq", 2, TextKind::BadVertex),
    (b"v 0 0 # 0\n", 1, TextKind::BadVertex),
    (b"v 0 0 x 0 0 0 0 0\n", 1, TextKind::BadVertex),
    (b"v 107375 0 x\n", 1, TextKind::OutOfGrid),
    (b"v 0 x 107375\n", 1, TextKind::BadNumber),
    (b"v 0 0 0#\n", 1, TextKind::BadNumber),
    (
        b"v 0 0 99999999999999999999999999\n",
        1,
        TextKind::OutOfGrid,
    ),
    (b"f 0 0\n", 1, TextKind::BadFace),
    (b"f 1/ 0 0\n", 1, TextKind::BadFace),
    (b"f 1//1/ 0 0\n", 1, TextKind::BadFace),
    (b"f +1 0 0\n", 1, TextKind::BadFace),
    (b"v 0 0 0\nf 1 1 2 x\n", 2, TextKind::BadIndex),
    (b"v 0 0 0\nf -0 x x\n", 2, TextKind::BadIndex),
    (b"v 0 0 0\nf 1 -2 x\n", 2, TextKind::BadIndex),
    (b"v 0 0 0\nf 4294967297 1 1\n", 2, TextKind::BadIndex),
    (b"v 0 0 0\nf 1 1 1 4/1/1\nv 1 0 0\n", 2, TextKind::BadIndex),
    (
        b"v 0 0 0\nv 1 0 0\nf 1 2 -2\n",
        3,
        TextKind::FaceRepeatsVertex,
    ),
    (
        b"v 0 0 0\nv 1 0 0\nv 1 1 0\nv 0 1 0\nf 1 2 3 4 3\n",
        5,
        TextKind::FaceRepeatsVertex,
    ),
];

#[test]
fn refuses_the_first_faulty_line(rt: HostRuntime) {
    refuses(&rt, rt.alloc(), false, b"", &REFUSED);
}

#[test]
fn finds_a_repeat_among_many_vertices(rt: HostRuntime) {
    let faces = b"f 7 1 14 2 13 3 12 4 11 5 10 6 9 8\nf 7 1 14 2 13 3 12 4 11 5 10 6 9 8 4\n";
    let bytes = joined(rt.alloc(), MANY_POINTS, faces, b"").expect(&rt, "a text");
    assert!(rt;
        is_refused_at(
            rt.alloc(),
            false,
            &bytes,
            0,
            16,
            TextKind::FaceRepeatsVertex
        )
    );
}

const SQUARE: &[u8] = b"v 0 0 0\nv 1 0 0\nv 1 1 0\nf 1 2 3\nv 0 1 0\nf 1 2 3 4\n";

#[test]
fn counts_to_the_limits(rt: HostRuntime) {
    let alloc = rt.alloc();
    let three = Limits::of(1000, 3, 2, 1).expect(&rt, "limits");
    assert!(rt; is_over(alloc, false, TETRAHEDRON, &three, Counted::Points, 4));
    let four = Limits::of(1000, 4, 2, 1).expect(&rt, "limits");
    for bytes in &[TETRAHEDRON, SQUARE] {
        assert!(rt;
            is_over(alloc, false, bytes, &four, Counted::Triangles, 3),
            "at {bytes:?}"
        );
    }
}

// Three points and a triangle in plain lines.
const FRONT: &[u8] = b"v 0 0 0\nv 1 0 0\nv 0 1 0\nf 1 2 3\n";

// Their points, the triangles of FRONT and its reverse, and those of the mixed lines.
const THREE: [[i32; 3]; 3] = [[0, 0, 0], [10_000, 0, 0], [0, 10_000, 0]];

const BOTH: [[u32; 3]; 2] = [[0, 1, 2], [2, 1, 0]];

const FOUR: [[i32; 3]; 4] = [
    [0, 0, 0],
    [10_000, 0, 0],
    [0, 10_000, 0],
    [90_000, 90_000, 90_000],
];

const MIXED: [[u32; 3]; 4] = [[0, 1, 2], [2, 1, 0], [0, 1, 2], [1, 3, 2]];

// Plain lines that end at LF or at CR LF, and lines that are not plain for one reason each: a tab, two blanks, one at
// the end or at the front, a slash, a minus, ten digits, a comment, a backslash, no LF; and plain points before a face.
// The answers are those of an independent reference program, which was written from the definitions alone.
static PLAIN: [&[u8]; 17] = [
    b"f 3 2 1\n",
    b"f 000000003 2 1\n",
    b"f 3 2 1\r\n",
    b"f 3\t2 1\n",
    b"f 3  2 1\n",
    b"f 3 2 1 \n",
    b" f 3 2 1\n",
    b"f  3 2 1\n",
    b"f 3/1 2 1\n",
    b"f -1 2 1\n",
    b"f 0000000003 2 1\n",
    b"f 3 2 1 # 1\n",
    b"f 3 2\\\n 1\n",
    b"f 3 2 1\\\n",
    b"f 3 2 1",
    b"f 3 2 1\r",
    b"f 3 2 1 \r\n",
];

// The same beside a point that is left out.
static PLAIN_BESIDE: [&[u8]; 6] = [
    b"v 2 2 2\nf 3 2 1\n",
    b"v 2 2 2\r\nf 3 2 1\r\n",
    b"v 2 2 2.5\nf 3 2 1\r\n",
    b"v 2 2 2.5\r\nf 3 2 1\n",
    b"v 2 2 2e0\r\n\r\nf 3 2 1\r\n",
    b"#\nv 2 2 2e0\r\nf 3 2 1\n",
];

// Triangles with a point of their own.
static MIXED_LINES: [&[u8]; 2] = [
    b"f 3 2 1\nv 9 9 9\nf 1 2 3 \nf 2 4 3\n",
    b"f 3 2 1\r\nv 9 9 9\r\nf 1 2 3\nf 2 4 3\r\n",
];

// Each text after FRONT gives these lists.
fn assert_given(rt: &impl Abort, alloc: Global, rows: &[&[u8]], wanted: &Lists<'_>) {
    for after in rows {
        assert!(rt; gives(rt, alloc, FRONT, after, 4, wanted), "at {after:?}");
    }
}

#[test]
fn reads_plain_lines_among_others(rt: HostRuntime) {
    assert_given(&rt, rt.alloc(), &PLAIN, &(&THREE, 0, &BOTH));
    assert_given(&rt, rt.alloc(), &PLAIN_BESIDE, &(&THREE, 1, &BOTH));
    assert_given(&rt, rt.alloc(), &MIXED_LINES, &(&FOUR, 0, &MIXED));
}

// What stands after FRONT, with the line and the fault that refuse the file.
static REFUSED_LATER: [Refused; 29] = [
    (b"f 0 1 2\n", 5, TextKind::BadIndex),
    (b"f 1 2 4\n", 5, TextKind::BadIndex),
    (b"f 4294967297 2 3\n", 5, TextKind::BadIndex),
    (b"f 999999999 2 1\n", 5, TextKind::BadIndex),
    (b"f 1 2 2\n", 5, TextKind::FaceRepeatsVertex),
    (b"f 1 2 1\n", 5, TextKind::FaceRepeatsVertex),
    (b"f 2 2 1\n", 5, TextKind::FaceRepeatsVertex),
    (b"f 1 2\n", 5, TextKind::BadFace),
    (b"f 1 2 \n", 5, TextKind::BadFace),
    (b"f 1 2 3-\n", 5, TextKind::BadFace),
    (b"f 1 2 3#\n", 5, TextKind::BadFace),
    (b"f 1 2 3\n\x0b", 6, TextKind::UnknownLine),
    (b"f 1 2 3\r\r\n", 5, TextKind::BadFace),
    (b"f 1 2 3\rf 1 2 3\n", 5, TextKind::BadFace),
    (b"v 1 2 3\r\r\n", 5, TextKind::BadNumber),
    (b"v 1 2 3\rv 1 2 3\n", 5, TextKind::BadNumber),
    (b"v 1 2 -\n", 5, TextKind::BadNumber),
    (b"v 1 2 .\n", 5, TextKind::BadNumber),
    (b"v 1 2 1.5.\n", 5, TextKind::BadNumber),
    (b"v 1 --1 2\n", 5, TextKind::BadNumber),
    (b"v 1 2 1e\n", 5, TextKind::BadNumber),
    (b"v 1 2 3#\n", 5, TextKind::BadNumber),
    (b"v 1 2 1.5e99\n", 5, TextKind::OutOfGrid),
    (b"v 107375 2 1\n", 5, TextKind::OutOfGrid),
    (b"v 1 2 \n", 5, TextKind::BadVertex),
    (b"v 1 2 3\n\nf 5 1 2\n", 7, TextKind::BadIndex),
    (b"v 1 2 3\r\nf 4 2 1\r\nf 5 1 2\r\n", 7, TextKind::BadIndex),
    (b"f 3 2 1\r\nq\r\n", 6, TextKind::UnknownLine),
    (b"f 3 2 1\nv 1 2 3\nf 3 2 1 \nq\n", 8, TextKind::UnknownLine),
];

#[test]
fn refuses_faults_after_plain_lines(rt: HostRuntime) {
    refuses(&rt, rt.alloc(), false, FRONT, &REFUSED_LATER);
}

// Numbers, and what they are in hundredths by an independent reference program.
static NUMBERS: [(&str, i32); 22] = [
    ("0", 0),
    ("-0", 0),
    ("-7", -700),
    ("1.5", 150),
    ("-1.25", -125),
    ("1.254", 125),
    ("1.255", 126),
    ("-1.255", -126),
    ("1.2549999999999", 125),
    ("0.0049", 0),
    ("-0.005", -1),
    ("1.", 100),
    ("007.10", 710),
    ("10737418.24", 1_073_741_824),
    ("10737418.244", 1_073_741_824),
    ("-10737418.24", -1_073_741_824),
    (".5", 50),
    ("+3", 300),
    ("1e2", 10_000),
    ("1.5e-1", 15),
    ("0.00000000000000000001", 0),
    ("1.999999999999999999999", 200),
];

const ONE: [[u32; 3]; 1] = [[0, 1, 2]];

// Whether a number is read as so many steps, of which one has so many.
fn is_in_steps(rt: &impl Abort, alloc: Global, word: &str, digits: u8, steps: i32, one: i32) -> bool
    requires { digits ≤ 6 }
{
    let after = b" 1 1\nv 0 0 0\nv 0 1 0\nf 1 2 3\n";
    let places = [[steps, one, one], [0, 0, 0], [0, one, 0]];
    let bytes = joined(alloc, b"v ", word.as_bytes(), after).expect(rt, "a text");
    is_read(
        alloc,
        false,
        &bytes,
        digits,
        &Limits::program(),
        &(&places, 0, &ONE),
    )
}

#[test]
fn reads_the_numbers_of_plain_lines(rt: HostRuntime) {
    for (word, value) in &NUMBERS {
        assert!(rt;
            is_in_steps(&rt, rt.alloc(), word, 2, *value, 100),
            "at {word}"
        );
    }
    assert!(rt;
        is_in_steps(&rt, rt.alloc(), "0.5", 0, 1, 1),
        "at no digits"
    );
}
