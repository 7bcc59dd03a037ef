// Whole runs where calls fail, where a file is cut or shorter than it is said to be, and where limits are met.
ghost use Rattle.std.specs.Prelude.{◌≡◌, ◌<◌, ◌^◌, ◌-◌, IfOk};

use super::files::TETRAHEDRON;
use super::{Case, ROOM, expect_run, judge, sink, status_on};
use mb_base::{Limits, NoMemory};
use mb_outside::{MemoryShelf, ShortShelf};
use std::alloc::Global;
use std::marker::Brand;
use std::process::Abort;
use std::sync::ledger::Blank;
use std::test::Fail;

static COPY: [&str; 3] = ["copy", "t.obj", "u.obj"];

static RUN: [&str; 2] = ["run", "s.txt"];

const NOTHING: &[u8] = b"";

const READ_FAULT: &[u8] = b"t.obj: read fault\n";

const WRITE_FAULT: &[u8] = b"u.obj: write fault\n";

const COPIED: &[u8] = b"copied u.obj: points 4, triangles 4, unused 0\n";

// A copy to u.obj without faults, under the program's limits, and how it ends. The line goes to the output where that is well.
fn copy<'a>(bytes: &'a [u8], status: u8, line: &'a [u8], saved: Option<&'a [u8]>) -> Case<'a> {
    let is_done = status == 0;
    Case {
        words: &COPY,
        name: "t.obj",
        bytes,
        to: "u.obj",
        most: 64,
        shelf_fails: 0,
        out_fails: 0,
        limits: Limits::program(),
        status,
        out: if is_done { line } else { NOTHING },
        err: if is_done { NOTHING } else { line },
        is_saved: saved.is_some(),
        saved: saved.unwrap_or(NOTHING),
    }
}

// Which call of the shelf fails and which write of the output, 0 for none, the status, what the output and the error line tell, and what is saved.
static FAILING: [(u64, u64, u8, &[u8], &[u8], Option<&[u8]>); 7] = [
    (1, 0, 6, b"", READ_FAULT, None),
    (2, 0, 6, b"", READ_FAULT, None),
    (3, 0, 7, b"", WRITE_FAULT, None),
    (4, 0, 7, b"", WRITE_FAULT, Some(NOTHING)),
    // The size, one read, the beginning and one piece: no fifth call is made.
    (5, 0, 0, COPIED, b"", Some(TETRAHEDRON)),
    (0, 1, 7, b"", b"report: write fault\n", Some(TETRAHEDRON)),
    (
        0,
        2,
        7,
        b"copied ",
        b"report: write fault\n",
        Some(TETRAHEDRON),
    ),
];

#[test]
fn the_first_call_that_fails_ends_the_run(rt: HostRuntime) -> Result<(), Fail> {
    for (shelf_fails, out_fails, status, out, err, saved) in &FAILING {
        let mut case = copy(TETRAHEDRON, *status, err, *saved);
        case.shelf_fails = *shelf_fails;
        case.out_fails = *out_fails;
        case.out = *out;
        judge(&rt, &case)?;
    }
    Ok(())
}

// Whether a copy of no file ends with this status and tells nothing, where the first write of the error line fails.
fn is_silent<R: AllocGlobal>(rt: &R, status: u8) -> Result<bool, NoMemory> {
    let alloc = rt.alloc();
    let mut shelf = MemoryShelf::of(alloc, 4, ROOM, ROOM, Vec::new(alloc))?;
    let mut out = sink(alloc, 0)?;
    let mut err = sink(alloc, 1)?;
    let limits = Limits::program();
    let blank = Blank::new(1);
    let ended = status_on::<_, Brand>(
        alloc, &COPY, &limits, &mut shelf, &mut out, &mut err, blank,
    )?;
    Ok(ended == status && out.bytes().is_empty() && err.bytes().is_empty())
}

#[test]
fn an_error_line_that_fails_changes_no_status(rt: HostRuntime) -> Result<(), Fail> {
    assert!(rt; is_silent(&rt, 3)?);
    Ok(())
}

// A copy of the tetrahedron's 64 bytes from a shelf that states this size of them and takes no byte.
fn judge_stated<R: Abort + AllocGlobal>(
    rt: &R,
    stated: u64,
    status: u8,
    err: &[u8],
) -> Result<(), NoMemory> {
    let mut shelf = ShortShelf::of(rt.alloc(), "t.obj", TETRAHEDRON, stated)?;
    expect_run(
        rt,
        &COPY,
        &Limits::program(),
        &mut shelf,
        0,
        status,
        [b"", err],
    )
}

#[test]
fn as_many_bytes_are_read_as_are_stated(rt: HostRuntime) -> Result<(), Fail> {
    judge_stated(&rt, 100, 6, READ_FAULT)?;
    judge_stated(&rt, 60, 4, b"t.obj:8: 5 BadFace\n")?;
    judge_stated(&rt, 64, 7, WRITE_FAULT)?;
    Ok(())
}

// The first and the last of some lengths, and how a copy of so many bytes of the tetrahedron ends.
static CUT: [(usize, usize, u8, &[u8]); 17] = [
    (0, 0, 0, b"copied u.obj: points 0, triangles 0, unused 0\n"),
    (1, 6, 4, b"t.obj:1: 2 BadVertex\n"),
    (7, 8, 0, b"copied u.obj: points 0, triangles 0, unused 1\n"),
    (9, 14, 4, b"t.obj:2: 2 BadVertex\n"),
    (
        15,
        16,
        0,
        b"copied u.obj: points 0, triangles 0, unused 2\n",
    ),
    (17, 22, 4, b"t.obj:3: 2 BadVertex\n"),
    (
        23,
        24,
        0,
        b"copied u.obj: points 0, triangles 0, unused 3\n",
    ),
    (25, 30, 4, b"t.obj:4: 2 BadVertex\n"),
    (
        31,
        32,
        0,
        b"copied u.obj: points 0, triangles 0, unused 4\n",
    ),
    (33, 38, 4, b"t.obj:5: 5 BadFace\n"),
    (39, 40, 4, b"t.obj: 11 OpenEdge 1 3\n"),
    (41, 46, 4, b"t.obj:6: 5 BadFace\n"),
    (47, 48, 4, b"t.obj: 11 OpenEdge 1 3\n"),
    (49, 54, 4, b"t.obj:7: 5 BadFace\n"),
    (55, 56, 4, b"t.obj: 11 OpenEdge 1 3\n"),
    (57, 62, 4, b"t.obj:8: 5 BadFace\n"),
    (63, 64, 0, COPIED),
];

// What is saved of so many bytes.
fn saved_of(length: usize, status: u8) -> Option<&'static [u8]> {
    if status != 0 {
        None
    } else if length < 63 {
        Some(NOTHING)
    } else {
        Some(TETRAHEDRON)
    }
}

#[test]
fn a_file_may_be_cut_at_any_byte(rt: HostRuntime) -> Result<(), Fail> {
    for (first, last, status, line) in &CUT {
        for length in *first..last.saturating_add(1) {
            let (front, _) = TETRAHEDRON.split_at(length.min(TETRAHEDRON.len()));
            let case = copy(front, *status, line, saved_of(length, *status));
            judge(&rt, &case)?;
        }
    }
    Ok(())
}

const POINT: &[u8] = b"v 0 0 0\n";

// Texts one after the other, each so often, and the line of the limit that they pass.
static PAST: [(&[(&[u8], u32)], &[u8]); 4] = [
    (&[(b" ", 22_471)], b"limit file_bytes 22471\n"),
    (&[(POINT, 211)], b"limit points 211\n"),
    (&[(POINT, 3), (b"f 1 2 3\n", 141)], b"limit triangles 141\n"),
    (
        &[(POINT, 150), (b"f", 1), (NUMBERS, 1)],
        b"limit triangles 148\n",
    ),
];

const NUMBERS: &[u8] =
    b" 1 2 3 4 5 6 7 8 9 10 11 12 13 14 15 16 17 18 19 20 21 22 23 24 25 26 27 28 29 30 31 32 33 34 35 36 37 38 39 40 41 42 43 44 45 46 47 48 49 50 51 52 53 54 55 56 57 58 59 60 61 62 63 64 65 66 67 68 69 70 71 72 73 74 75 76 77 78 79 80 81 82 83 84 85 86 87 88 89 90 91 92 93 94 95 96 97 98 99 100 101 102 103 104 105 106 107 108 109 110 111 112 113 114 115 116 117 118 119 120 121 122 123 124 125 126 127 128 129 130 131 132 133 134 135 136 137 138 139 140 141 142 143 144 145 146 147 148 149 150\n";

// These texts as one.
fn joined(alloc: Global, parts: &'static [(&'static [u8], u32)]) -> Result<Vec<u8>, NoMemory> {
    let mut bytes = Vec::new(alloc);
    for (part, times) in parts {
        for _ in 0..*times {
            bytes.extend_from_slice(part)?;
        }
    }
    Ok(bytes)
}

// A copy under limits that one count passes, over a shelf of which one call fails.
fn judge_past<R: Abort + AllocGlobal>(
    rt: &R,
    limits: Limits,
    parts: &'static [(&'static [u8], u32)],
    shelf_fails: u64,
    line: &'static [u8],
) -> Result<(), NoMemory> {
    let bytes = joined(rt.alloc(), parts)?;
    let case = Case {
        words: &COPY,
        name: "t.obj",
        bytes: &bytes,
        to: "u.obj",
        most: ROOM,
        shelf_fails,
        out_fails: 0,
        limits,
        status: 5,
        out: NOTHING,
        err: line,
        is_saved: false,
        saved: NOTHING,
    };
    judge(rt, &case)
}

#[test]
fn the_first_count_past_its_limit_is_named(rt: HostRuntime) -> Result<(), Fail> {
    // A long file is not read: the second call fails. The others are read at once, and no third call is made.
    let mut fails = 2;
    for (parts, line) in &PAST {
        let limits = Limits::of(22_470, 210, 140, 84).ok_or("these limits are lawful")?;
        judge_past(&rt, limits, parts, fails, line)?;
        fails = 3;
    }
    Ok(())
}

#[test]
fn a_script_is_read_whole_before_a_mesh_is_asked_for(rt: HostRuntime) -> Result<(), Fail> {
    let case = Case {
        words: &RUN,
        name: "s.txt",
        bytes: b"load a a.obj\nunion c a b\n",
        to: "u.obj",
        most: 64,
        // The size and one read: a third call would be that for the mesh.
        shelf_fails: 3,
        out_fails: 0,
        limits: Limits::program(),
        status: 2,
        out: NOTHING,
        err: b"s.txt:2: 23 NameNotDefined\n",
        is_saved: false,
        saved: NOTHING,
    };
    judge(&rt, &case)?;
    Ok(())
}
