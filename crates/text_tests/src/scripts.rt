// What scripts are read as, and which line refuses one.
ghost use Rattle.std.specs.Prelude.{◌≤◌};

use mb_base::Op;
use script_lang::{Line, Script, ScriptFault, Step, Word, read_script};
use std::alloc::Global;
use std::process::Abort;

// A name of 32 bytes.
const LONG: &str = "abcdefghijklmnopqrstuvwxyz_ABCD9";

// The word of the command on a line, and its names and files.
fn words_of<'a>(step: &Step<'a>) -> (&'static str, [&'a str; 3]) {
    match step {
        Step::Load { name, file } => ("load", [name.as_str(), file.as_str(), ""]),
        Step::Save { name, file } => ("save", [name.as_str(), file.as_str(), ""]),
        Step::Measure { name } => ("measure", [name.as_str(), "", ""]),
        Step::Inspect { name } => ("inspect", [name.as_str(), "", ""]),
        Step::Combine {
            op,
            name,
            left,
            right,
        } => (op_word(*op), [name.as_str(), left.as_str(), right.as_str()]),
        Step::MakeBox { name, .. } => ("box", [name.as_str(), "", ""]),
        Step::MakeTetra { name, .. } => ("tetra", [name.as_str(), "", ""]),
        Step::MakePrism { name, .. } => ("prism", [name.as_str(), "", ""]),
        Step::MakeLattice { name, .. } => ("lattice", [name.as_str(), "", ""]),
        Step::Shift { name, source, .. } => ("shift", [name.as_str(), source.as_str(), ""]),
        Step::Scale { name, source, .. } => ("scale", [name.as_str(), source.as_str(), ""]),
        Step::Mirror { name, source, .. } => ("mirror", [name.as_str(), source.as_str(), ""]),
        Step::Turn { name, source, .. } => ("turn", [name.as_str(), source.as_str(), ""]),
        Step::Tidy { name, source } => ("tidy", [name.as_str(), source.as_str(), ""]),
        Step::Remesh { name, source } => ("remesh", [name.as_str(), source.as_str(), ""]),
        Step::Polygon { name, .. } => ("polygon", [name.as_str(), "", ""]),
        Step::Combine2 {
            op,
            name,
            left,
            right,
        } => (
            op2_word(*op),
            [name.as_str(), left.as_str(), right.as_str()],
        ),
        Step::Extrude { name, source, .. } => ("extrude", [name.as_str(), source.as_str(), ""]),
        Step::Exact => ("exact", ["", "", ""]),
    }
}

// The numbers on a line, with 0 for those that it does not have.
fn numbers_of(step: &Step<'_>) -> [i64; 6] {
    match step {
        Step::MakeBox { low, high, .. } => row_of(low.at(), high.at()),
        Step::MakeTetra { at, size, .. } => row_of(at.at(), [*size, 0, 0]),
        Step::MakePrism {
            at,
            size,
            height,
            ..
        } => row_of(at.at(), [*size, *height, 0]),
        Step::MakeLattice { n, seed, .. } => [i64::from(*n), i64::from(*seed), 0, 0, 0, 0],
        Step::Shift { by, .. } => row_of(*by, [0, 0, 0]),
        Step::Scale { factor, .. } => [i64::from(*factor), 0, 0, 0, 0, 0],
        Step::Mirror { axis, .. } | Step::Turn { axis, .. } => { [i64::from(*axis), 0, 0, 0, 0, 0] }
        Step::Polygon { ring, .. } => ring_row(ring.points()),
        Step::Extrude { low, high, .. } => [i64::from(*low), i64::from(*high), 0, 0, 0, 0],
        _ => [0; 6],
    }
}

// How many places there are, and the first and the last.
fn ring_row(ring: &[[i32; 2]]) -> [i64; 6] {
    match ring {
        [[x, y], .., [u, v]] => {
            [
                ring.len() as i64,
                i64::from(*x),
                i64::from(*y),
                i64::from(*u),
                i64::from(*v),
                0,
            ]
        }
        _ => [0; 6],
    }
}

fn row_of(first: [i32; 3], then: [i32; 3]) -> [i64; 6] {
    let ([x, y, z], [u, v, w]) = (first, then);
    [
        i64::from(x),
        i64::from(y),
        i64::from(z),
        i64::from(u),
        i64::from(v),
        i64::from(w),
    ]
}

fn op_word(op: Op) -> &'static str {
    match op {
        Op::Union => "union",
        Op::Intersect => "intersect",
        Op::Subtract => "subtract",
    }
}

fn op2_word(op: Op) -> &'static str {
    match op {
        Op::Union => "union2",
        Op::Intersect => "intersect2",
        Op::Subtract => "subtract2",
    }
}

// The number of a line, the word of its command, its other words, and its numbers.
type Row<'a> = (u64, &'a str, [&'a str; 3], [i64; 6]);

// Whether a line is this row.
fn is_row(line: &Line<'_>, wanted: &Row<'_>) -> bool {
    let (word, names) = words_of(&line.step);
    line.line == wanted.0
        && word == wanted.1
        && names == wanted.2
        && numbers_of(&line.step) == wanted.3
}

// Whether a script has these lines under so many digits.
fn gives(alloc: Global, bytes: &[u8], digits: u8, wanted: &[Row<'_>]) -> bool
    requires { digits ≤ 6 }
{
    match read_script(alloc, bytes, digits) {
        Ok(script) => are_rows(script.lines(), wanted),
        Err(_) => false,
    }
}

// Whether the lines are these rows.
fn are_rows(lines: &[Line<'_>], wanted: &[Row<'_>]) -> bool {
    let mut all = lines.len() == wanted.len();
    for (line, row) in lines.iter().zip(wanted) {
        if !is_row(line, row) {
            all = false;
        }
    }
    all
}

// A script, with the line and the kind of fault that refuse it.
type Refused = (&'static [u8], u64, u8);

// Whether a script is refused so.
fn is_refused(alloc: Global, row: &Refused) -> bool {
    let (bytes, wanted_line, wanted_kind) = row;
    match read_script(alloc, bytes, 0) {
        Err(ScriptFault::Bad { line, kind }) => line == *wanted_line && kind == *wanted_kind,
        _ => false,
    }
}

// Each script is refused at this line, with this kind of fault.
fn refuses(rt: &impl Abort, alloc: Global, rows: &[Refused]) {
    for row in rows {
        assert!(rt; is_refused(alloc, row), "at {:?}", row.0);
    }
}

// No numbers.
const NONE: [i64; 6] = [0; 6];

// Steps in order.
const STEPS: &[u8] =
    b"load a cube.obj\nload b b.obj\nunion u a b\nmeasure u\nsave u u.obj\nexact # from here on\ntidy v u\ntidy v v\nremesh w v\ninspect w\n";

const STEPS_ROWS: [Row<'static>; 10] = [
    (1, "load", ["a", "cube.obj", ""], NONE),
    (2, "load", ["b", "b.obj", ""], NONE),
    (3, "union", ["u", "a", "b"], NONE),
    (4, "measure", ["u", "", ""], NONE),
    (5, "save", ["u", "u.obj", ""], NONE),
    (6, "exact", ["", "", ""], NONE),
    (7, "tidy", ["v", "u", ""], NONE),
    (8, "tidy", ["v", "v", ""], NONE),
    (9, "remesh", ["w", "v", ""], NONE),
    (10, "inspect", ["w", "", ""], NONE),
];

// A mark, comments, blanks and ends of lines, which are passed over.
const COMMENTED: &[u8] =
    b"\xef\xbb\xbf# a\r\n\r\n \tload\ta1  A#.oBj \t#b\r\n#\nsubtract a1 a1 a1\r";

const COMMENTED_ROWS: [Row<'static>; 2] = [
    (3, "load", ["a1", "A#.oBj", ""], NONE),
    (5, "subtract", ["a1", "a1", "a1"], NONE),
];

// A name of 32 bytes, and names that are given again.
const LONG_NAMES: &[u8] =
    b"load abcdefghijklmnopqrstuvwxyz_ABCD9 .obj\nintersect Z abcdefghijklmnopqrstuvwxyz_ABCD9 abcdefghijklmnopqrstuvwxyz_ABCD9\nunion Z Z Z\nsave Z \xc3\xa9.OBJ\n";

const LONG_NAMES_ROWS: [Row<'static>; 4] = [
    (1, "load", [LONG, ".obj", ""], NONE),
    (2, "intersect", ["Z", LONG, LONG], NONE),
    (3, "union", ["Z", "Z", "Z"], NONE),
    (4, "save", ["Z", "\u{e9}.OBJ", ""], NONE),
];

// Solids and motions with their numbers.
const NUMBERED: &[u8] =
    b"box a -1 2. 3.4 +4e1 05 5.5\ntetra t 0 0 0 6\nprism p 1 2 3 4 -5\nlattice l 60 0999999\nshift w p 1 -2 1073741824\nscale q p 1000000\nmirror m q x\nmirror m m y\nturn r m z\n";

const NUMBERED_ROWS: [Row<'static>; 9] = [
    (1, "box", ["a", "", ""], [-1, 2, 3, 40, 5, 6]),
    (2, "tetra", ["t", "", ""], [0, 0, 0, 6, 0, 0]),
    (3, "prism", ["p", "", ""], [1, 2, 3, 4, -5, 0]),
    (4, "lattice", ["l", "", ""], [60, 999_999, 0, 0, 0, 0]),
    (5, "shift", ["w", "p", ""], [1, -2, 1_073_741_824, 0, 0, 0]),
    (6, "scale", ["q", "p", ""], [1_000_000, 0, 0, 0, 0, 0]),
    (7, "mirror", ["m", "q", ""], [0, 0, 0, 0, 0, 0]),
    (8, "mirror", ["m", "m", ""], [1, 0, 0, 0, 0, 0]),
    (9, "turn", ["r", "m", ""], [2, 0, 0, 0, 0, 0]),
];

// Outlines with their numbers, and names that hold outlines and meshes in turn.
const OUTLINED: &[u8] =
    b"polygon a 1 -2 3 4 5 6\nunion2 b a a\nintersect2 a a b\nsubtract2 c a b\nextrude a a -7 8\nmeasure a\npolygon a 1 2 3 4 5 6 7 8\nunion2 a a a\n";

const OUTLINED_ROWS: [Row<'static>; 8] = [
    (1, "polygon", ["a", "", ""], [3, 1, -2, 5, 6, 0]),
    (2, "union2", ["b", "a", "a"], NONE),
    (3, "intersect2", ["a", "a", "b"], NONE),
    (4, "subtract2", ["c", "a", "b"], NONE),
    (5, "extrude", ["a", "a", ""], [-7, 8, 0, 0, 0, 0]),
    (6, "measure", ["a", "", ""], NONE),
    (7, "polygon", ["a", "", ""], [4, 1, 2, 7, 8, 0]),
    (8, "union2", ["a", "a", "a"], NONE),
];

// Numbers under four digits.
const FINER: &[u8] = b"tetra t 1 .00005 -107374.1824 6e-4";

const FINER_ROWS: [Row<'static>; 1] = [(
    1,
    "tetra",
    ["t", "", ""],
    [10_000, 1, -1_073_741_824, 6, 0, 0],
)];

// Scripts, the digits of the grid, and the lines that are read.
static READ: [(&[u8], u8, &[Row<'static>]); 7] = [
    (STEPS, 0, &STEPS_ROWS),
    (COMMENTED, 0, &COMMENTED_ROWS),
    (b"", 0, &[]),
    (LONG_NAMES, 0, &LONG_NAMES_ROWS),
    (NUMBERED, 0, &NUMBERED_ROWS),
    (OUTLINED, 0, &OUTLINED_ROWS),
    (FINER, 4, &FINER_ROWS),
];

#[test]
fn the_steps_stand_in_order_with_their_lines_and_numbers(rt: HostRuntime) {
    for (script, digits, wanted) in &READ {
        assert!(rt;
            *digits <= 6 && gives(rt.alloc(), script, *digits, wanted),
            "at {script:?}"
        );
    }
}

static LINES: [Refused; 35] = [
    (b"cut a b", 1, 20),
    (b"Load a c.obj", 1, 20),
    (b"measures a", 1, 20),
    (b"load\r a c.obj", 1, 20),
    (b"\xef\xbb\xbf\xef\xbb\xbfload a c.obj", 1, 20),
    (b"load a", 1, 21),
    (b"load a c.obj d", 1, 21),
    (b"load a #c.obj", 1, 21),
    (b"save", 1, 21),
    (b"tidy a", 1, 21),
    (b"tidy a b c", 1, 21),
    (b"remesh a", 1, 21),
    (b"inspect", 1, 21),
    (b"box a 0 0 0 1 1", 1, 21),
    (b"box a 0 0 0 1 1 1 1 1", 1, 21),
    (b"union u 1 c.ply 2", 1, 21),
    (b"load 1a c.obj", 1, 22),
    (b"load _a c.obj", 1, 22),
    (b"load a-b c.ply", 1, 22),
    (b"load \xc3\xa9 c.ply", 1, 22),
    (b"load abcdefghijklmnopqrstuvwxyz_ABCD99 c.obj", 1, 22),
    (b"save 1 c.ply", 1, 22),
    (b"union 1 a b", 1, 22),
    (b"tidy 1 a", 1, 22),
    (b"save a c.ply", 1, 23),
    (b"union u a 1", 1, 23),
    (b"union u u u", 1, 23),
    (b"tidy a a", 1, 23),
    (b"remesh a a", 1, 23),
    (b"load a c", 1, 25),
    (b"load a obj", 1, 25),
    (b"load a c.obj.ply", 1, 25),
    (b"load a c.obj\x0b", 1, 25),
    (b"load a \xff.obj", 1, 25),
    (b"load a \xc3.obj", 1, 25),
];

#[test]
fn the_first_fault_of_a_line_refuses_it(rt: HostRuntime) {
    refuses(&rt, rt.alloc(), &LINES);
}

static OPERANDS: [Refused; 23] = [
    (b"box a 0 0 0 1 1 1e", 1, 24),
    (b"tetra t nan 0 0 6", 1, 24),
    (b"tetra t 0 0 0 \xff", 1, 24),
    (b"prism p 1073741825 0 0 4 5", 1, 24),
    (b"prism p 0 0 0 4 -1073741825", 1, 24),
    (b"lattice l 0 0", 1, 24),
    (b"lattice l 61 0", 1, 24),
    (b"lattice l +1 0", 1, 24),
    (b"lattice l 1. 0", 1, 24),
    (b"lattice l 00000001 0", 1, 24),
    (b"lattice l 1 1000000", 1, 24),
    (b"lattice l 1 4294967296", 1, 24),
    (b"lattice 1 0 0", 1, 22),
    (b"tetra t 0 0 0 6\nshift s t 0 . 0", 2, 24),
    (b"tetra t 0 0 0 6\nscale s t 0", 2, 24),
    (b"tetra t 0 0 0 6\nscale s t 1000001", 2, 24),
    (b"tetra t 0 0 0 6\nscale s s 0", 2, 23),
    (b"tetra t 0 0 0 6\nmirror m t X", 2, 24),
    (b"tetra t 0 0 0 6\nmirror m t xy", 2, 24),
    (b"tetra t 0 0 0 6\nturn m t 0", 2, 24),
    (b"tetra t 0 0 0 6\nturn 1 t 0", 2, 22),
    (b"tetra t 0 0 0 6\nmeasure T", 2, 23),
    (b"tetra t 0 0 0 6\ninspect t t", 2, 21),
];

#[test]
fn operands_without_a_value_refuse_a_line(rt: HostRuntime) {
    refuses(&rt, rt.alloc(), &OPERANDS);
}

static OUTLINES: [Refused; 18] = [
    (b"polygon", 1, 21),
    (b"polygon a", 1, 21),
    (b"polygon a 0 0 1 0", 1, 21),
    (b"polygon a 0 0 1 0 0", 1, 21),
    (b"polygon 1 0 0 1 0 0", 1, 21),
    (b"polygon a 0 0 1 0 0 1 1", 1, 21),
    (b"polygon 1 0 0 1 0 0 y", 1, 22),
    (b"polygon a 0 0 1 0 0 y", 1, 24),
    (b"polygon a 0 x 1 0 0 y", 1, 24),
    (b"polygon a 0 0 1073741825 0 0 1", 1, 24),
    (b"union2 u a", 1, 21),
    (b"polygon a 0 0 1 0 0 1\nunion2 u a b", 2, 23),
    (b"polygon a 0 0 1 0 0 1\nmeasure a", 2, 23),
    (b"polygon a 0 0 1 0 0 1\ninspect a", 2, 23),
    (b"polygon a 0 0 1 0 0 1\nremesh b a", 2, 23),
    (b"box a 0 0 0 1 1 1\nextrude b a 0 1", 2, 23),
    (b"polygon a 0 0 1 0 0 1\nextrude b a 0", 2, 21),
    (b"polygon a 0 0 1 0 0 1\nextrude b a 0 1e", 2, 24),
];

#[test]
fn the_kind_of_a_name_and_the_count_of_places_are_asked(rt: HostRuntime) {
    refuses(&rt, rt.alloc(), &OUTLINES);
}

static SCRIPTS: [Refused; 8] = [
    (b"load a a.obj\nunion c a b\n", 2, 23),
    (b"load a a.obj\nload b b.ply\ncut\n", 2, 25),
    (b"save a a.obj\nload a a.obj\n", 1, 23),
    (b"load a a.obj\nsave a b.obj\nsave b a.obj\n", 3, 23),
    (b"load a a.obj\nsave A a.obj\n", 2, 23),
    (b"load a a.obj\nunion u a 1\nsave a\n", 2, 22),
    (b"\r\n#\n\r\nload a\n", 4, 21),
    (b"\xef\xbb\xbf\ncut", 2, 20),
];

#[test]
fn the_first_faulty_line_refuses_the_script(rt: HostRuntime) {
    refuses(&rt, rt.alloc(), &SCRIPTS);
}
