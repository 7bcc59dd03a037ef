// Whole runs of scripts of outlines, under no digits; what is expected was found by a reference program.
use super::made::shelf_of;
use super::{expect_run, is_same};
use mb_base::{Limits, NoMemory};
use std::process::Abort;
use std::test::Fail;

const WORDS: [&str; 4] = ["run", "s.txt", "--digits", "0"];

// Judges the status of a script's run, and what it tells on the output and on the error line.
fn judge<R: Abort + AllocGlobal>(
    rt: &R,
    script: &[u8],
    status: u8,
    told: [&[u8]; 2],
) -> Result<(), NoMemory> {
    let mut shelf = shelf_of(rt.alloc(), script, b"")?;
    expect_run(rt, &WORDS, &Limits::program(), &mut shelf, 0, status, told)
}

// A square, less a plate across its right side, as a solid.
const NOTCHED: &[u8] =
    b"polygon a 0 0 10 0 10 10 0 10\npolygon b 6 4 20 4 20 7 6 7\nsubtract2 d a b\nextrude m d 0 5\nmeasure m\n";

const NOTCHED_TOLD: &[u8] =
    b"d = subtract2 a b: kept 4 2, crossings 2\nm = extrude d: forced 0\nm: points 16, triangles 28, components 1, euler 2, volume6 2640\n";

// The same with a last line, which is refused when it is done.
const FLAT: &[u8] =
    b"polygon a 0 0 10 0 10 10 0 10\npolygon b 6 4 20 4 20 7 6 7\nsubtract2 d a b\nextrude m d 0 5\nmeasure m\nextrude k d 5 5\n";

// A hole; a name that gets the difference of itself; and the same on a square twice, by the marks and by exact signs.
const HOLED: &[u8] =
    b"polygon a 0 0 10 0 10 10 0 10\npolygon b 2 2 4 2 4 4 2 4\nsubtract2 h a b\nunion2 u a b\nintersect2 i a b\nextrude s h -1 2\nmeasure s\n\
    subtract2 y a a\nexact\nsubtract2 z a a\nunion2 w a a\nextrude t z 0 1\nmeasure t\nsubtract2 h h b\n";

const HOLED_TOLD: &[u8] =
    b"h = subtract2 a b: kept 4 4, crossings 0\nu = union2 a b: kept 4 0, crossings 0\ni = intersect2 a b: kept 0 4, crossings 0\n\
    s = extrude h: forced 0\ns: points 16, triangles 32, components 1, euler 0, volume6 1728\ny = subtract2 a a: kept 0 0, crossings 0\n\
    z = subtract2 a a: kept 3 1, crossings 2\nw = union2 a a: kept 3 3, crossings 2\nt = extrude z: forced 4\n\
    t: points 12, triangles 20, components 1, euler 2, volume6 0\nh = subtract2 h b: kept 7 3, crossings 2\n";

#[test]
fn outlines_are_combined_and_made_solids_of(rt: HostRuntime) -> Result<(), Fail> {
    judge(&rt, NOTCHED, 0, [NOTCHED_TOLD, b""])?;
    judge(&rt, FLAT, 4, [NOTCHED_TOLD, b"s.txt:6: 16 FlatSolid\n"])?;
    judge(&rt, HOLED, 0, [HOLED_TOLD, b""])?;
    Ok(())
}

// Scripts that take a name of another kind, none of whose lines is done, and a name that holds another kind later.
const KINDS: [(&[u8], u8, [&[u8]; 2]); 6] = [
    (
        b"polygon a 0 0 10 0 10 10 0 10\nmeasure a\n",
        2,
        [b"", b"s.txt:2: 23 NameNotDefined\n"],
    ),
    (
        b"polygon a 0 0 10 0 10 10 0 10\nsave a a.obj\n",
        2,
        [b"", b"s.txt:2: 23 NameNotDefined\n"],
    ),
    (
        b"box a 0 0 0 1 1 1\npolygon b 0 0 1 0 0 1\nunion2 u b a\n",
        2,
        [b"", b"s.txt:3: 23 NameNotDefined\n"],
    ),
    (
        b"polygon a 0 0 1 0 0 1\nextrude a a 0 1\nextrude b a 0 1\n",
        2,
        [b"", b"s.txt:3: 23 NameNotDefined\n"],
    ),
    (
        b"polygon a 0 0 1 0\n",
        2,
        [b"", b"s.txt:1: 21 WrongCount\n"],
    ),
    (
        b"polygon a 0 0 10 0 0 10\nextrude a a 0 1\nmeasure a\npolygon a 0 0 1 0 0 1\nunion2 a a a\n",
        0,
        [
            b"a = extrude a: forced 0\na: points 6, triangles 8, components 1, euler 2, volume6 300\na = union2 a a: kept 3 1, crossings 2\n",
            b"",
        ],
    ),
];

#[test]
fn a_name_is_taken_as_what_it_holds_last(rt: HostRuntime) -> Result<(), Fail> {
    for (script, status, told) in KINDS {
        judge(&rt, script, status, told)?;
    }
    Ok(())
}

// What is saved of a solid of an outline.
const WEDGE: &[u8] =
    b"v 0 0 0\nv 2 0 0\nv 0 3 0\nv 0 0 4\nv 2 0 4\nv 0 3 4\nf 1 3 2\nf 4 5 6\nf 1 2 5\nf 1 5 4\nf 2 3 6\nf 2 6 5\nf 3 1 4\nf 3 4 6\n";

#[test]
fn a_solid_of_an_outline_is_saved(rt: HostRuntime) -> Result<(), Fail> {
    let script = b"polygon a 0 0 2 0 0 3\nextrude w a 0 4\nsave w w.obj\n";
    let mut shelf = shelf_of(rt.alloc(), script, b"")?;
    let told: [&[u8]; 2] = [
        b"w = extrude a: forced 0\nsave w w.obj: points 6, triangles 8\n",
        b"",
    ];
    expect_run(&rt, &WORDS, &Limits::program(), &mut shelf, 0, 0, told)?;
    assert!(rt; is_same(shelf.get("w.obj"), Some(WEDGE)));
    Ok(())
}
