// Whole runs of scripts, row by row: what is said, how the run ends, and a file after it; under no digits.
ghost use Rattle.std.specs.Prelude.{◌≡◌, IfOk};

use super::files::TETRAHEDRON;
use super::{ROOM, expect_run, is_same, put};
use mb_base::{Limits, NoMemory};
use mb_outside::{MemoryShelf, Shelf};
use std::alloc::Global;
use std::process::Abort;
use std::test::Fail;

const WORDS: [&str; 4] = ["run", "s.txt", "--digits", "0"];

// The tetrahedron with two points that no triangle uses, and as a solid.
const LOOSE: &[u8] =
    b"v 7 7 7\nv 0 0 0\nv 1 0 0\nv 0 1 0\nv 0 0 1\nv 9 9 9\nf 2 4 3\nf 2 3 5\nf 3 4 5\nf 4 2 5\n";

const SOLID: &[u8] = b"solid t
facet normal 0 0 0\nouter loop\nvertex 0 0 0\nvertex 0 1 0\nvertex 1 0 0\nendloop\nendfacet
facet normal 0 0 0\nouter loop\nvertex 0 0 0\nvertex 1 0 0\nvertex 0 0 1\nendloop\nendfacet
facet normal 0 0 0\nouter loop\nvertex 1 0 0\nvertex 0 1 0\nvertex 0 0 1\nendloop\nendfacet
facet normal 0 0 0\nouter loop\nvertex 0 1 0\nvertex 0 0 0\nvertex 0 0 1\nendloop\nendfacet
endsolid t\n";

// That solid, whose points are numbered as its corners have them.
const READ_OF_SOLID: &[u8] =
    b"v 0 0 0\nv 0 1 0\nv 1 0 0\nv 0 0 1\nf 1 2 3\nf 1 3 4\nf 3 2 4\nf 2 1 4\n";

const TURNED: &[u8] = b"v 0 0 0\nv 0 0 -1\nv 0 1 0\nv 1 0 0\nf 1 3 2\nf 1 2 4\nf 2 3 4\nf 3 1 4\n";

// Puts a script, the tetrahedron in three files and a longer file on a shelf, which raises no count of faults.
fn put_files(shelf: &mut MemoryShelf, script: &[u8]) -> Result<(), NoMemory>
    ensures reads { shelf.new.read_faults ≡ shelf.old.read_faults }
    ensures writes { shelf.new.write_faults ≡ shelf.old.write_faults }
{
    put(shelf, "s.txt", script)?;
    put(shelf, "t.obj", TETRAHEDRON)?;
    put(shelf, "loose.obj", LOOSE)?;
    put(shelf, "t.stl", SOLID)?;
    put(shelf, "u.obj", LOOSE)
}

// A shelf with these, one of whose calls may fail.
fn shelf_of(alloc: Global, script: &[u8], call: u64) -> Result<MemoryShelf, NoMemory>
    ensures { IfOk result (λ shelf. (shelf.read_faults ≡ 0) × (shelf.write_faults ≡ 0)) }
{
    let fails = super::failing(alloc, call)?;
    let mut shelf = MemoryShelf::of(alloc, 8, ROOM, ROOM, fails)?;
    put_files(&mut shelf, script)?;
    Ok(shelf)
}

// Judges a row: the script, the status, what the output and the error line tell, and what u.obj holds then.
fn judge<R: Abort + AllocGlobal>(
    rt: &R,
    limits: &Limits,
    call: u64,
    row: &(&[u8], u8, &[u8], &[u8], &[u8]),
) -> Result<(), NoMemory> {
    let (script, status, out, err, left) = *row;
    let mut shelf = shelf_of(rt.alloc(), script, call)?;
    expect_run(rt, &WORDS, limits, &mut shelf, 0, status, [out, err])?;
    assert!(rt; is_same(shelf.get("u.obj"), Some(left)));
    Ok(())
}

// Under the program's limits.
const PLAIN: [(&[u8], u8, &[u8], &[u8], &[u8]); 7] = [
    (
        b"load a t.stl\nsave a u.obj\n",
        0,
        b"load a t.stl: points 4, triangles 4, unused 0\nsave a u.obj: points 4, triangles 4\n",
        b"",
        READ_OF_SOLID,
    ),
    (
        b"load a loose.obj\nsave a u.obj\n",
        0,
        b"load a loose.obj: points 4, triangles 4, unused 2\nsave a u.obj: points 4, triangles 4\n",
        b"",
        TETRAHEDRON,
    ),
    // Nothing is left: an empty file.
    (
        b"load a t.obj\nshift b a 5 0 0\nintersect e a b\nsave e u.obj\n",
        0,
        b"load a t.obj: points 4, triangles 4, unused 0\ne = intersect a b: kept 0 0, crossings 0, forced 0\nsave e u.obj: points 0, triangles 0\n",
        b"",
        b"",
    ),
    // A quarter turn about y takes x to -z, and z to x.
    (
        b"load a t.obj\nturn b a y\nsave b u.obj\n",
        0,
        b"load a t.obj: points 4, triangles 4, unused 0\nsave b u.obj: points 4, triangles 4\n",
        b"",
        TURNED,
    ),
    // An outline is measured on the last line: the script is faulty, and nothing is done.
    (
        b"load a t.obj\nsave a u.obj\npolygon p 0 0 4 0 4 4\npolygon q 1 1 5 1 5 5\nunion2 r p q\nmeasure r\n",
        2,
        b"",
        b"s.txt:6: 23 NameNotDefined\n",
        LOOSE,
    ),
    // 64 places are the most of a polygon.
    (
        b"polygon p 0 0 1 0 2 0 3 0 4 0 5 0 6 0 7 0 8 0 9 0 10 0 11 0 12 0 13 0 14 0 15 0 16 0 17 0 18 0 19 0 20 0 21 0 22 0 23 0 24 0 25 0 26 0 27 0 28 0 29 0 30 0 31 0 31 5 30 5 29 5 28 5 27 5 26 5 25 5 24 5 23 5 22 5 21 5 20 5 19 5 18 5 17 5 16 5 15 5 14 5 13 5 12 5 11 5 10 5 9 5 8 5 7 5 6 5 5 5 4 5 3 5 2 5 1 5 0 5\nextrude e p 0 2\nmeasure e\n",
        0,
        b"e = extrude p: forced 0\ne: points 128, triangles 252, components 1, euler 2, volume6 1860\n",
        b"",
        LOOSE,
    ),
    (
        b"polygon p 0 0 1 0 2 0 3 0 4 0 5 0 6 0 7 0 8 0 9 0 10 0 11 0 12 0 13 0 14 0 15 0 16 0 17 0 18 0 19 0 20 0 21 0 22 0 23 0 24 0 25 0 26 0 27 0 28 0 29 0 30 0 31 0 31 5 30 5 29 5 28 5 27 5 26 5 25 5 24 5 23 5 22 5 21 5 20 5 19 5 18 5 17 5 16 5 15 5 14 5 13 5 12 5 11 5 10 5 9 5 8 5 7 5 6 5 5 5 4 5 3 5 2 5 1 5 0 5 0 4\n",
        2,
        b"",
        b"s.txt:1: 21 WrongCount\n",
        LOOSE,
    ),
];

// Under limits of six points and four triangles.
const LIMITED: [(&[u8], u8, &[u8], &[u8], &[u8]); 5] = [
    (
        b"tetra t 0 0 0 6\nbox b 0 0 0 1 1 1\n",
        5,
        b"",
        b"limit points 8\n",
        LOOSE,
    ),
    (
        b"prism p 0 0 0 4 5\n",
        5,
        b"",
        b"limit triangles 8\n",
        LOOSE,
    ),
    (
        b"polygon a 0 0 4 0 4 4 0 4\nextrude e a 0 1\n",
        5,
        b"",
        b"limit points 8\n",
        LOOSE,
    ),
    (
        b"polygon a 0 0 4 0 0 4\nextrude e a 0 1\n",
        5,
        b"",
        b"limit triangles 8\n",
        LOOSE,
    ),
    (
        b"polygon a 0 0 2 0 2 2 0 2\npolygon b 1 1 3 1 3 3 1 3\nintersect2 i a b\nunion2 u a b\n",
        5,
        b"i = intersect2 a b: kept 1 1, crossings 2\n",
        b"limit points 8\n",
        LOOSE,
    ),
];

// Which call of the shelf fails: those of the script are the first two; a load makes two more, and a save two.
const FAILING: [(u64, (&[u8], u8, &[u8], &[u8], &[u8])); 4] = [
    (
        4,
        (
            b"load a t.obj\nsave a u.obj\n",
            6,
            b"",
            b"t.obj: read fault\n",
            LOOSE,
        ),
    ),
    (
        5,
        (
            b"load a t.obj\nsave a u.obj\n",
            7,
            b"load a t.obj: points 4, triangles 4, unused 0\n",
            b"u.obj: write fault\n",
            LOOSE,
        ),
    ),
    // The file was begun.
    (
        6,
        (
            b"load a t.obj\nsave a u.obj\n",
            7,
            b"load a t.obj: points 4, triangles 4, unused 0\n",
            b"u.obj: write fault\n",
            b"",
        ),
    ),
    (
        7,
        (
            b"load a t.obj\nsave a u.obj\n",
            0,
            b"load a t.obj: points 4, triangles 4, unused 0\nsave a u.obj: points 4, triangles 4\n",
            b"",
            TETRAHEDRON,
        ),
    ),
];

#[test]
fn scripts_end_as_their_rows_say(rt: HostRuntime) -> Result<(), Fail> {
    for row in &PLAIN {
        judge(&rt, &Limits::program(), 0, row)?;
    }
    let limits = Limits::of(642, 6, 4, 2).ok_or("these limits are lawful")?;
    for row in &LIMITED {
        judge(&rt, &limits, 0, row)?;
    }
    for (call, row) in &FAILING {
        judge(&rt, &Limits::program(), *call, row)?;
    }
    Ok(())
}

// A copy onto the file that it reads.
#[test]
fn a_copy_onto_itself_reads_the_file_first(rt: HostRuntime) -> Result<(), Fail> {
    let mut shelf = shelf_of(rt.alloc(), b"", 0)?;
    let told: [&[u8]; 2] = [b"copied u.obj: points 4, triangles 4, unused 2\n", b""];
    expect_run(
        &rt,
        &["copy", "u.obj", "u.obj", "--digits", "0"],
        &Limits::program(),
        &mut shelf,
        0,
        0,
        told,
    )?;
    assert!(rt; is_same(shelf.get("u.obj"), Some(TETRAHEDRON)));
    Ok(())
}
