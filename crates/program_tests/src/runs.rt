// Whole runs over memory, with what users and scripts see of them: status, output, error line, files.
mod drawn_flat;
mod faults;
mod files;
mod hostile;
mod inspected;
mod made;
mod remeshed;
mod rows;
mod scripts;
mod solids;
mod tidied;
mod words;

ghost use Rattle.std.specs.Prelude.{◌≡◌, ◌<◌, ◌^◌, ◌-◌, IfOk};

use files::{
    CUBE, CUBE_AND_FLAT, CUBES_AT_A_CORNER, GROUPED_COPIED, GROUPED_TETRAHEDRON, MODELLED_CUBE,
    MODELLED_CUBE_COPIED, NESTED_CUBES, OPEN_CUBE, PRISM, TETRAHEDRON, TURNED_CUBE,
};
use mb_base::{ArgList, Limits, NoMemory, Steps};
use mb_outside::{MemoryShelf, MemorySink, Shelf, SureShelf};
use program_runs::run;
use std::alloc::Global;
use std::marker::Brand;
use std::process::Abort;
use std::sync::ledger::{Blank, Ledger};
use std::test::Fail;

const ROOM: usize = 65_536;

const USAGE: &[u8] =
    b"usage: manifold_tool copy IN OUT, inside FILE X Y Z or run SCRIPT, each with --digits K\n";

// A run over a shelf with one file, and what is to stand after it.
#[derive(Drop)]
struct Case<'a> {
    words: &'a [&'a str],
    name: &'a str,
    bytes: &'a [u8],
    // The name of the copy.
    to: &'a str,
    // The most bytes of one call of the shelf, and the number of a call of the shelf and of the output that fails.
    most: usize,
    shelf_fails: u64,
    out_fails: u64,
    limits: Limits,
    status: u8,
    out: &'a [u8],
    err: &'a [u8],
    is_saved: bool,
    saved: &'a [u8],
    ghost some: { 0 < most },
}

// The numbers of failing calls: none, or this one.
fn failing(alloc: Global, call: u64) -> Result<Vec<u64>, NoMemory> {
    let mut fails = Vec::new(alloc);
    if call > 0 {
        fails.push(call)?;
    }
    Ok(fails)
}

// A sink with room for every line, one of whose writes may fail.
fn sink(alloc: Global, call: u64) -> Result<MemorySink, NoMemory>
    ensures { IfOk result (λ sink. sink.faults ≡ 0) }
{
    let fails = failing(alloc, call)?;
    MemorySink::of(alloc, ROOM, ROOM, fails)
}

// Puts a file on a shelf, which raises no count of faults.
fn put(shelf: &mut MemoryShelf, name: &str, bytes: &[u8]) -> Result<(), NoMemory>
    ensures reads { shelf.new.read_faults ≡ shelf.old.read_faults }
    ensures writes { shelf.new.write_faults ≡ shelf.old.write_faults }
{
    shelf.put(name, bytes)
}

// A shelf with the file of the case.
fn shelf_of(alloc: Global, case: &Case<'_>) -> Result<MemoryShelf, NoMemory>
    ensures { IfOk result (λ shelf. (shelf.read_faults ≡ 0) × (shelf.write_faults ≡ 0)) }
{
    let fails = failing(alloc, case.shelf_fails)?;
    let mut shelf = MemoryShelf::of(alloc, 4, ROOM, case.most, fails)?;
    put(&mut shelf, case.name, case.bytes)?;
    Ok(shelf)
}

// The status of a run over this shelf.
fn status_on<S: Shelf, L: Ledger>(
    alloc: Global,
    words: &[&str],
    limits: &Limits,
    shelf: &mut S,
    out: &mut MemorySink,
    err: &mut MemorySink,
    blank: Blank,
) -> Result<u8, NoMemory>
    requires name { blank.name ≡ L.name }
    requires parts { blank.parts ≡ L.parts }
    requires some { 0 < blank.parts }
    requires reads { S.read_faults shelf.old < 2 ^ 64 - 1 }
    requires writes { S.write_faults shelf.old < 2 ^ 64 - 1 }
    requires outs { out.old.faults < 2 ^ 64 - 1 }
    requires errs { err.old.faults < 2 ^ 64 - 1 }
{
    let mut list = ArgList::start(alloc);
    for word in words {
        list.push(word)?;
    }
    let mut steps = Steps::<L>::over(blank);
    Ok(run(alloc, &list, limits, shelf, out, err, &mut steps).number())
}

// Runs the program over a shelf, and judges how it ends and what it tells: on its output, and on its error line.
fn expect_run<S: Shelf, R: Abort + AllocGlobal>(
    rt: &R,
    words: &[&str],
    limits: &Limits,
    shelf: &mut S,
    out_fails: u64,
    status: u8,
    told: [&[u8]; 2],
) -> Result<(), NoMemory>
    requires reads { S.read_faults shelf.old < 2 ^ 64 - 1 }
    requires writes { S.write_faults shelf.old < 2 ^ 64 - 1 }
{
    let alloc = rt.alloc();
    let mut out = sink(alloc, out_fails)?;
    let mut err = sink(alloc, 0)?;
    let blank = Blank::new(1);
    let ended = status_on::<_, Brand>(alloc, words, limits, shelf, &mut out, &mut err, blank)?;
    assert!(rt; ended == status);
    assert!(rt; out.bytes() == told[0]);
    assert!(rt; err.bytes() == told[1]);
    Ok(())
}

// Whether a file holds these bytes, or is not there and is not wanted.
fn is_same(found: Option<&[u8]>, wanted: Option<&[u8]>) -> bool {
    match (found, wanted) {
        (Some(bytes), Some(others)) => bytes == others,
        (None, None) => true,
        _ => false,
    }
}

fn judge<R: Abort + AllocGlobal>(rt: &R, case: &Case<'_>) -> Result<(), NoMemory> {
    let mut shelf = shelf_of(rt.alloc(), case)?;
    let told = [case.out, case.err];
    expect_run(
        rt,
        case.words,
        &case.limits,
        &mut shelf,
        case.out_fails,
        case.status,
        told,
    )?;
    match shelf.get(case.to) {
        Some(bytes) => assert!(rt; case.is_saved && bytes == case.saved),
        None => assert!(rt; !case.is_saved),
    }
    Ok(())
}

// A run without faults, under the program's limits.
fn plain<'a>(
    words: &'a [&'a str],
    name: &'a str,
    bytes: &'a [u8],
    status: u8,
    err: &'a [u8],
) -> Case<'a> {
    Case {
        words,
        name,
        bytes,
        to: "u.obj",
        most: ROOM,
        shelf_fails: 0,
        out_fails: 0,
        limits: Limits::program(),
        status,
        out: b"",
        err,
        is_saved: false,
        saved: b"",
    }
}

// A copy without faults, under the program's limits.
fn copied<'a>(
    words: &'a [&'a str],
    name: &'a str,
    bytes: &'a [u8],
    out: &'a [u8],
    saved: &'a [u8],
) -> Case<'a> {
    Case {
        words,
        name,
        bytes,
        to: "u.obj",
        most: ROOM,
        shelf_fails: 0,
        out_fails: 0,
        limits: Limits::program(),
        status: 0,
        out,
        err: b"",
        is_saved: true,
        saved,
    }
}

#[test]
fn meshes_that_touch_or_are_flat_are_copied(rt: HostRuntime) -> Result<(), Fail> {
    let words = ["copy", "t.obj", "u.obj"];
    let flat = copied(
        &words,
        "t.obj",
        CUBE_AND_FLAT,
        b"copied u.obj: points 11, triangles 14, unused 0\n",
        CUBE_AND_FLAT,
    );
    judge(&rt, &flat)?;
    let pinched = copied(
        &words,
        "t.obj",
        CUBES_AT_A_CORNER,
        b"copied u.obj: points 15, triangles 24, unused 0\n",
        CUBES_AT_A_CORNER,
    );
    judge(&rt, &pinched)?;
    Ok(())
}

#[test]
fn a_modelled_file_is_copied_as_plain(rt: HostRuntime) -> Result<(), Fail> {
    let words = ["copy", "part.obj", "q.obj"];
    let case = Case {
        words: &words,
        name: "part.obj",
        bytes: MODELLED_CUBE,
        to: "q.obj",
        most: ROOM,
        shelf_fails: 0,
        out_fails: 0,
        limits: Limits::program(),
        status: 0,
        out: b"copied q.obj: points 8, triangles 12, unused 0\n",
        err: b"",
        is_saved: true,
        saved: MODELLED_CUBE_COPIED,
    };
    judge(&rt, &case)?;
    Ok(())
}

#[test]
fn groups_are_copied(rt: HostRuntime) -> Result<(), Fail> {
    let words = ["copy", "t.obj", "u.obj"];
    let case = copied(
        &words,
        "t.obj",
        GROUPED_TETRAHEDRON,
        b"copied u.obj: points 4, triangles 4, unused 0\n",
        GROUPED_COPIED,
    );
    judge(&rt, &case)?;
    Ok(())
}

#[test]
fn an_empty_file_is_copied_by_two_calls(rt: HostRuntime) -> Result<(), Fail> {
    let words = ["copy", "e.obj", "u.obj"];
    // The size is asked and the copy is begun: a third call would fail.
    let case = Case {
        words: &words,
        name: "e.obj",
        bytes: b"",
        to: "u.obj",
        most: ROOM,
        shelf_fails: 3,
        out_fails: 0,
        limits: Limits::program(),
        status: 0,
        out: b"copied u.obj: points 0, triangles 0, unused 0\n",
        err: b"",
        is_saved: true,
        saved: b"",
    };
    judge(&rt, &case)?;
    Ok(())
}

#[test]
fn a_faulty_mesh_has_its_line(rt: HostRuntime) -> Result<(), Fail> {
    let words = ["copy", "c.obj", "u.obj"];
    let open = plain(&words, "c.obj", OPEN_CUBE, 4, b"c.obj: 11 OpenEdge 5 7\n");
    judge(&rt, &open)?;
    let cut: &[u8] = b"v 0 0 0\nv 1 0 0\nv 0 1 0\nv 0 0 1\nf 1 3 2\nf 1 2 4\nf 2 3 4\nf 3 1";
    let faulty: [(&[u8], &[u8]); 7] = [
        (cut, b"c.obj:8: 5 BadFace\n"),
        (b"v 0 0 0\ncurv 0 1\n", b"c.obj:2: 1 UnknownLine\n"),
        (b"v 0 0\n", b"c.obj:1: 2 BadVertex\n"),
        (b"v 0 0 0,5\n", b"c.obj:1: 3 BadNumber\n"),
        (b"v 0 0 107374.18245\n", b"c.obj:1: 4 OutOfGrid\n"),
        (b"v 0 0 0\nf 1 1 2\n", b"c.obj:2: 6 BadIndex\n"),
        (
            b"v 0 0 0\nv 1 0 0\nf 1 2 -1\n",
            b"c.obj:3: 7 FaceRepeatsVertex\n",
        ),
    ];
    for (bytes, err) in faulty {
        let case = plain(&words, "c.obj", bytes, 4, err);
        judge(&rt, &case)?;
    }
    Ok(())
}

#[test]
fn a_missing_file_is_named(rt: HostRuntime) -> Result<(), Fail> {
    let words = ["copy", "none.obj", "u.obj"];
    let case = plain(&words, "t.obj", TETRAHEDRON, 3, b"none.obj: missing\n");
    judge(&rt, &case)?;
    Ok(())
}

#[test]
fn a_write_fault_leaves_a_part(rt: HostRuntime) -> Result<(), Fail> {
    let words = ["copy", "t.obj", "u.obj"];
    let case = Case {
        words: &words,
        name: "t.obj",
        bytes: TETRAHEDRON,
        to: "u.obj",
        most: 10,
        shelf_fails: 12,
        out_fails: 0,
        limits: Limits::program(),
        status: 7,
        out: b"",
        err: b"u.obj: write fault\n",
        is_saved: true,
        saved: b"v 0 0 0\nv 1 0 0\nv 0 ",
    };
    judge(&rt, &case)?;
    Ok(())
}

// Many blanks, which are an empty mesh.
fn blanks<'a>(words: &'a [&'a str], bytes: &'a [u8], call: u64) -> Case<'a> {
    Case {
        words,
        name: "t.obj",
        bytes,
        to: "u.obj",
        most: 1 << 30,
        shelf_fails: call,
        out_fails: 0,
        limits: Limits::program(),
        status: 7,
        out: b"",
        err: b"u.obj: write fault\n",
        is_saved: false,
        saved: b"",
    }
}

#[test]
fn a_file_is_read_in_pieces(rt: HostRuntime) -> Result<(), Fail> {
    let words = ["copy", "t.obj", "u.obj"];
    let alloc = rt.alloc();
    // The size is asked and two pieces are read; the fourth call begins the copy.
    let bytes = vec![in alloc; 32; 65_537]?;
    let case = blanks(&words, &bytes, 4);
    judge(&rt, &case)?;
    Ok(())
}

// A copy of the tetrahedron to a file with room for so many bytes, and what it tells and leaves there.
fn judge_with_room<R: Abort + AllocGlobal>(
    rt: &R,
    room: usize,
    status: u8,
    told: [&[u8]; 2],
    saved: &[u8],
) -> Result<(), NoMemory> {
    let mut shelf = SureShelf::of(rt.alloc(), "t.obj", TETRAHEDRON, "u.obj", room)?;
    let words = ["copy", "t.obj", "u.obj"];
    expect_run(rt, &words, &Limits::program(), &mut shelf, 0, status, told)?;
    assert!(rt; is_same(shelf.get("u.obj"), Some(saved)));
    Ok(())
}

#[test]
fn a_copy_needs_room_for_its_text_alone(rt: HostRuntime) -> Result<(), Fail> {
    let copied = b"copied u.obj: points 4, triangles 4, unused 0\n";
    judge_with_room(&rt, 64, 0, [copied, b""], TETRAHEDRON)?;
    judge_with_room(&rt, 63, 7, [b"", b"u.obj: write fault\n"], b"")?;
    Ok(())
}

// The winding number of a point in a mesh.
fn judge_winding<'x, R: Abort + AllocGlobal>(
    rt: &R,
    words: &'x [&'x str],
    bytes: &'x [u8],
    line: &'x [u8],
) -> Result<(), NoMemory> {
    let case = Case {
        words,
        name: "c.obj",
        bytes,
        to: "u.obj",
        most: ROOM,
        shelf_fails: 0,
        out_fails: 0,
        limits: Limits::program(),
        status: 0,
        out: line,
        err: b"",
        is_saved: false,
        saved: b"",
    };
    judge(rt, &case)
}

#[test]
fn a_mesh_winds_round_a_point(rt: HostRuntime) -> Result<(), Fail> {
    let middle = ["inside", "c.obj", "5", "4", "3"];
    judge_winding(&rt, &middle, CUBE, b"winding 1\n")?;
    judge_winding(&rt, &middle, TURNED_CUBE, b"winding -1\n")?;
    judge_winding(&rt, &middle, NESTED_CUBES, b"winding 2\n")?;
    let outside = ["inside", "c.obj", "11", "4", "3"];
    judge_winding(&rt, &outside, CUBE, b"winding 0\n")?;
    let greatest = ["inside", "c.obj", "10", "10", "10"];
    judge_winding(&rt, &greatest, CUBE, b"winding 1\n")?;
    let least = ["inside", "c.obj", "0", "0", "0"];
    judge_winding(&rt, &least, CUBE, b"winding 0\n")?;
    let below = ["inside", "c.obj", "--", "-5", "4", "3"];
    judge_winding(&rt, &below, CUBE, b"winding 0\n")?;
    Ok(())
}

// At the point's x, 2, a wall of the prism has the y 2/3. Rounded to whole steps of the grid that would be the point's own y, 1,
// and the point would count as outside.
#[test]
fn a_point_is_told_from_a_face_less_than_a_grid_step_away(rt: HostRuntime) -> Result<(), Fail> {
    let words = ["inside", "c.obj", "2", "1", "2", "--digits", "0"];
    judge_winding(&rt, &words, PRISM, b"winding 1\n")?;
    Ok(())
}
