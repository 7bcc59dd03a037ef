// Whole runs of scripts over a cube and a box.
ghost use Rattle.std.specs.Prelude.{◌≡◌, IfOk};

use super::files::{BODY, BODY_LESS_BOX, BOX, CUBE, UNION};
use super::{ROOM, expect_run, is_same, put};
use mb_base::{Limits, NoMemory};
use mb_outside::{MemoryShelf, Shelf};
use std::alloc::Global;
use std::process::Abort;
use std::test::Fail;

const LOADED: &[u8] =
    b"load a cube.obj: points 8, triangles 12, unused 0\nload b b.obj: points 8, triangles 12, unused 0\n";

// A script, and what is to stand after its run.
#[derive(Drop)]
struct Case<'a> {
    script: &'a [u8],
    limits: Limits,
    status: u8,
    out: &'a [u8],
    err: &'a [u8],
    saved: Option<&'a [u8]>,
}

// Puts the script, the cube with and without a group, and the box on a shelf, which raises no count of faults.
fn put_script(shelf: &mut MemoryShelf, script: &[u8]) -> Result<(), NoMemory>
    ensures reads { shelf.new.read_faults ≡ shelf.old.read_faults }
    ensures writes { shelf.new.write_faults ≡ shelf.old.write_faults }
{
    put(shelf, "s.txt", script)?;
    put(shelf, "cube.obj", CUBE)?;
    put(shelf, "body.obj", BODY)?;
    put(shelf, "b.obj", BOX)
}

// A shelf with the script, the cube and the box.
fn shelf_of(alloc: Global, script: &[u8]) -> Result<MemoryShelf, NoMemory>
    ensures { IfOk result (λ shelf. (shelf.read_faults ≡ 0) × (shelf.write_faults ≡ 0)) }
{
    let mut shelf = MemoryShelf::of(alloc, 8, ROOM, ROOM, Vec::new(alloc))?;
    put_script(&mut shelf, script)?;
    Ok(shelf)
}

fn judge<R: Abort + AllocGlobal>(rt: &R, case: &Case<'_>) -> Result<(), NoMemory> {
    let mut shelf = shelf_of(rt.alloc(), case.script)?;
    let words = ["run", "s.txt", "--digits", "0"];
    let told = [case.out, case.err];
    expect_run(rt, &words, &case.limits, &mut shelf, 0, case.status, told)?;
    assert!(rt; is_same(shelf.get("u.obj"), case.saved));
    Ok(())
}

#[test]
fn a_script_unites_two_meshes(rt: HostRuntime) -> Result<(), Fail> {
    let case = Case {
        script: b"load a cube.obj\nload b b.obj\nunion u a b\nsave u u.obj\n",
        limits: Limits::program(),
        status: 0,
        out: b"load a cube.obj: points 8, triangles 12, unused 0\nload b b.obj: points 8, triangles 12, unused 0\nu = union a b: kept 8 4, crossings 10, forced 0\nsave u u.obj: points 22, triangles 40\n",
        err: b"",
        saved: Some(UNION),
    };
    judge(&rt, &case)?;
    Ok(())
}

#[test]
fn the_half_edges_of_an_operation_have_a_limit(rt: HostRuntime) -> Result<(), Fail> {
    let limits = Limits::of(22_470, 210, 140, 83).ok_or("these limits are lawful")?;
    let case = Case {
        script: b"load a cube.obj\nload b b.obj\nunion u a b\nsave u u.obj\n",
        limits,
        status: 5,
        out: LOADED,
        err: b"limit halfedges 84\n",
        saved: None,
    };
    judge(&rt, &case)?;
    Ok(())
}

#[test]
fn a_faulty_script_does_nothing(rt: HostRuntime) -> Result<(), Fail> {
    let faulty: [(&[u8], &[u8]); 7] = [
        // No such file is there, and it is not asked for.
        (
            b"load a a.obj\nunion c a b\n",
            b"s.txt:2: 23 NameNotDefined\n",
        ),
        (
            b"load a cube.obj\nsave a u.obj\njoin u a a\n",
            b"s.txt:3: 20 BadWord\n",
        ),
        (b"load a\n", b"s.txt:1: 21 WrongCount\n"),
        (b"exact\nexact 1\n", b"s.txt:2: 21 WrongCount\n"),
        (b"load 1a cube.obj\n", b"s.txt:1: 22 BadName\n"),
        (b"save u u.obj\n", b"s.txt:1: 23 NameNotDefined\n"),
        (b"# a\n\nload a cube.ply\n", b"s.txt:3: 25 BadSuffix\n"),
    ];
    for (script, err) in faulty {
        let case = Case {
            script,
            limits: Limits::program(),
            status: 2,
            out: b"",
            err,
            saved: None,
        };
        judge(&rt, &case)?;
    }
    Ok(())
}

#[test]
fn what_was_saved_before_a_stop_stays(rt: HostRuntime) -> Result<(), Fail> {
    let case = Case {
        script: b"load a cube.obj\nsave a u.obj\nload b none.obj\nsave b u.obj\n",
        limits: Limits::program(),
        status: 3,
        out: b"load a cube.obj: points 8, triangles 12, unused 0\nsave a u.obj: points 8, triangles 12\n",
        err: b"none.obj: missing\n",
        saved: Some(CUBE),
    };
    judge(&rt, &case)?;
    Ok(())
}

#[test]
fn faces_keep_their_groups_in_a_difference(rt: HostRuntime) -> Result<(), Fail> {
    let case = Case {
        script: b"load a body.obj\nload b b.obj\nsubtract u a b\nsave u u.obj\n",
        limits: Limits::program(),
        status: 0,
        out: b"load a body.obj: points 8, triangles 12, unused 0\nload b b.obj: points 8, triangles 12, unused 0\nu = subtract a b: kept 8 4, crossings 10, forced 0\nsave u u.obj: points 22, triangles 40\n",
        err: b"",
        saved: Some(BODY_LESS_BOX),
    };
    judge(&rt, &case)?;
    Ok(())
}
