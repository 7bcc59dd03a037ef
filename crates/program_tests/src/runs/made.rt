// Whole runs of scripts that make their solids, or take them beside a file, under no digits where nothing else is said.
ghost use Rattle.std.specs.Prelude.{◌≡◌, IfOk};

use super::files::{CUBE_AND_FLAT, CUBES_AT_A_CORNER, MODELLED_CUBE};
use super::{ROOM, expect_run, put};
use mb_base::{Limits, NoMemory};
use mb_outside::MemoryShelf;
use std::alloc::Global;
use std::process::Abort;
use std::test::Fail;

// Puts a script and one mesh on a shelf, which raises no count of faults.
fn put_script(shelf: &mut MemoryShelf, script: &[u8], mesh: &[u8]) -> Result<(), NoMemory>
    ensures reads { shelf.new.read_faults ≡ shelf.old.read_faults }
    ensures writes { shelf.new.write_faults ≡ shelf.old.write_faults }
{
    put(shelf, "s.txt", script)?;
    put(shelf, "m.obj", mesh)
}

/// A shelf with a script and one mesh.
pub fn shelf_of(alloc: Global, script: &[u8], mesh: &[u8]) -> Result<MemoryShelf, NoMemory>
    ensures { IfOk result (λ shelf. (shelf.read_faults ≡ 0) × (shelf.write_faults ≡ 0)) }
{
    let mut shelf = MemoryShelf::of(alloc, 4, ROOM, ROOM, Vec::new(alloc))?;
    put_script(&mut shelf, script, mesh)?;
    Ok(shelf)
}

// Judges the status of a script's run, and what it told, either on the output or on the error line.
fn judge<R: Abort + AllocGlobal>(
    rt: &R,
    words: &[&str],
    script: &[u8],
    mesh: &[u8],
    status: u8,
    told: &[u8],
) -> Result<(), NoMemory> {
    let mut shelf = shelf_of(rt.alloc(), script, mesh)?;
    let told = if status == 0 {
        [told, b""]
    } else {
        [b"", told]
    };
    expect_run(rt, words, &Limits::program(), &mut shelf, 0, status, told)
}

const WHOLE_STEPS: [&str; 4] = ["run", "s.txt", "--digits", "0"];

// A script over boxes, and what it tells.
const BOXES: [(&[u8], &[u8]); 7] = [
    // Apart.
    (
        b"box a 0 0 0 10 10 10\nbox b 20 0 0 30 10 10\nunion u a b\nmeasure u\nintersect i a b\nmeasure i\nsubtract d a b\nmeasure d\n",
        b"u = union a b: kept 8 8, crossings 0, forced 0\nu: points 16, triangles 24, components 2, euler 4, volume6 12000\ni = intersect a b: kept 0 0, crossings 0, forced 0\ni: points 0, triangles 0, components 0, euler 0, volume6 0\nd = subtract a b: kept 8 0, crossings 0, forced 0\nd: points 8, triangles 12, components 1, euler 2, volume6 6000\n",
    ),
    // One box twice.
    (
        b"box a 0 0 0 10 10 10\nunion u a a\nmeasure u\nsubtract d a a\nsave d d.obj\nintersect i a a\n",
        b"u = union a a: kept 8 0, crossings 0, forced 0\nu: points 8, triangles 12, components 1, euler 2, volume6 6000\nd = subtract a a: kept 0 0, crossings 0, forced 0\nsave d d.obj: points 0, triangles 0\ni = intersect a a: kept 8 0, crossings 0, forced 0\n",
    ),
    // One in the other.
    (
        b"box a 0 0 0 10 10 10\nbox b 2 2 2 4 4 4\nsubtract d a b\nmeasure d\n",
        b"d = subtract a b: kept 8 8, crossings 0, forced 0\nd: points 16, triangles 24, components 2, euler 4, volume6 5952\n",
    ),
    // One through the top of the other, across the diagonal of the top.
    (
        b"box a 0 0 0 10 10 10\nbox b 3 4 5 6 7 20\nunion u a b\nmeasure u\nintersect i a b\nmeasure i\nsubtract d a b\nmeasure d\n",
        b"u = union a b: kept 8 4, crossings 10, forced 0\nu: points 22, triangles 40, components 1, euler 2, volume6 6540\ni = intersect a b: kept 0 4, crossings 10, forced 0\ni: points 14, triangles 24, components 1, euler 2, volume6 270\nd = subtract a b: kept 8 4, crossings 10, forced 0\nd: points 22, triangles 40, components 1, euler 2, volume6 5730\n",
    ),
    // The same under exact kernels.
    (
        b"exact\nbox a 0 0 0 10 10 10\nbox b 3 4 5 6 7 20\nunion u a b\nmeasure u\nintersect i a b\nmeasure i\nsubtract d a b\nmeasure d\n",
        b"u = union a b: kept 8 4, crossings 10, forced 0\nu: points 22, triangles 40, components 1, euler 2, volume6 6540\ni = intersect a b: kept 0 4, crossings 10, forced 0\ni: points 14, triangles 24, components 1, euler 2, volume6 270\nd = subtract a b: kept 8 4, crossings 10, forced 0\nd: points 22, triangles 40, components 1, euler 2, volume6 5730\n",
    ),
    // One box twice, on the grid and then under exact kernels, as if one were moved off the other.
    (
        b"box a 0 0 0 10 10 10\nunion u a a\nexact\nunion v a a\nmeasure v\n",
        b"u = union a a: kept 8 0, crossings 0, forced 0\nv = union a a: kept 7 7, crossings 14, forced 39\nv: points 28, triangles 52, components 1, euler 2, volume6 6000\n",
    ),
    // And beside it, so that one triangle of the top has a hole.
    (
        b"box a 0 0 0 10 10 10\nbox b 5 1 5 8 4 20\nunion u a b\nmeasure u\n",
        b"u = union a b: kept 8 4, crossings 8, forced 0\nu: points 20, triangles 36, components 1, euler 2, volume6 6540\n",
    ),
];

#[test]
fn boxes_are_combined_and_measured(rt: HostRuntime) -> Result<(), Fail> {
    for (script, told) in BOXES {
        judge(&rt, &WHOLE_STEPS, script, b"", 0, told)?;
    }
    Ok(())
}

// Triangles back to back go, cubes that share a point are one component, and a modelled cube gets a hole.
#[test]
fn a_mesh_of_a_file_is_combined_with_a_box(rt: HostRuntime) -> Result<(), Fail> {
    judge(
        &rt,
        &WHOLE_STEPS,
        b"load a m.obj\nbox b 80 0 0 90 10 10\nunion u a b\n",
        CUBE_AND_FLAT,
        0,
        b"load a m.obj: points 11, triangles 14, unused 0\nu = union a b: kept 8 8, crossings 0, forced 0\n",
    )?;
    judge(
        &rt,
        &WHOLE_STEPS,
        b"load a m.obj\nbox b 40 40 40 50 50 50\nunion u a b\nmeasure u\n",
        CUBES_AT_A_CORNER,
        0,
        b"load a m.obj: points 15, triangles 24, unused 0\nu = union a b: kept 15 8, crossings 0, forced 0\nu: points 24, triangles 36, components 3, euler 6, volume6 18000\n",
    )?;
    judge(
        &rt,
        &["run", "s.txt"],
        b"load part m.obj\nbox hole 3 4 -5 6 7 20\nsubtract out part hole\nmeasure out\nsave out out.obj\n",
        MODELLED_CUBE,
        0,
        b"load part m.obj: points 8, triangles 12, unused 0\nout = subtract part hole: kept 8 0, crossings 20, forced 0\nout: points 28, triangles 56, components 1, euler 0, volume6 5460000000000000\nsave out out.obj: points 28, triangles 56\n",
    )?;
    Ok(())
}

#[test]
fn solids_are_moved(rt: HostRuntime) -> Result<(), Fail> {
    judge(
        &rt,
        &WHOLE_STEPS,
        b"tetra t 0 0 0 6\nmeasure t\nprism p 0 0 0 4 5\nscale q p 2\nmirror m q x\nturn r m z\nshift w r 1 2 3\nmeasure w\n",
        b"",
        0,
        b"t: points 4, triangles 4, components 1, euler 2, volume6 216\nw: points 6, triangles 8, components 1, euler 2, volume6 1920\n",
    )?;
    Ok(())
}

#[test]
fn a_box_cuts_a_lattice(rt: HostRuntime) -> Result<(), Fail> {
    judge(
        &rt,
        &WHOLE_STEPS,
        b"lattice grid 20 7\nmeasure grid\nbox cut 1005 -100 -150 3000 2100 2050\nsubtract rest grid cut\nmeasure rest\n",
        b"",
        0,
        b"grid: points 64000, triangles 96000, components 8000, euler 16000, volume6 1200000000\nrest = subtract grid cut: kept 33600 0, crossings 3200, forced 0\nrest: points 36800, triangles 56000, components 4400, euler 8800, volume6 609000000\n",
    )?;
    judge(
        &rt,
        &WHOLE_STEPS,
        b"lattice g 30 7\nshift h g 50 0 0\nunion u g h\n",
        b"",
        0,
        b"u = union g h: kept 216000 216000, crossings 0, forced 0\n",
    )?;
    Ok(())
}

#[test]
fn what_can_not_be_made_is_refused_on_its_line(rt: HostRuntime) -> Result<(), Fail> {
    let refused: [(&[u8], u8, &[u8]); 6] = [
        (b"box b 0 0 0 0 1 1\n", 4, b"s.txt:1: 16 FlatSolid\n"),
        (
            b"box b 0 0 0 1 1 1\nshift c b 1073741824 0 0\n",
            4,
            b"s.txt:2: 15 OutOfGrid\n",
        ),
        (
            b"\nprism p 1073741824 0 0 1 -1\n",
            4,
            b"s.txt:2: 16 FlatSolid\n",
        ),
        (b"tetra t 0 0 0 1e10\n", 2, b"s.txt:1: 24 BadNumber\n"),
        (b"lattice l 61 0\n", 2, b"s.txt:1: 24 BadNumber\n"),
        (
            b"box b 0 0 0 1 1 1\nturn t b X\n",
            2,
            b"s.txt:2: 24 BadNumber\n",
        ),
    ];
    for (script, status, told) in refused {
        judge(&rt, &WHOLE_STEPS, script, b"", status, told)?;
    }
    Ok(())
}
