// Whole runs of scripts that tidy the mesh of a file; what is expected was found by a reference program.
use super::files::{
    BACK_TO_BACK, DOUBLED_EDGE, FLAT_TETRAHEDRON, OPENING, OPENING_TIDIED, SPLIT_IN_GROUPS,
    SPLIT_IN_GROUPS_TIDIED, SPLIT_TETRAHEDRON, TETRAHEDRON, THIRD_NEIGHBOUR,
};
use super::made::shelf_of;
use super::{expect_run, is_same};
use mb_base::{Limits, NoMemory};
use std::process::Abort;
use std::test::Fail;

// The mesh is tidied, measured and saved, and tidied once more.
const SCRIPT: &[u8] = b"load a m.obj\ntidy t a\nmeasure t\nsave t t.obj\ntidy a t\n";

// Judges what the script says of a mesh, and what it saves.
fn tidies<R: Abort + AllocGlobal>(
    rt: &R,
    mesh: &[u8],
    told: &[u8],
    saved: &[u8],
) -> Result<(), NoMemory> {
    let mut shelf = shelf_of(rt.alloc(), SCRIPT, mesh)?;
    let words = ["run", "s.txt", "--digits", "0"];
    let told = [told, b""];
    expect_run(rt, &words, &Limits::program(), &mut shelf, 0, 0, told)?;
    assert!(rt; is_same(shelf.get("t.obj"), Some(saved)));
    Ok(())
}

// What the script says of a split tetrahedron.
const SPLIT_TOLD: &[u8] =
    b"load a m.obj: points 5, triangles 6, unused 0\nt = tidy a: collapsed 1\nt: points 4, triangles 4, components 1, euler 2, volume6 1\nsave t t.obj: points 4, triangles 4\na = tidy t: collapsed 0\n";

#[test]
fn edges_of_length_zero_are_collapsed(rt: HostRuntime) -> Result<(), Fail> {
    tidies(&rt, SPLIT_TETRAHEDRON, SPLIT_TOLD, TETRAHEDRON)?;
    tidies(
        &rt,
        FLAT_TETRAHEDRON,
        b"load a m.obj: points 4, triangles 4, unused 0\nt = tidy a: collapsed 1\nt: points 3, triangles 2, components 1, euler 2, volume6 0\nsave t t.obj: points 3, triangles 2\na = tidy t: collapsed 0\n",
        b"v 0 0 0\nv 0 0 0\nv 0 0 0\nf 1 2 3\nf 2 1 3\n",
    )?;
    Ok(())
}

// The half-edge from the last point to the first is the lesser: the last point stays, and each other triangle its group.
#[test]
fn the_start_of_the_least_half_edge_stays_and_so_do_groups(rt: HostRuntime) -> Result<(), Fail> {
    tidies(&rt, SPLIT_IN_GROUPS, SPLIT_TOLD, SPLIT_IN_GROUPS_TIDIED)?;
    Ok(())
}

// A half-edge can be collapsed only once a greater one was.
#[test]
fn a_collapse_opens_a_lesser_half_edge(rt: HostRuntime) -> Result<(), Fail> {
    tidies(
        &rt,
        OPENING,
        b"load a m.obj: points 6, triangles 8, unused 0\nt = tidy a: collapsed 3\nt: points 3, triangles 2, components 1, euler 2, volume6 0\nsave t t.obj: points 3, triangles 2\na = tidy t: collapsed 0\n",
        OPENING_TIDIED,
    )?;
    Ok(())
}

// The ends of an edge lie at one point, and a third vertex is joined to both, or a second edge runs between them, or its triangles lie back to back.
#[test]
fn what_would_pinch_the_surface_stays(rt: HostRuntime) -> Result<(), Fail> {
    tidies(
        &rt,
        THIRD_NEIGHBOUR,
        b"load a m.obj: points 5, triangles 6, unused 0\nt = tidy a: collapsed 0\nt: points 5, triangles 6, components 1, euler 2, volume6 0\nsave t t.obj: points 5, triangles 6\na = tidy t: collapsed 0\n",
        THIRD_NEIGHBOUR,
    )?;
    tidies(
        &rt,
        DOUBLED_EDGE,
        b"load a m.obj: points 6, triangles 8, unused 0\nt = tidy a: collapsed 0\nt: points 6, triangles 8, components 1, euler 2, volume6 0\nsave t t.obj: points 6, triangles 8\na = tidy t: collapsed 0\n",
        DOUBLED_EDGE,
    )?;
    tidies(
        &rt,
        BACK_TO_BACK,
        b"load a m.obj: points 3, triangles 2, unused 0\nt = tidy a: collapsed 0\nt: points 3, triangles 2, components 1, euler 2, volume6 0\nsave t t.obj: points 3, triangles 2\na = tidy t: collapsed 0\n",
        BACK_TO_BACK,
    )?;
    Ok(())
}
