// Whole runs of scripts that inspect. What they tell was made by `benches/reference`, in plain Python over all pairs.
use super::expect_run;
use super::files::{CUBES_AT_A_CORNER, FLAT_TETRAHEDRON, NESTED_CUBES};
use super::made::shelf_of;
use mb_base::{Limits, NoMemory};
use std::process::Abort;
use std::test::Fail;

// Under no digits, and under four, where nothing is said.
const NONE: &[&str] = &["run", "s.txt", "--digits", "0"];

const FOUR: &[&str] = &["run", "s.txt"];

// Judges what a script says beside a mesh.
fn says<R: Abort + AllocGlobal>(
    rt: &R,
    words: &[&str],
    mesh: &[u8],
    script: &[u8],
    told: &[u8],
) -> Result<(), NoMemory> {
    let mut shelf = shelf_of(rt.alloc(), script, mesh)?;
    let told = [told, b""];
    expect_run(rt, words, &Limits::program(), &mut shelf, 0, 0, told)
}

// Words, a mesh, a script, and what it tells.
type Row = (
    &'static [&'static str],
    &'static [u8],
    &'static [u8],
    &'static [u8],
);

const ROWS: [Row; 6] = [
    // Corners below 0, under digits.
    (
        FOUR,
        b"",
        b"tetra t -1.5 -2.25 .125 3\ninspect t\n",
        b"t: low -1.5 -2.25 0.125, high 1.5 0.75 3.125, flat 0, doubled 0, touching 0, cuts 0\n",
    ),
    // An empty mesh; boxes that share an edge, before and after they are remeshed.
    (
        NONE,
        b"",
        b"box a 0 0 0 10 10 10\nbox b 10 10 0 20 20 10\nintersect e a b\ninspect e\nunion c a b\ninspect c\nremesh c c\ninspect c\n",
        b"e = intersect a b: kept 0 0, crossings 0, forced 0\ne: low 0 0 0, high 0 0 0, flat 0, doubled 0, touching 0, cuts 0\n\
        c = union a b: kept 8 6, crossings 10, forced 25\nc: low 0 0 0, high 20 20 10, flat 20, doubled 10, touching 1, cuts 0\n\
        c = remesh c: planes 8, kept 0\nc: low 0 0 0, high 20 20 10, flat 0, doubled 2, touching 1, cuts 0\n",
    ),
    // A bore through a slanted side, where rounded points leave cuts.
    (
        NONE,
        b"",
        b"polygon side 0 0 22 0 22 6\nextrude wedge side 0 10\nbox bore 4 1 3 7 6 7\nsubtract part wedge bore\ninspect part\nremesh part part\ninspect part\n",
        b"wedge = extrude side: forced 0\npart = subtract wedge bore: kept 6 4, crossings 10, forced 25\n\
        part: low 0 0 0, high 22 6 10, flat 17, doubled 7, touching 0, cuts 8\npart = remesh part: planes 13, kept 0\n\
        part: low 0 0 0, high 22 6 10, flat 0, doubled 1, touching 0, cuts 5\n",
    ),
    // All at one point.
    (
        NONE,
        FLAT_TETRAHEDRON,
        b"load z m.obj\ninspect z\nunion u z z\ninspect u\n",
        b"load z m.obj: points 4, triangles 4, unused 0\nz: low 0 0 0, high 0 0 0, flat 4, doubled 3, touching 0, cuts 0\n\
        u = union z z: kept 4 4, crossings 0, forced 8\nu: low 0 0 0, high 0 0 0, flat 8, doubled 7, touching 0, cuts 0\n",
    ),
    // Cubes that share a corner alone.
    (
        NONE,
        CUBES_AT_A_CORNER,
        b"load c m.obj\ninspect c\n",
        b"load c m.obj: points 15, triangles 24, unused 0\nc: low 0 0 0, high 20 20 20, flat 0, doubled 0, touching 0, cuts 0\n",
    ),
    // One cube in another, and both cut by a box under exact kernels.
    (
        NONE,
        NESTED_CUBES,
        b"load n m.obj\ninspect n\nbox b 3 3 3 14 14 14\nexact\nunion n n b\ninspect n\n",
        b"load n m.obj: points 16, triangles 24, unused 0\nn: low 0 0 0, high 10 10 10, flat 0, doubled 0, touching 0, cuts 0\n\
        n = union n b: kept 14 8, crossings 26, forced 48\nn: low 0 0 0, high 14 14 14, flat 21, doubled 12, touching 10, cuts 66\n",
    ),
];

#[test]
fn meshes_of_scripts_are_inspected(rt: HostRuntime) -> Result<(), Fail> {
    for (words, mesh, script, told) in ROWS {
        says(&rt, words, mesh, script, told)?;
    }
    Ok(())
}
