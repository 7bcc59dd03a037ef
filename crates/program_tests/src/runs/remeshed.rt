// Whole runs of scripts that remesh. Lines and files that are expected were made by the reference program, `benches/reference`, in plain Python. Flat and folded
// triangles were counted by a script, in the results before and after.
use super::made::shelf_of;
use super::{expect_run, is_same};
use mb_base::{Limits, NoMemory};
use std::process::Abort;
use std::test::Fail;

// Judges what a script says beside a mesh, and the file that it saves, if any.
fn remeshes<R: Abort + AllocGlobal>(
    rt: &R,
    script: &[u8],
    mesh: &[u8],
    told: &[u8],
    saved: Option<&[u8]>,
) -> Result<(), NoMemory> {
    let mut shelf = shelf_of(rt.alloc(), script, mesh)?;
    let words = ["run", "s.txt", "--digits", "0"];
    let told = [told, b""];
    expect_run(rt, &words, &Limits::program(), &mut shelf, 0, 0, told)?;
    assert!(rt; is_same(shelf.get("r.obj"), saved));
    Ok(())
}

// A plate with a square hole, whose corners lie on the diagonals of the plate's faces: 10 flat triangles and 2 folded ones, and then none.
const PLATE_SCRIPT: &[u8] =
    b"box p 0 0 0 40 40 3\nbox h 10 10 -1 30 30 4\nsubtract a p h\nremesh r a\nmeasure r\nsave r r.obj\nremesh r r\n";

const PLATE_TOLD: &[u8] =
    b"a = subtract p h: kept 8 0, crossings 20, forced 17\nr = remesh a: planes 10, kept 0\n\
r: points 16, triangles 32, components 1, euler 0, volume6 21600\nsave r r.obj: points 16, triangles 32\n\
r = remesh r: planes 10, kept 0\n";

const PLATE: &[u8] =
    b"v 0 0 0\nv 40 0 0\nv 0 40 0\nv 40 40 0\nv 0 0 3\nv 40 0 3\nv 0 40 3\nv 40 40 3\nv 10 10 0\nv 30 30 0\n\
v 10 10 3\nv 30 30 3\nv 30 10 0\nv 30 10 3\nv 10 30 0\nv 10 30 3\nf 3 4 10\nf 3 10 15\nf 1 3 15\nf 1 15 9\nf 2 1 9\n\
f 2 9 13\nf 2 13 10\nf 10 4 2\nf 6 8 12\nf 6 12 14\nf 5 6 14\nf 5 14 11\nf 7 5 11\nf 7 11 16\nf 7 16 12\nf 12 8 7\n\
f 5 1 2\nf 2 6 5\nf 6 2 4\nf 4 8 6\nf 4 3 7\nf 7 8 4\nf 3 1 5\nf 5 7 3\nf 13 9 11\nf 11 14 13\nf 12 10 13\n\
f 13 14 12\nf 15 10 12\nf 12 16 15\nf 11 9 15\nf 15 16 11\n";

#[test]
fn a_folded_plate_is_filled_anew(rt: HostRuntime) -> Result<(), Fail> {
    remeshes(&rt, PLATE_SCRIPT, b"", PLATE_TOLD, Some(PLATE))?;
    Ok(())
}

// A cube whose top has two groups. Its middle stands twice, and two triangles of a third group join the two points.
const SEAMED_CUBE: &[u8] =
    b"v 0 0 0\nv 4 0 0\nv 0 4 0\nv 4 4 0\nv 0 0 4\nv 4 0 4\nv 0 4 4\nv 4 4 4\nv 2 2 4\nv 2 2 4\n\
g side\nf 1 4 2\nf 1 3 4\nf 1 2 5\nf 2 6 5\nf 2 4 8\nf 2 8 6\nf 4 3 7\nf 4 7 8\nf 1 5 7\nf 1 7 3\ng left\nf 5 6 9\n\
f 7 5 9\ng right\nf 6 8 10\nf 8 7 10\ng seam\nf 9 6 10\nf 7 9 10\n";

const WELDED_CUBE: &[u8] =
    b"v 0 0 0\nv 4 0 0\nv 0 4 0\nv 4 4 0\nv 0 0 4\nv 4 0 4\nv 0 4 4\nv 4 4 4\ng side\nf 2 1 3\nf 3 4 2\nf 5 1 2\n\
f 2 6 5\nf 6 2 4\nf 4 8 6\nf 4 3 7\nf 7 8 4\nf 3 1 5\nf 5 7 3\ng left\nf 5 6 7\ng right\nf 6 8 7\n";

#[test]
fn groups_stay_apart_in_one_plane(rt: HostRuntime) -> Result<(), Fail> {
    remeshes(
        &rt,
        b"load a m.obj\nremesh r a\nsave r r.obj\n",
        SEAMED_CUBE,
        b"load a m.obj: points 10, triangles 16, unused 0\nr = remesh a: planes 6, kept 0\nsave r r.obj: points 8, triangles 12\n",
        Some(WELDED_CUBE),
    )?;
    Ok(())
}

// A tetrahedron. On one side an edge of it is cut in two, and a flat triangle of a group of its own joins the halves to the whole.
const CUT_TETRAHEDRON: &[u8] =
    b"v 0 0 0\nv 4 0 0\nv 0 4 0\nv 0 0 4\nv 2 0 0\ng side\nf 1 3 2\nf 1 5 4\ng seam\nf 1 2 5\ng side\nf 5 2 4\nf 2 3 4\nf 3 1 4\n";

const REMESHED_TETRAHEDRON: &[u8] =
    b"v 0 0 0\nv 4 0 0\nv 0 4 0\nv 0 0 4\ng side\nf 1 3 2\nf 1 2 4\nf 2 3 4\nf 1 4 3\n";

#[test]
fn a_flat_triangle_goes(rt: HostRuntime) -> Result<(), Fail> {
    remeshes(
        &rt,
        b"load a m.obj\nremesh r a\nsave r r.obj\n",
        CUT_TETRAHEDRON,
        b"load a m.obj: points 5, triangles 6, unused 0\nr = remesh a: planes 4, kept 0\nsave r r.obj: points 4, triangles 4\n",
        Some(REMESHED_TETRAHEDRON),
    )?;
    Ok(())
}

// The guide's plate, with a wedge on it and a bore: 4 flat triangles and 1 folded one, and then none.
const BORED_SCRIPT: &[u8] =
    b"box plate 0 0 0 40 30 3\nprism wedge 4 4 2 12 7\nunion blank plate wedge\nbox bore 20 10 -1 26 16 4\nsubtract part blank bore\nmeasure part\n\
remesh r part\nmeasure r\nsave r r.obj\n";

const BORED_TOLD: &[u8] = b"blank = union plate wedge: kept 8 3, crossings 8, forced 0\n\
part = subtract blank bore: kept 19 0, crossings 20, forced 9\n\
part: points 39, triangles 78, components 1, euler 0, volume6 23544\nr = remesh part: planes 14, kept 0\n\
r: points 22, triangles 44, components 1, euler 0, volume6 23544\nsave r r.obj: points 22, triangles 44\n";

const BORED: &[u8] =
    b"v 0 0 0\nv 40 0 0\nv 0 30 0\nv 40 30 0\nv 0 0 3\nv 40 0 3\nv 0 30 3\nv 40 30 3\nv 4 4 9\nv 16 4 9\nv 4 16 9\n\
v 16 4 3\nv 4 4 3\nv 4 16 3\nv 20 16 3\nv 20 10 0\nv 20 10 3\nv 26 10 0\nv 26 10 3\nv 26 16 0\nv 26 16 3\nv 20 16 0\n\
f 3 4 20\nf 3 20 22\nf 1 3 22\nf 1 22 16\nf 2 1 16\nf 2 16 18\nf 2 18 20\nf 20 4 2\nf 6 8 21\nf 6 21 19\nf 6 19 17\n\
f 6 17 12\nf 5 6 12\nf 5 12 13\nf 7 5 13\nf 7 13 14\nf 7 14 12\nf 7 12 17\nf 7 17 15\nf 7 15 21\nf 21 8 7\nf 5 1 2\n\
f 2 6 5\nf 6 2 4\nf 4 8 6\nf 4 3 7\nf 7 8 4\nf 3 1 5\nf 5 7 3\nf 9 10 11\nf 10 9 13\nf 13 12 10\nf 11 10 12\n\
f 12 14 11\nf 13 9 11\nf 11 14 13\nf 18 16 17\nf 17 19 18\nf 20 18 19\nf 19 21 20\nf 21 15 22\nf 22 20 21\n\
f 22 15 17\nf 17 16 22\n";

// The same with the bore elsewhere: 6 flat triangles and 5 folded ones, and then none. The upper mouth of the bore is covered by triangles that share no edge, one
// turned up and one down: these cancel.
const COVERED_SCRIPT: &[u8] =
    b"box plate 0 0 0 40 30 3\nprism wedge 4 4 2 12 7\nunion blank plate wedge\nbox bore 26 14 -1 32 20 4\nsubtract part blank bore\nmeasure part\n\
remesh r part\nmeasure r\nsave r r.obj\n";

const COVERED_TOLD: &[u8] = b"blank = union plate wedge: kept 8 3, crossings 8, forced 0\n\
part = subtract blank bore: kept 19 0, crossings 20, forced 18\n\
part: points 39, triangles 78, components 1, euler 0, volume6 23544\nr = remesh part: planes 14, kept 0\n\
r: points 22, triangles 44, components 1, euler 0, volume6 23544\nsave r r.obj: points 22, triangles 44\n";

const COVERED: &[u8] =
    b"v 0 0 0\nv 40 0 0\nv 0 30 0\nv 40 30 0\nv 0 0 3\nv 40 0 3\nv 0 30 3\nv 40 30 3\nv 4 4 9\nv 16 4 9\nv 4 16 9\n\
v 16 4 3\nv 4 4 3\nv 4 16 3\nv 26 20 0\nv 26 20 3\nv 26 14 0\nv 26 14 3\nv 32 14 0\nv 32 14 3\nv 32 20 0\nv 32 20 3\n\
f 2 1 3\nf 3 4 21\nf 3 21 15\nf 3 15 17\nf 2 3 17\nf 2 17 19\nf 2 19 21\nf 21 4 2\nf 6 8 22\nf 6 22 20\nf 6 20 18\n\
f 6 18 12\nf 5 6 12\nf 5 12 13\nf 7 5 13\nf 7 13 14\nf 7 14 12\nf 7 12 18\nf 7 18 16\nf 7 16 22\nf 22 8 7\nf 5 1 2\n\
f 2 6 5\nf 6 2 4\nf 4 8 6\nf 4 3 7\nf 7 8 4\nf 3 1 5\nf 5 7 3\nf 9 10 11\nf 10 9 13\nf 13 12 10\nf 11 10 12\n\
f 12 14 11\nf 13 9 11\nf 11 14 13\nf 19 17 18\nf 18 20 19\nf 21 19 20\nf 20 22 21\nf 16 15 21\nf 21 22 16\n\
f 17 15 16\nf 16 18 17\n";

// A hollow box with a flush lid: 60 flat triangles, and then none.
const LID_SCRIPT: &[u8] =
    b"box a 0 0 0 40 30 20\nbox h 2 2 2 38 28 20\nsubtract a a h\nbox b 0 0 20 40 30 22\nunion c a b\nmeasure c\nremesh r c\nmeasure r\nsave r r.obj\n";

const LID_TOLD: &[u8] =
    b"a = subtract a h: kept 8 4, crossings 10, forced 17\nc = union a b: kept 18 4, crossings 30, forced 70\n\
c: points 52, triangles 96, components 2, euler 4, volume6 57312\nr = remesh c: planes 12, kept 0\n\
r: points 16, triangles 24, components 2, euler 4, volume6 57312\nsave r r.obj: points 16, triangles 24\n";

const LID: &[u8] =
    b"v 0 0 0\nv 40 0 0\nv 0 30 0\nv 40 30 0\nv 2 2 2\nv 38 2 2\nv 2 28 2\nv 38 28 2\nv 2 2 20\nv 38 28 20\n\
v 2 28 20\nv 0 0 22\nv 40 0 22\nv 0 30 22\nv 40 30 22\nv 38 2 20\nf 2 1 3\nf 3 4 2\nf 12 1 2\nf 2 13 12\nf 13 2 4\n\
f 4 15 13\nf 4 3 14\nf 14 15 4\nf 3 1 12\nf 12 14 3\nf 7 5 6\nf 6 8 7\nf 6 5 9\nf 9 16 6\nf 8 6 16\nf 16 10 8\n\
f 11 7 8\nf 8 10 11\nf 9 5 7\nf 7 11 9\nf 16 9 11\nf 11 10 16\nf 14 12 13\nf 13 15 14\n";

#[test]
fn bored_plates_and_a_flush_lid_are_filled_anew(rt: HostRuntime) -> Result<(), Fail> {
    remeshes(&rt, BORED_SCRIPT, b"", BORED_TOLD, Some(BORED))?;
    remeshes(&rt, COVERED_SCRIPT, b"", COVERED_TOLD, Some(COVERED))?;
    remeshes(&rt, LID_SCRIPT, b"", LID_TOLD, Some(LID))?;
    Ok(())
}

// A plate less a hundred square holes, whose tools are united first: 128 flat triangles and 166 folded ones, and then none.
const HOLES_SCRIPT: &[u8] =
    b"box p 0 0 0 200 200 4\nbox t 5 5 -1 15 15 5\nshift s t 20 0 0\nunion u t s\nshift s u 40 0 0\nunion t u s\nshift s t 80 0 0\nunion t t s\nshift s u 160 0 0\n\
union t t s\nshift s t 0 20 0\nunion u t s\nshift s u 0 40 0\nunion t u s\nshift s t 0 80 0\nunion t t s\nshift s u 0 160 0\nunion t t s\nsubtract a p t\nmeasure a\n\
remesh r a\nmeasure r\n";

const HOLES_TOLD: &[u8] =
    b"u = union t s: kept 8 8, crossings 0, forced 0\nt = union u s: kept 16 16, crossings 0, forced 0\nt = union t s: kept 32 32, crossings 0, forced 0\n\
t = union t s: kept 64 16, crossings 0, forced 0\nu = union t s: kept 80 80, crossings 0, forced 0\nt = union u s: kept 160 160, crossings 0, forced 0\n\
t = union t s: kept 320 320, crossings 0, forced 0\nt = union t s: kept 640 160, crossings 0, forced 0\na = subtract p t: kept 8 0, crossings 1640, forced 450\n\
a: points 1648, triangles 3692, components 1, euler -198, volume6 720000\nr = remesh a: planes 46, kept 0\n\
r: points 808, triangles 2012, components 1, euler -198, volume6 720000\n";

// Fifty boxes of side 10, one in a corner and the others at random multiples of 5, united one after the other: 6,031 flat triangles and 89 folded ones, and
// then none. Of the seven components six lay in one point each, and went.
const BOXES_SCRIPT: &[u8] =
    b"box u 0 0 0 10 10 10\nbox b 20 10 25 30 20 35\nunion u u b\nbox b 10 25 25 20 35 35\nunion u u b\nbox b 25 20 0 35 30 10\nunion u u b\nbox b 15 5 25 25 15 35\n\
union u u b\nbox b 0 5 0 10 15 10\nunion u u b\nbox b 10 15 5 20 25 15\nunion u u b\nbox b 15 20 0 25 30 10\nunion u u b\nbox b 20 5 0 30 15 10\nunion u u b\n\
box b 25 5 15 35 15 25\nunion u u b\nbox b 10 5 15 20 15 25\nunion u u b\nbox b 5 0 5 15 10 15\nunion u u b\nbox b 20 20 15 30 30 25\nunion u u b\n\
box b 5 5 0 15 15 10\nunion u u b\nbox b 0 5 5 10 15 15\nunion u u b\nbox b 5 5 10 15 15 20\nunion u u b\nbox b 10 5 20 20 15 30\nunion u u b\n\
box b 25 25 5 35 35 15\nunion u u b\nbox b 5 25 5 15 35 15\nunion u u b\nbox b 15 10 0 25 20 10\nunion u u b\nbox b 10 15 5 20 25 15\nunion u u b\n\
box b 5 10 0 15 20 10\nunion u u b\nbox b 10 10 20 20 20 30\nunion u u b\nbox b 20 0 20 30 10 30\nunion u u b\nbox b 25 25 10 35 35 20\nunion u u b\n\
box b 0 10 10 10 20 20\nunion u u b\nbox b 10 15 25 20 25 35\nunion u u b\nbox b 10 5 15 20 15 25\nunion u u b\nbox b 15 25 5 25 35 15\nunion u u b\n\
box b 0 10 0 10 20 10\nunion u u b\nbox b 25 10 15 35 20 25\nunion u u b\nbox b 0 20 15 10 30 25\nunion u u b\nbox b 10 15 20 20 25 30\nunion u u b\n\
box b 0 15 0 10 25 10\nunion u u b\nbox b 25 5 20 35 15 30\nunion u u b\nbox b 5 0 5 15 10 15\nunion u u b\nbox b 15 10 20 25 20 30\nunion u u b\n\
box b 10 20 10 20 30 20\nunion u u b\nbox b 15 0 20 25 10 30\nunion u u b\nbox b 25 10 10 35 20 20\nunion u u b\nbox b 0 15 0 10 25 10\nunion u u b\n\
box b 5 10 20 15 20 30\nunion u u b\nbox b 20 10 5 30 20 15\nunion u u b\nbox b 10 10 25 20 20 35\nunion u u b\nbox b 20 0 10 30 10 20\nunion u u b\n\
box b 25 10 10 35 20 20\nunion u u b\nbox b 5 0 25 15 10 35\nunion u u b\nbox b 5 25 25 15 35 35\nunion u u b\nbox b 10 15 5 20 25 15\nunion u u b\n\
box b 25 0 0 35 10 10\nunion u u b\nmeasure u\nremesh r u\nmeasure r\n";

const BOXES_TOLD: &[u8] =
    b"u = union u b: kept 8 8, crossings 0, forced 0\nu = union u b: kept 16 8, crossings 0, forced 0\nu = union u b: kept 24 8, crossings 0, forced 0\n\
u = union u b: kept 32 6, crossings 14, forced 28\nu = union u b: kept 52 4, crossings 10, forced 36\nu = union u b: kept 65 7, crossings 10, forced 55\n\
u = union u b: kept 81 3, crossings 26, forced 97\nu = union u b: kept 109 7, crossings 13, forced 117\nu = union u b: kept 127 6, crossings 26, forced 163\n\
u = union u b: kept 155 4, crossings 46, forced 251\nu = union u b: kept 203 5, crossings 52, forced 358\nu = union u b: kept 259 4, crossings 50, forced 450\n\
u = union u b: kept 290 3, crossings 154, forced 707\nu = union u b: kept 352 4, crossings 162, forced 830\nu = union u b: kept 451 2, crossings 154, forced 986\n\
u = union u b: kept 592 3, crossings 82, forced 1112\nu = union u b: kept 675 5, crossings 47, forced 1201\nu = union u b: kept 724 6, crossings 23, forced 1218\n\
u = union u b: kept 731 0, crossings 157, forced 1486\nu = union u b: kept 870 1, crossings 135, forced 1707\nu = union u b: kept 839 3, crossings 166, forced 1711\n\
u = union u b: kept 955 2, crossings 124, forced 1852\nu = union u b: kept 1060 4, crossings 90, forced 1980\nu = union u b: kept 1151 5, crossings 60, forced 2087\n\
u = union u b: kept 1145 3, crossings 167, forced 2273\nu = union u b: kept 1307 2, crossings 97, forced 2452\n\
u = union u b: kept 1309 1, crossings 148, forced 2554\nu = union u b: kept 1416 2, crossings 168, forced 2830\n\
u = union u b: kept 1487 2, crossings 100, forced 2836\nu = union u b: kept 1578 3, crossings 87, forced 2954\n\
u = union u b: kept 1660 4, crossings 109, forced 3173\nu = union u b: kept 1710 2, crossings 189, forced 3400\n\
u = union u b: kept 1842 3, crossings 96, forced 3459\nu = union u b: kept 1912 3, crossings 88, forced 3595\nu = union u b: kept 1905 0, crossings 70, forced 3536\n\
u = union u b: kept 1780 2, crossings 208, forced 3554\nu = union u b: kept 1904 2, crossings 247, forced 3882\n\
u = union u b: kept 2027 4, crossings 106, forced 3839\nu = union u b: kept 2122 1, crossings 118, forced 4056\n\
u = union u b: kept 2180 0, crossings 194, forced 4306\nu = union u b: kept 2323 2, crossings 144, forced 4500\n\
u = union u b: kept 2383 0, crossings 280, forced 4887\nu = union u b: kept 2613 4, crossings 203, forced 5189\n\
u = union u b: kept 2793 2, crossings 117, forced 5366\nu = union u b: kept 2854 0, crossings 123, forced 5475\n\
u = union u b: kept 2888 5, crossings 109, forced 5528\nu = union u b: kept 2999 5, crossings 78, forced 5678\n\
u = union u b: kept 2872 4, crossings 365, forced 5986\nu = union u b: kept 3233 4, crossings 45, forced 6050\n\
u: points 3282, triangles 6644, components 7, euler -40, volume6 168000\nr = remesh u: planes 24, kept 0\n\
r: points 182, triangles 360, components 1, euler 2, volume6 168000\n";

#[test]
fn many_holes_and_flush_boxes_are_filled_anew(rt: HostRuntime) -> Result<(), Fail> {
    remeshes(&rt, HOLES_SCRIPT, b"", HOLES_TOLD, None)?;
    remeshes(&rt, BOXES_SCRIPT, b"", BOXES_TOLD, None)?;
    Ok(())
}

// Two bars, one across the other and on it, apart as meshes. Where they touch there are edges then, and four points more.
const CROSSED_BARS: &[u8] =
    b"v 0 0 0\nv 30 0 0\nv 0 10 0\nv 30 10 0\nv 0 0 10\nv 30 0 10\nv 0 10 10\nv 30 10 10\nv 10 -10 10\n\
v 20 -10 10\nv 10 20 10\nv 20 20 10\nv 10 -10 20\nv 20 -10 20\nv 10 20 20\nv 20 20 20\nf 1 4 2\nf 1 3 4\n\
f 5 6 8\nf 5 8 7\nf 1 2 5\nf 2 6 5\nf 2 4 8\nf 2 8 6\nf 4 3 7\nf 4 7 8\nf 1 5 7\nf 1 7 3\nf 9 12 10\nf 9 11 12\n\
f 13 14 16\nf 13 16 15\nf 9 10 13\nf 10 14 13\nf 10 12 16\nf 10 16 14\nf 12 11 15\nf 12 15 16\nf 9 13 15\n\
f 9 15 11\n";

#[test]
fn a_remeshed_mesh_may_exceed_the_limits(rt: HostRuntime) -> Result<(), Fail> {
    let script = b"load a m.obj\nremesh r a\n";
    let words = ["run", "s.txt", "--digits", "0"];
    let whole: [&[u8]; 2] = [
        b"load a m.obj: points 16, triangles 24, unused 0\nr = remesh a: planes 11, kept 0\n",
        b"",
    ];
    let mut shelf = shelf_of(rt.alloc(), script, CROSSED_BARS)?;
    expect_run(&rt, &words, &Limits::program(), &mut shelf, 0, 0, whole)?;
    let limits = Limits::of(4_815, 45, 30, 18).ok_or("these limits are lawful")?;
    let refused: [&[u8]; 2] = [
        b"load a m.obj: points 16, triangles 24, unused 0\n",
        b"limit triangles 36\n",
    ];
    let mut shelf = shelf_of(rt.alloc(), script, CROSSED_BARS)?;
    expect_run(&rt, &words, &limits, &mut shelf, 0, 5, refused)?;
    Ok(())
}

// Parts whose faces lie on one another: two boxes side by side, bars that overlap lengthwise, a wall flush with three sides of its base, an L, a frame of four bars,
// and two pockets with a common side; volumes are those of the drawings, times six.
const FLUSH_SCRIPT: &[u8] =
    b"box a 0 0 0 4 3 2\nbox b 4 0 0 7 3 2\nunion beside a b\nremesh beside beside\nmeasure beside\ninspect beside\nbox a 0 0 0 5 2 2\nbox b 3 0 0 9 2 2\n\
union bars b a\nremesh bars bars\nmeasure bars\ninspect bars\nbox a 0 0 0 8 6 2\nbox b 0 0 0 3 6 7\nunion wall b a\nremesh wall wall\nmeasure wall\n\
inspect wall\nexact\nbox a 0 0 0 9 2 1\nbox b 0 0 0 2 7 1\nunion corner a b\nremesh corner corner\nmeasure corner\ninspect corner\nbox a 0 0 0 9 2 3\n\
box b 0 6 0 9 8 3\nbox c 0 0 0 2 8 3\nbox d 7 0 0 9 8 3\nunion frame a b\nunion frame frame c\nunion frame frame d\nremesh frame frame\n\
measure frame\ninspect frame\nbox a 0 0 0 9 6 4\nbox b 2 2 1 4 4 5\nbox c 4 2 1 7 4 5\nsubtract pockets a b\nsubtract pockets pockets c\n\
remesh pockets pockets\nmeasure pockets\ninspect pockets\n";

const FLUSH_TOLD: &[u8] =
    b"beside = union a b: kept 8 4, crossings 10, forced 24\nbeside = remesh beside: planes 7, kept 0\n\
beside: points 8, triangles 12, components 1, euler 2, volume6 252\nbeside: low 0 0 0, high 7 3 2, flat 0, doubled 0, touching 0, cuts 0\n\
bars = union b a: kept 8 4, crossings 10, forced 13\nbars = remesh bars: planes 7, kept 0\n\
bars: points 8, triangles 12, components 1, euler 2, volume6 216\nbars: low 0 0 0, high 9 2 2, flat 0, doubled 0, touching 0, cuts 0\n\
wall = union b a: kept 8 4, crossings 10, forced 16\nwall = remesh wall: planes 8, kept 0\n\
wall: points 12, triangles 20, components 1, euler 2, volume6 1116\nwall: low 0 0 0, high 8 6 7, flat 0, doubled 0, touching 0, cuts 0\n\
corner = union a b: kept 6 8, crossings 16, forced 39\ncorner = remesh corner: planes 8, kept 0\n\
corner: points 12, triangles 20, components 1, euler 2, volume6 168\ncorner: low 0 0 0, high 9 7 1, flat 0, doubled 0, touching 0, cuts 0\n\
frame = union a b: kept 8 8, crossings 0, forced 0\nframe = union frame c: kept 13 7, crossings 30, forced 65\n\
frame = union frame d: kept 50 6, crossings 50, forced 158\nframe = remesh frame: planes 10, kept 0\n\
frame: points 16, triangles 32, components 1, euler 0, volume6 936\nframe: low 0 0 0, high 9 8 3, flat 0, doubled 0, touching 0, cuts 0\n\
pockets = subtract a b: kept 8 4, crossings 10, forced 15\npockets = subtract pockets c: kept 19 4, crossings 31, forced 62\n\
pockets = remesh pockets: planes 11, kept 0\npockets: points 16, triangles 28, components 1, euler 2, volume6 1116\n\
pockets: low 0 0 0, high 9 6 4, flat 0, doubled 0, touching 0, cuts 0\n";

#[test]
fn flush_parts_come_out_clean(rt: HostRuntime) -> Result<(), Fail> {
    remeshes(&rt, FLUSH_SCRIPT, b"", FLUSH_TOLD, None)?;
    Ok(())
}
