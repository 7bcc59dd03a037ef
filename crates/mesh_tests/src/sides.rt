// The marks and corners of small meshes.
use crate::lines::accepted;
use lean::{Side, leans};
use mb_base::{Box3, Corner, Op, UNIT};
use mesh_check::Mesh;
use std::alloc::Global;
use std::process::Abort;
use test_tables::{box_soup, soup_of};

// The box from the origin to (10, 10, 10).
fn box_mesh(rt: &impl Abort, alloc: Global) -> Mesh {
    accepted(
        rt,
        alloc,
        box_soup(alloc, [0; 3], [10; 3]).expect(rt, "a soup"),
    )
}

// The marks of a mesh.
fn leans_of(rt: &impl Abort, alloc: Global, mesh: &Mesh, op: Op) -> Vec<[bool; 3]> {
    leans(alloc, mesh, op).expect(rt, "memory")
}

// Those of the box.
fn box_leans(rt: &impl Abort, alloc: Global, op: Op) -> Vec<[bool; 3]> {
    let mesh = box_mesh(rt, alloc);
    leans_of(rt, alloc, &mesh, op)
}

// The sums at a box's corners point away from it on each axis.
const OUTWARD: [[bool; 3]; 8] = [
    [false, false, false],
    [true, false, false],
    [false, true, false],
    [true, true, false],
    [false, false, true],
    [true, false, true],
    [false, true, true],
    [true, true, true],
];

// In reverse order each corner has the place of the one across the box.
const INWARD: [[bool; 3]; 8] = [
    [true, true, true],
    [false, true, true],
    [true, false, true],
    [false, false, true],
    [true, true, false],
    [false, true, false],
    [true, false, false],
    [false, false, false],
];

// The marks that an operation gives the box.
static MARKS: [(Op, &[[bool; 3]; 8]); 3] = [
    (Op::Union, &OUTWARD),
    (Op::Intersect, &INWARD),
    (Op::Subtract, &INWARD),
];

#[test]
fn a_box_grows_in_a_union_and_shrinks_in_the_others(rt: HostRuntime) {
    for (op, wanted) in &MARKS {
        let marks = box_leans(&rt, rt.alloc(), *op);
        assert!(rt; marks.as_slice() == wanted.as_slice());
    }
}

// Two triangles back to back.
const SHEET: [[u32; 3]; 2] = [[0, 1, 2], [2, 1, 0]];

// Their mesh over these points.
fn sheet_mesh(rt: &impl Abort, alloc: Global, points: &[[i32; 3]]) -> Mesh {
    accepted(
        rt,
        alloc,
        soup_of(alloc, points, &SHEET).expect(rt, "a soup"),
    )
}

#[test]
fn a_sum_of_nothing_is_no_mark(rt: HostRuntime) {
    // Corners at the bounds of the grid.
    let end = 1 << 30;
    let points = [[-end, -end, end], [end, -end, end], [-end, end, -end]];
    let mesh = sheet_mesh(&rt, rt.alloc(), &points);
    for op in &[Op::Union, Op::Intersect, Op::Subtract] {
        let marks = leans_of(&rt, rt.alloc(), &mesh, *op);
        assert!(rt; marks.as_slice() == [[false; 3]; 3].as_slice());
    }
}

// The side of a mesh with three points.
fn side_of(rt: &impl Abort, alloc: Global, mesh: &Mesh, ups: [[bool; 3]; 3]) -> Side {
    assert!(rt; mesh.points().len() == 3);
    let ups = Vec::from_array(alloc, ups).expect(rt, "three marks");
    Side::of(alloc, mesh, ups).expect(rt, "memory")
}

fn sheet(rt: &impl Abort, alloc: Global) -> Side {
    let points = [[0, 0, 0], [1 << 30, -5, 7], [3, -(1 << 30), 2]];
    let mesh = sheet_mesh(rt, alloc, &points);
    let ups = [[false; 3], [true, false, true], [false, true, false]];
    side_of(rt, alloc, &mesh, ups)
}

// The sheet's corners.
const CORNERS: [Corner; 3] = [
    Corner {
        at: [0; 3],
        up: [false; 3],
    },
    Corner {
        at: [(1 << 30) * UNIT, -5 * UNIT, 7 * UNIT],
        up: [true, false, true],
    },
    Corner {
        at: [3 * UNIT, -(1 << 30) * UNIT, 2 * UNIT],
        up: [false, true, false],
    },
];

fn expect_lists(rt: &impl Abort, side: &Side) {
    assert!(rt; side.triples() == SHEET.as_slice());
    assert!(rt; side.twins().twins() == [4, 3, 5, 1, 0, 2].as_slice());
    assert!(rt; side.corners() == CORNERS.as_slice());
}

fn expect_faces(rt: &impl Abort, side: &Side) {
    let [first, second, third] = CORNERS;
    assert!(rt; side.triples().len() == 2);
    assert!(rt; side.face(1) == [third, second, first]);
    assert!(rt; side.start(4) == 1);
    assert!(rt; side.edge(2) == [third, first]);
    assert!(rt; side.edge(3) == [third, second]);
}

#[test]
fn corners_are_points_in_fine_steps(rt: HostRuntime) {
    let side = sheet(&rt, rt.alloc());
    expect_lists(&rt, &side);
    expect_faces(&rt, &side);
}

// The box with its marks in a union.
fn box_side(rt: &impl Abort, alloc: Global) -> Side {
    let mesh = box_mesh(rt, alloc);
    let ups = leans(alloc, &mesh, Op::Union).expect(rt, "memory");
    Side::of(alloc, &mesh, ups).expect(rt, "memory")
}

// The faces of a side whose boxes touch an area, in any order.
fn faces_near(rt: &impl Abort, alloc: Global, side: &Side, area: Box3) -> Vec<u32> {
    let mut found = Vec::new(alloc);
    for face in side.tree().touching(area) {
        found.push(face).expect(rt, "room for a face");
    }
    found
}

// Whether none or two faces are the wanted ones, in either order.
fn are_faces(found: &[u32], wanted: &[u32]) -> bool {
    match (found, wanted) {
        ([], []) => true,
        ([a, b], [c, d]) => a == c && b == d || a == d && b == c,
        _ => false,
    }
}

// Areas, and the faces of the box that are near.
static AREAS: [(Box3, &[u32]); 3] = [
    (
        Box3 {
            low: [3 * UNIT, 3 * UNIT, -5 * UNIT],
            high: [4 * UNIT, 4 * UNIT, 5 * UNIT],
        },
        &[0, 1],
    ),
    (
        Box3 {
            low: [10 * UNIT, 3 * UNIT, 3 * UNIT],
            high: [12 * UNIT, 4 * UNIT, 4 * UNIT],
        },
        &[6, 7],
    ),
    (
        Box3 {
            low: [3 * UNIT, 3 * UNIT, 3 * UNIT],
            high: [4 * UNIT, 4 * UNIT, 4 * UNIT],
        },
        &[],
    ),
];

#[test]
fn faces_are_found_by_their_boxes(rt: HostRuntime) {
    let side = box_side(&rt, rt.alloc());
    for (area, wanted) in &AREAS {
        let found = faces_near(&rt, rt.alloc(), &side, *area);
        assert!(rt; are_faces(&found, wanted));
    }
}
