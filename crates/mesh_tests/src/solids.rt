// Made solids, motions and measures; what is expected was found by a reference program.
use crate::lines::accepted;
use mb_base::{Counted, Limits, Point};
use mesh_check::Mesh;
use mesh_make::{
    MakeFault, make_box, make_lattice, make_prism, make_tetra, measure, mirror, quarter_turn,
    scale, shift, volume6,
};
use std::alloc::Global;
use std::process::Abort;
use test_tables::{BOX, soup_of, two_boxes};

const GRID_END: i32 = 1 << 30;

fn point(rt: &impl Abort, row: [i32; 3]) -> Point {
    let [x, y, z] = row;
    Point::of(x, y, z).expect(rt, "a point of the grid")
}

// Points, triangles, components, Euler characteristic and six times the volume.
fn measures(rt: &impl Abort, alloc: Global, mesh: &Mesh) -> [i128; 5] {
    let measure = measure(alloc, mesh).expect(rt, "memory");
    [
        measure.points as i128,
        measure.triangles as i128,
        measure.components as i128,
        measure.euler as i128,
        measure.volume6,
    ]
}

fn box_of(rt: &impl Abort, alloc: Global, low: [i32; 3], high: [i32; 3]) -> Mesh {
    let (low, high) = (point(rt, low), point(rt, high));
    make_box(alloc, low, high, &Limits::program()).expect(rt, "a box")
}

// Where a point of the mesh lies.
fn place_of(rt: &impl Abort, mesh: &Mesh, vertex: usize) -> [i32; 3] {
    mesh.points().get(vertex).expect(rt, "a vertex").at()
}

#[test]
fn a_box_has_its_measures(rt: HostRuntime) {
    let mesh = box_of(&rt, rt.alloc(), [0, 0, 0], [10, 10, 10]);
    assert!(rt; mesh.triples() == BOX.as_slice());
    assert!(rt; place_of(&rt, &mesh, 5) == [10, 0, 10]);
    assert!(rt; measures(&rt, rt.alloc(), &mesh) == [8, 12, 1, 2, 6000]);
}

#[test]
fn a_tetrahedron_has_its_measures(rt: HostRuntime) {
    let origin = point(&rt, [0, 0, 0]);
    let mesh = make_tetra(rt.alloc(), origin, 6, &Limits::program()).expect(&rt, "a tetrahedron");
    assert!(rt; measures(&rt, rt.alloc(), &mesh) == [4, 4, 1, 2, 216]);
}

fn prism_of(rt: &impl Abort, alloc: Global, size: i32, height: i32) -> Mesh {
    let at = point(rt, [0, 0, 0]);
    make_prism(alloc, at, size, height, &Limits::program()).expect(rt, "a prism")
}

fn turned(rt: &impl Abort, alloc: Global, mesh: &Mesh, axis: u8) -> Mesh {
    assert!(rt; axis <= 2);
    quarter_turn(alloc, mesh, axis).expect(rt, "it stays on the grid")
}

fn mirrored(rt: &impl Abort, alloc: Global, mesh: &Mesh, axis: u8) -> Mesh {
    assert!(rt; axis <= 2);
    mirror(alloc, mesh, axis).expect(rt, "it stays on the grid")
}

fn shifted(rt: &impl Abort, alloc: Global, mesh: &Mesh, by: [i32; 3]) -> Mesh {
    shift(alloc, mesh, by).expect(rt, "it stays on the grid")
}

// A prism of size 4 and height 5.
fn prism(rt: &impl Abort, alloc: Global) -> Mesh {
    prism_of(rt, alloc, 4, 5)
}

// The prism twice as large.
fn large_prism(rt: &impl Abort, alloc: Global) -> Mesh {
    let prism = prism(rt, alloc);
    scale(alloc, &prism, 2).expect(rt, "it stays on the grid")
}

// A mesh mirrored along x and turned about z.
fn mirrored_and_turned(rt: &impl Abort, alloc: Global, mesh: &Mesh) -> Mesh {
    let mirrored = mirrored(rt, alloc, mesh, 0);
    turned(rt, alloc, &mirrored, 2)
}

// The large prism mirrored along x, turned about z and shifted.
fn moved_prism(rt: &impl Abort, alloc: Global) -> Mesh {
    let large = large_prism(rt, alloc);
    let turned = mirrored_and_turned(rt, alloc, &large);
    shifted(rt, alloc, &turned, [1, 2, 3])
}

// Where the moved prism's points lie.
const MOVED: [[i32; 3]; 6] = [
    [1, 2, 3],
    [1, -6, 3],
    [-7, 2, 3],
    [1, 2, 13],
    [1, -6, 13],
    [-7, 2, 13],
];

// Its triangles.
const TURNED: [[u32; 3]; 8] = [
    [0, 1, 2],
    [3, 5, 4],
    [0, 4, 1],
    [0, 3, 4],
    [1, 5, 2],
    [1, 4, 5],
    [2, 3, 0],
    [2, 5, 3],
];

#[test]
fn motions_keep_what_is_measured(rt: HostRuntime) {
    let mesh = moved_prism(&rt, rt.alloc());
    assert!(rt; measures(&rt, rt.alloc(), &mesh) == [6, 8, 1, 2, 1920]);
    for (moved, row) in mesh.points().iter().zip(&MOVED) {
        assert!(rt; moved.at() == *row);
    }
    assert!(rt; mesh.triples() == TURNED.as_slice());
}

// The last point but one of the prism after a quarter turn about an axis.
fn turned_point(rt: &impl Abort, alloc: Global, axis: u8) -> [i32; 3] {
    let prism = prism(rt, alloc);
    let turned = turned(rt, alloc, &prism, axis);
    place_of(rt, &turned, 4)
}

// That after mirroring.
fn mirrored_point(rt: &impl Abort, alloc: Global, axis: u8) -> [i32; 3] {
    let prism = prism(rt, alloc);
    let mirrored = mirrored(rt, alloc, &prism, axis);
    place_of(rt, &mirrored, 4)
}

// An axis, and where that point lies after the turn and after mirroring.
static AXES: [(u8, [i32; 3], [i32; 3]); 3] = [
    (0, [4, -5, 0], [-4, 0, 5]),
    (1, [5, 0, -4], [4, 0, 5]),
    (2, [0, 4, 5], [4, 0, -5]),
];

#[test]
fn each_axis_turns_and_mirrors_its_own_way(rt: HostRuntime) {
    for (axis, turned, mirrored) in &AXES {
        assert!(rt;
            turned_point(&rt, rt.alloc(), *axis) == *turned,
            "axis {axis}"
        );
        assert!(rt;
            mirrored_point(&rt, rt.alloc(), *axis) == *mirrored,
            "axis {axis}"
        );
    }
}

// The measures of a lattice of 20.
fn lattice_measures(rt: &impl Abort, alloc: Global) -> [i128; 5] {
    let mesh = make_lattice(alloc, 20, 7, &Limits::program()).expect(rt, "a lattice");
    measures(rt, alloc, &mesh)
}

#[test]
fn a_lattice_has_its_measures(rt: HostRuntime) {
    let wanted: [i128; 5] = [64_000, 96_000, 8_000, 16_000, 1_200_000_000];
    assert!(rt; lattice_measures(&rt, rt.alloc()) == wanted);
}

// The points of two boxes that share one.
const SHARING: [[i32; 3]; 15] = [
    [0, 0, 0],
    [10, 0, 0],
    [0, 10, 0],
    [10, 10, 0],
    [0, 0, 10],
    [10, 0, 10],
    [0, 10, 10],
    [10, 10, 10],
    [20, 10, 10],
    [10, 20, 10],
    [20, 20, 10],
    [10, 10, 20],
    [20, 10, 20],
    [10, 20, 20],
    [20, 20, 20],
];

#[test]
fn boxes_that_share_a_vertex_are_one_component(rt: HostRuntime) {
    let soup = soup_of(rt.alloc(), &SHARING, &two_boxes(7)).expect(&rt, "a soup");
    let mesh = accepted(&rt, rt.alloc(), soup);
    assert!(rt; measures(&rt, rt.alloc(), &mesh) == [15, 24, 1, 3, 12_000]);
}

// Why there is no such box.
fn box_fault(
    rt: &impl Abort,
    alloc: Global,
    low: [i32; 3],
    high: [i32; 3],
    limits: &Limits,
) -> Option<MakeFault> {
    make_box(alloc, point(rt, low), point(rt, high), limits).err()
}

// Why there is no such prism.
fn prism_fault(
    rt: &impl Abort,
    alloc: Global,
    at: [i32; 3],
    size: i32,
    height: i32,
) -> Option<MakeFault> {
    make_prism(alloc, point(rt, at), size, height, &Limits::program()).err()
}

// Why there is no such tetrahedron.
fn tetra_fault(rt: &impl Abort, alloc: Global, at: [i32; 3], size: i32) -> Option<MakeFault> {
    make_tetra(alloc, point(rt, at), size, &Limits::program()).err()
}

// Opposite corners of boxes that are flat.
static FLAT: [[i32; 3]; 4] = [[0, 1, 1], [1, 0, 1], [1, 1, 0], [1, -1, 1]];

#[test]
fn flat_solids_are_refused_first(rt: HostRuntime) {
    for high in &FLAT {
        let fault = box_fault(&rt, rt.alloc(), [0, 0, 0], *high, &Limits::program());
        assert!(rt; matches!(fault, Some(MakeFault::FlatSolid)));
    }
    let corner = [GRID_END, 0, 0];
    let fault = prism_fault(&rt, rt.alloc(), corner, 1, 0);
    assert!(rt; matches!(fault, Some(MakeFault::FlatSolid)));
    let fault = tetra_fault(&rt, rt.alloc(), corner, 1);
    assert!(rt; matches!(fault, Some(MakeFault::OutOfGrid)));
}

// Why the mesh can't be shifted so.
fn shift_fault(alloc: Global, mesh: &Mesh, by: [i32; 3]) -> Option<MakeFault> {
    shift(alloc, mesh, by).err()
}

#[test]
fn motions_stay_on_the_grid(rt: HostRuntime) {
    let mesh = box_of(&rt, rt.alloc(), [0, 0, 0], [1, 1, 1]);
    let far = shift_fault(rt.alloc(), &mesh, [GRID_END, 0, 0]);
    assert!(rt; matches!(far, Some(MakeFault::OutOfGrid)));
    let large = shifted(&rt, rt.alloc(), &mesh, [GRID_END - 1, 0, 0]);
    let larger = scale(rt.alloc(), &large, 2).err();
    assert!(rt; matches!(larger, Some(MakeFault::OutOfGrid)));
    assert!(rt; volume6(&large) == 6);
}

// Whether there would be so many of these, more than the limits allow.
fn is_over(fault: Option<MakeFault>, counted: Counted, count: u64) -> bool {
    match fault {
        Some(MakeFault::Over { what, seen }) => what == counted && seen == count,
        _ => false,
    }
}

#[test]
fn limits_are_asked_in_order(rt: HostRuntime) {
    let narrow = Limits::of(1 << 20, 7, 4, 0).expect(&rt, "few points");
    let over = box_fault(&rt, rt.alloc(), [0, 0, 0], [1, 1, 1], &narrow);
    assert!(rt; is_over(over, Counted::Points, 8));
    let low = Limits::of(1 << 20, 16, 10, 0).expect(&rt, "few triangles");
    let over = box_fault(&rt, rt.alloc(), [0, 0, 0], [1, 1, 1], &low);
    assert!(rt; is_over(over, Counted::Triangles, 12));
    let over = make_lattice(rt.alloc(), 60, 0, &low).err();
    assert!(rt; is_over(over, Counted::Points, 1_728_000));
}
