// Small meshes, with twins and fans known from outside.
use crate::lines::DOUBLED;
use halfedge::{Fans, TwinFault, Twins};
use std::alloc::Global;
use std::process::Abort;
use test_tables::{TETRAHEDRON, line_soup, two_boxes};

// The twins of triangles over so many points on a line.
fn line_twins(rt: &impl Abort, alloc: Global, count: u8, triples: &[[u32; 3]]) -> Twins {
    let soup = line_soup(alloc, count, triples).expect(rt, "a soup");
    Twins::of(alloc, soup.triples()).expect(rt, "closed triangles")
}

// The twin of a half-edge, and the half-edge after it.
fn beside(rt: &impl Abort, twins: &Twins, half_edge: u32) -> [u32; 2] {
    assert!(rt; (half_edge as usize) < 3 * twins.triples().len());
    [twins.twin(half_edge), twins.next(half_edge)]
}

// The twin of each half-edge of a tetrahedron.
const ACROSS: [u32; 12] = [9, 6, 3, 2, 8, 10, 1, 11, 4, 0, 5, 7];

fn are_of_tetrahedron(twins: &Twins) -> bool {
    twins.triples() == TETRAHEDRON.as_slice() && twins.twins() == ACROSS.as_slice()
}

#[test]
fn the_tetrahedron_has_its_twins(rt: HostRuntime) {
    let twins = line_twins(&rt, rt.alloc(), 4, &TETRAHEDRON);
    assert!(rt; are_of_tetrahedron(&twins));
    assert!(rt; beside(&rt, &twins, 0) == [9, 1]);
    assert!(rt; beside(&rt, &twins, 2) == [3, 0]);
}

#[test]
fn a_copy_has_the_same_lists(rt: HostRuntime) {
    let twins = line_twins(&rt, rt.alloc(), 4, &TETRAHEDRON);
    let copy = twins.clone().expect(&rt, "a copy");
    assert!(rt; are_of_tetrahedron(&copy));
}

// The fans at the vertices of a mesh over so many points on a line.
fn line_fans(rt: &impl Abort, alloc: Global, count: u8, triples: &[[u32; 3]]) -> Fans {
    let twins = line_twins(rt, alloc, count, triples);
    twins.fans(alloc).expect(rt, "memory")
}

#[test]
fn the_tetrahedron_has_one_fan_at_each_vertex(rt: HostRuntime) {
    let fans = line_fans(&rt, rt.alloc(), 4, &TETRAHEDRON);
    assert!(rt; fans.first.as_slice() == [0, 2, 1, 5].as_slice());
    assert!(rt; fans.of.as_slice() == [0, 2, 1, 0, 1, 3, 1, 2, 3, 2, 0, 3].as_slice());
}

// A tetrahedron whose vertices all lie in one of the five buckets.
const FAR: [[u32; 3]; 4] = [
    [0, 4_000_000_000, 5],
    [0, 5, u32::MAX],
    [5, 4_000_000_000, u32::MAX],
    [4_000_000_000, 0, u32::MAX],
];

#[test]
fn vertex_numbers_may_be_far_above_the_number_of_triangles(rt: HostRuntime) {
    let twins = Twins::of(rt.alloc(), &FAR).expect(&rt, "closed triangles");
    assert!(rt; twins.twins() == ACROSS.as_slice());
}

#[test]
fn an_edge_that_is_used_four_times_is_paired_in_order(rt: HostRuntime) {
    let twins = line_twins(&rt, rt.alloc(), 4, &DOUBLED);
    assert!(rt; beside(&rt, &twins, 0) == [9, 1]);
    assert!(rt; beside(&rt, &twins, 12) == [21, 13]);
    let fans = line_fans(&rt, rt.alloc(), 4, &DOUBLED);
    assert!(rt; fans.first.len() == 8);
}

#[test]
fn a_shared_vertex_has_two_fans(rt: HostRuntime) {
    let fans = line_fans(&rt, rt.alloc(), 15, &two_boxes(7));
    assert!(rt; fans.first.len() == 16);
    // The first box's half-edges at vertex 7 begin with 8, the second's with 36.
    assert!(rt; fans.first[7] == 8);
    assert!(rt; fans.first[8] == 36);
}

// Whether each of so many vertices has one fan.
fn is_clean(rt: &impl Abort, alloc: Global, count: u8, triples: &[[u32; 3]]) -> bool {
    let soup = line_soup(alloc, count, triples).expect(rt, "a soup");
    let twins = Twins::of(alloc, soup.triples()).expect(rt, "closed triangles");
    twins
        .are_clean(alloc, soup.points().len())
        .expect(rt, "memory")
}

#[test]
fn a_shared_vertex_is_found(rt: HostRuntime) {
    assert!(rt; is_clean(&rt, rt.alloc(), 4, &TETRAHEDRON));
    assert!(rt; !is_clean(&rt, rt.alloc(), 15, &two_boxes(7)));
}

// Whether this open edge is named of these triangles over so many points on a line.
fn is_open_at(
    rt: &impl Abort,
    alloc: Global,
    count: u8,
    triples: &[[u32; 3]],
    wanted: [u32; 2],
) -> bool {
    let soup = line_soup(alloc, count, triples).expect(rt, "a soup");
    match Twins::of(alloc, soup.triples()) {
        Err(TwinFault::Open { from, to }) => [from, to] == wanted,
        _ => false,
    }
}

// Open triangles over so many points, and the open edge that is named.
static OPEN: [(&str, u8, &[[u32; 3]], [u32; 2]); 2] = [
    (
        "no last face",
        4,
        &[[0, 2, 1], [0, 1, 3], [1, 2, 3]],
        [0, 2],
    ),
    (
        "three triangles at an edge",
        5,
        &[[0, 1, 2], [1, 0, 3], [0, 1, 4]],
        [0, 1],
    ),
];

#[test]
fn the_least_open_edge_is_named(rt: HostRuntime) {
    for (name, count, triples, wanted) in &OPEN {
        assert!(rt;
            is_open_at(&rt, rt.alloc(), *count, triples, *wanted),
            "{name}"
        );
    }
}
