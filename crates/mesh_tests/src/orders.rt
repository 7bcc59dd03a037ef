// Forests of small meshes, worked out by hand.
use crate::lines::line_mesh;
use mesh_check::Mesh;
use spanning_forest::{Entrance, forest};
use std::alloc::Global;
use std::process::Abort;
use test_tables::{TETRAHEDRON, two_boxes};

// The roots of a mesh's forest.
fn roots_of(rt: &impl Abort, alloc: Global, mesh: &Mesh) -> Vec<u32> {
    let entrances = forest(alloc, mesh.triples(), mesh.points().len()).expect(rt, "a forest");
    let mut roots = Vec::new(alloc);
    for entrance in &entrances {
        if let Entrance::Root(vertex) = *entrance {
            roots.push(vertex).expect(rt, "room for a root");
        }
    }
    roots
}

// Half-edges 0 and 1 of the first triangle lead from the first vertex to two others, and half-edge 4 of the second to the last.
#[test]
fn a_tetrahedron_is_entered_from_its_first_vertex(rt: HostRuntime) {
    let mesh = line_mesh(&rt, rt.alloc(), 4, &TETRAHEDRON);
    let entrances = forest(rt.alloc(), mesh.triples(), mesh.points().len());
    let entrances = entrances.expect(&rt, "a forest");
    let wanted = [
        Entrance::Root(0),
        Entrance::Along(0),
        Entrance::Along(1),
        Entrance::Along(4),
    ];
    assert!(rt; entrances.as_slice() == wanted.as_slice());
}

#[test]
fn each_box_has_a_root(rt: HostRuntime) {
    let mesh = line_mesh(&rt, rt.alloc(), 16, &two_boxes(8));
    let roots = roots_of(&rt, rt.alloc(), &mesh);
    assert!(rt; roots.as_slice() == [0, 8].as_slice());
}

// The last vertex of the first box is the first of the second.
#[test]
fn boxes_that_share_a_vertex_have_one_root(rt: HostRuntime) {
    let mesh = line_mesh(&rt, rt.alloc(), 15, &two_boxes(7));
    let roots = roots_of(&rt, rt.alloc(), &mesh);
    assert!(rt; roots.as_slice() == [0].as_slice());
}
