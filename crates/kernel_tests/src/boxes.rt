// Meshes of boxes.
use lean::Side;
use mesh_check::Mesh;
use std::alloc::Global;
use std::test::Fail;
use test_tables::{BOX, box_points, plain_side, soup_of};

// The lowest and the highest corner of a box.
pub(crate) type Span = [[i32; 3]; 2];

// The mesh of these triangles over these points.
pub(crate) fn mesh_of(
    alloc: Global,
    points: &[[i32; 3]],
    triples: &[[u32; 3]],
) -> Result<Mesh, Fail> {
    Ok(Mesh::check(alloc, soup_of(alloc, points, triples)?)?)
}

// The points of boxes, one box after the other.
fn points_of(alloc: Global, spans: &[Span]) -> Result<Vec<[i32; 3]>, Fail> {
    let mut points = Vec::new(alloc);
    for [low, high] in spans {
        for point in &box_points(*low, *high) {
            points.push(*point)?;
        }
    }
    Ok(points)
}

// Their triangles.
fn triples_of(alloc: Global, spans: &[Span]) -> Result<Vec<[u32; 3]>, Fail> {
    let mut triples = Vec::new(alloc);
    let mut first = 0u32;
    for _ in spans {
        for [a, b, c] in &BOX {
            triples.push([
                first.wrapping_add(*a),
                first.wrapping_add(*b),
                first.wrapping_add(*c),
            ])?;
        }
        first = first.wrapping_add(8);
    }
    Ok(triples)
}

// Boxes, one after the other.
pub(crate) fn boxes_of(alloc: Global, spans: &[Span]) -> Result<Mesh, Fail> {
    let points = points_of(alloc, spans)?;
    let triples = triples_of(alloc, spans)?;
    mesh_of(alloc, &points, &triples)
}

// Their side without marks.
pub(crate) fn plain_boxes(alloc: Global, spans: &[Span]) -> Result<Side, Fail> {
    let mesh = boxes_of(alloc, spans)?;
    Ok(plain_side(alloc, &mesh)?)
}
