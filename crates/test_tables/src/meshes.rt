// Meshes of words, and their sides.
ghost use Rattle.std.specs.Prelude.{◌≡◌, IfOk};

use crate::NoRow;
use crate::digits::numbers_of;
use lean::{Side, leans};
use mb_base::{Op, Point, Soup};
use mesh_check::Mesh;
use std::alloc::Global;
use std::str::SplitWhitespace;

/// The box from (0,0,0) to (10,10,10), and the post from (3,4,5) to (6,7,20), whose lower corners lie in it.
pub const POST_IN_BOX: &str =
    "000a000a0aa000aa0a0aaaaa 031023457476014154137175326367046062 34564537567534k64k37k67k 031023457476014154137175326367046062";

// The operation of a word.
fn read_op(word: &str) -> Result<Op, NoRow> {
    if word == "union" {
        return Ok(Op::Union);
    }
    if word == "intersect" {
        return Ok(Op::Intersect);
    }
    if word == "subtract" {
        return Ok(Op::Subtract);
    }
    Err(NoRow::NoPart)
}

// The points of a word, three numbers each.
fn read_points(alloc: Global, word: &str) -> Result<Vec<Point>, NoRow> {
    let numbers = numbers_of(alloc, word)?;
    let (places, rest) = numbers.as_chunks::<3>();
    if !rest.is_empty() {
        return Err(NoRow::NoPart);
    }
    let mut points = Vec::new(alloc);
    for [x, y, z] in places {
        points.push(point_of(*x, *y, *z)?)?;
    }
    Ok(points)
}

pub fn point_of(x: i8, y: i8, z: i8) -> Result<Point, NoRow> {
    let point = Point::of(i32::from(x), i32::from(y), i32::from(z));
    point.ok_or(NoRow::OutsideGrid)
}

// The triangles of a word, three numbers each.
fn read_triples(alloc: Global, word: &str) -> Result<Vec<[u32; 3]>, NoRow> {
    let numbers = numbers_of(alloc, word)?;
    let (corners, rest) = numbers.as_chunks::<3>();
    if !rest.is_empty() {
        return Err(NoRow::NoPart);
    }
    let mut triples = Vec::new(alloc);
    for [a, b, c] in corners {
        triples.push([vertex_of(*a)?, vertex_of(*b)?, vertex_of(*c)?])?;
    }
    Ok(triples)
}

// The vertex of a number, which is not below 0.
fn vertex_of(number: i8) -> Result<u32, NoRow> {
    if number < 0 {
        return Err(NoRow::NoPart);
    }
    Ok(u32::from(number.unsigned_abs()))
}

// The mesh of the next two words: its points, and its triangles.
fn read_mesh(alloc: Global, words: &mut SplitWhitespace) -> Result<Mesh, NoRow> {
    let points = read_points(alloc, words.next().ok_or(NoRow::NoPart)?)?;
    let triples = read_triples(alloc, words.next().ok_or(NoRow::NoPart)?)?;
    if !Soup::fits(&points, &triples) {
        return Err(NoRow::NoMesh);
    }
    Ok(Mesh::check(alloc, Soup::of(points, triples, 0))?)
}

/// The meshes of a line's first four words: of each its points in grid steps and its triangles, three numbers each.
pub fn read_meshes(alloc: Global, line: &str) -> Result<(Mesh, Mesh), NoRow> {
    let mut words = line.split_whitespace();
    let p = read_mesh(alloc, &mut words)?;
    let q = read_mesh(alloc, &mut words)?;
    Ok((p, q))
}

/// The operation and the two meshes of a line's first five words.
pub fn read_pair(alloc: Global, line: &str) -> Result<(Op, Mesh, Mesh), NoRow> {
    let (op, rest) = line.split_once(' ').ok_or(NoRow::NoPart)?;
    let op = read_op(op)?;
    let (p, q) = read_meshes(alloc, rest)?;
    Ok((op, p, q))
}

/// The side of a mesh with the marks that an operation gives its first mesh.
pub fn marked_side(alloc: Global, mesh: &Mesh, op: Op) -> Result<Side, NoRow>
    ensures { IfOk result (λ side. side.triples ≡ mesh.now.triples) }
{
    let ups = leans(alloc, mesh, op)?;
    Ok(Side::of(alloc, mesh, ups)?)
}

/// The side of a mesh without marks.
pub fn plain_side(alloc: Global, mesh: &Mesh) -> Result<Side, NoRow>
    ensures { IfOk result (λ side. side.triples ≡ mesh.now.triples) }
{
    let ups = vec![in alloc; [false; 3]; mesh.points().len()]?;
    Ok(Side::of(alloc, mesh, ups)?)
}
