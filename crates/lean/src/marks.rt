// The marks of a mesh's vertices.
ghost use Rattle.std.specs.Prelude.{◌≡◌, ◌<◌, ◌^◌, [], IfOk, length, get_or, map};
ghost use Rattle.mesh_terms.specs.Meshes.{IsBelow, triple_of};
ghost use Rattle.lean.specs.Leans.{face_normal, is_up, leans_of, normals_of};
ghost use Rattle.lean.specs.Vectors.{AllSmall, AreSmall, added, added_at, added_at_corners};

use crate::short::{short_marks, short_normals_of};
use mb_base::{NoMemory, Op, Point, cross};
use mesh_check::Mesh;
use std::alloc::Global;

/// The marks of each vertex, one for each axis, for the first mesh of an operation. The cross products of the triangles
/// at a vertex, which point out of a solid, are added up. For a union the vertex is up on the axes on which the sum is
/// above 0, as if the mesh grew a little; for an intersection or a difference on those on which it is below 0, as if it
/// shrank. It goes over the triangles once, and takes memory for a sum for each point. `NoMemory` may come for any mesh.
pub fn leans(alloc: Global, mesh: &Mesh, op: Op) -> Result<Vec<[bool; 3]>, NoMemory>
    ensures value { IfOk result (λ ups. ups.items ≡ leans_of op mesh.now) }
    ensures length { IfOk result (λ ups. length ups.items ≡ length mesh.now.points) }
{
    if let Some(normals) = short_normals_of(alloc, mesh)? {
        return short_marks(alloc, &normals, op);
    }
    let normals = normals_of(alloc, mesh)?;
    let mut ups = Vec::with_capacity(alloc, normals.len())?;
    for normal in &normals {
        ups.push(marks_of(normal, op))?;
    }
    Ok(ups)
}

// The marks of a vertex with this sum.
fn marks_of(normal: &[i128; 3], op: Op) -> [bool; 3]
    ensures { result ≡ map (is_up op) normal.now }
{
    let [x, y, z] = *normal;
    [is_up(x, op), is_up(y, op), is_up(z, op)]
}

// The mark on an axis on which the sum is this.
fn is_up(sum: i128, op: Op) -> bool
    ensures { result ≡ is_up op sum }
{
    match op {
        Op::Union => sum > 0,
        Op::Intersect | Op::Subtract => sum < 0,
    }
}

// The sum of the cross products at each vertex.
fn normals_of(alloc: Global, mesh: &Mesh) -> Result<Vec<[i128; 3]>, NoMemory>
    ensures { IfOk result (λ normals. normals.items ≡ normals_of mesh.now.points mesh.now.triples) }
{
    let mut normals = vec![in alloc; [0; 3]; mesh.points().len()]?;
    add_normals(&mut normals, mesh);
    Ok(normals)
}

// Adds to sums that are 0 the cross products of the triangles at each vertex.
fn add_normals(normals: &mut [[i128; 3]], mesh: &Mesh)
    requires { normals.old ≡ normals_of mesh.now.points [] }
    ensures { normals.new ≡ normals_of mesh.now.points mesh.now.triples }
{
    let points = mesh.points();
    for triple in mesh.triples() {
        let normal = face_normal(points, triple);
        add_at_corners(normals, triple, &normal);
    }
}

/// The cross product of a triangle's sides.
pub fn face_normal(points: &[Point], triple: &[u32; 3]) -> [i128; 3]
    requires { IsBelow (length points.now) (triple_of triple.now) }
    ensures value { result ≡ face_normal points.now (triple_of triple.now) }
    ensures small { AreSmall (2 ^ 63) result }
{
    let [a, b, c] = *triple;
    cross(points[a as usize], points[b as usize], points[c as usize])
}

// Adds a cross product to the sums at the vertices of its triangle.
fn add_at_corners(normals: &mut [[i128; 3]], triple: &[u32; 3], normal: &[i128; 3])
    requires below { IsBelow (length normals.old) (triple_of triple.now) }
    requires sums_small { AllSmall (2 ^ 119) normals.old }
    requires small { AreSmall (2 ^ 63) normal.now }
    ensures { normals.new ≡ added_at_corners normals.old (triple_of triple.now) normal.now }
{
    let [a, b, c] = *triple;
    add_at(normals, a, normal);
    add_at(normals, b, normal);
    add_at(normals, c, normal);
}

// Adds a cross product to the sum at a vertex.
fn add_at(normals: &mut [[i128; 3]], vertex: u32, normal: &[i128; 3])
    requires below { vertex < length normals.old }
    requires sum_small { AreSmall (2 ^ 120) (get_or normals.old vertex []) }
    requires small { AreSmall (2 ^ 63) normal.now }
    ensures { normals.new ≡ added_at normals.old vertex normal.now }
{
    let sum = normals[vertex as usize];
    normals[vertex as usize] = added(&sum, normal);
}

// The sum of two vectors.
fn added(a: &[i128; 3], b: &[i128; 3]) -> [i128; 3]
    requires a_small { AreSmall (2 ^ 120) a.now }
    requires b_small { AreSmall (2 ^ 63) b.now }
    ensures { result ≡ added a.now b.now }
{
    let [a_x, a_y, a_z] = *a;
    let [b_x, b_y, b_z] = *b;
    [a_x + b_x, a_y + b_y, a_z + b_z]
}
