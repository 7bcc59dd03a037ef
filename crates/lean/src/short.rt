// The marks of a mesh's vertices by sums of 64 bits, where these hold them.
//
// The marks of `leans` are the signs of sums of cross products. These are added up in 64 bits where these hold each
// product and each sum, and else anew in 128 bits.
ghost use Rattle.std.specs.Prelude.{◌≡◌, ◌<◌, [], IfOk, IfSome, length, map};
ghost use Rattle.mesh_terms.specs.Meshes.{IsBelow, triple_of};
ghost use Rattle.lean.specs.Leans.{is_up, normals_of};
ghost use Rattle.lean.specs.Vectors.{added, added_at, added_at_corners};

use crate::marks::face_normal;
use mb_base::{NoMemory, Op};
use mesh_check::Mesh;
use std::alloc::Global;

// What numbers are below in size that 64 bits are taken to hold.
const SHORT: u128 = 1 << 63;

/// The sum of the cross products at each vertex; none where some product or sum is too great.
pub fn short_normals_of(alloc: Global, mesh: &Mesh) -> Result<Option<Vec<[i64; 3]>>, NoMemory>
    ensures { IfOk result (λ found. IfSome found (λ normals. normals.items ≡ normals_of mesh.now.points mesh.now.triples)) }
{
    let mut normals = vec![in alloc; [0; 3]; mesh.points().len()]?;
    match add_normals(&mut normals, mesh) {
        Some(()) => Ok(Some(normals)),
        None => Ok(None),
    }
}

// Adds to sums that are 0 the cross products of the triangles at each vertex.
fn add_normals(normals: &mut [[i64; 3]], mesh: &Mesh) -> Option<()>
    requires { normals.old ≡ normals_of mesh.now.points [] }
    ensures { IfSome result (λ _. normals.new ≡ normals_of mesh.now.points mesh.now.triples) }
{
    let points = mesh.points();
    for triple in mesh.triples() {
        let normal = short_vector(&face_normal(points, triple))?;
        add_at_corners(normals, triple, &normal)?;
    }
    Some(())
}

// A vector in 64 bits, where these hold it.
fn short_vector(vector: &[i128; 3]) -> Option<[i64; 3]>
    ensures { IfSome result (λ short. short ≡ vector.now) }
{
    let [x, y, z] = *vector;
    Some([short_number(x)?, short_number(y)?, short_number(z)?])
}

// A number in 64 bits, where these hold it.
#[inline]
fn short_number(number: i128) -> Option<i64>
    ensures { IfSome result (λ short. short ≡ number) }
{
    if number.unsigned_abs() < SHORT {
        Some(number as i64)
    } else {
        None
    }
}

// Adds a cross product to the sums at the vertices of its triangle.
fn add_at_corners(normals: &mut [[i64; 3]], triple: &[u32; 3], normal: &[i64; 3]) -> Option<()>
    requires { IsBelow (length normals.old) (triple_of triple.now) }
    ensures { IfSome result (λ _. normals.new ≡ added_at_corners normals.old (triple_of triple.now) normal.now) }
{
    let [a, b, c] = *triple;
    add_at(normals, a, normal)?;
    add_at(normals, b, normal)?;
    add_at(normals, c, normal)
}

// Adds a cross product to the sum at a vertex.
fn add_at(normals: &mut [[i64; 3]], vertex: u32, normal: &[i64; 3]) -> Option<()>
    requires { vertex < length normals.old }
    ensures { IfSome result (λ _. normals.new ≡ added_at normals.old vertex normal.now) }
{
    let sum = normals[vertex as usize];
    normals[vertex as usize] = added(&sum, normal)?;
    Some(())
}

// The sum of two vectors, where 64 bits hold it.
fn added(a: &[i64; 3], b: &[i64; 3]) -> Option<[i64; 3]>
    ensures { IfSome result (λ sum. sum ≡ added a.now b.now) }
{
    let [a_x, a_y, a_z] = *a;
    let [b_x, b_y, b_z] = *b;
    Some([
        a_x.checked_add(b_x)?,
        a_y.checked_add(b_y)?,
        a_z.checked_add(b_z)?,
    ])
}

/// The marks of vertices with these sums.
pub fn short_marks(alloc: Global, normals: &[[i64; 3]], op: Op) -> Result<Vec<[bool; 3]>, NoMemory>
    ensures value { IfOk result (λ ups. ups.items ≡ map (map (is_up op)) normals.now) }
    ensures length { IfOk result (λ ups. length ups.items ≡ length normals.now) }
{
    let mut ups = Vec::with_capacity(alloc, normals.len())?;
    for normal in normals {
        ups.push(marks_of(normal, op))?;
    }
    Ok(ups)
}

// The marks of a vertex with this sum.
fn marks_of(normal: &[i64; 3], op: Op) -> [bool; 3]
    ensures { result ≡ map (is_up op) normal.now }
{
    let [x, y, z] = *normal;
    [is_up(x, op), is_up(y, op), is_up(z, op)]
}

// The mark on an axis on which the sum is this.
fn is_up(sum: i64, op: Op) -> bool
    ensures { result ≡ is_up op sum }
{
    match op {
        Op::Union => sum > 0,
        Op::Intersect | Op::Subtract => sum < 0,
    }
}
