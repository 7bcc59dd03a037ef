// How much a mesh encloses.
use mb_base::Point;
use mesh_check::Mesh;

// The coordinates of a point, so wide that sums of three products of any three stay exact.
fn wide(point: Point) -> [i128; 3] {
    let [x, y, z] = point.at();
    [x as i128, y as i128, z as i128]
}

// The difference of two products.
fn minor(a: i128, b: i128, c: i128, d: i128) -> i128 {
    a.wrapping_mul(d).wrapping_sub(b.wrapping_mul(c))
}

// Six times the volume of the tetrahedron over the origin.
fn part(a: Point, b: Point, c: Point) -> i128 {
    let ([x, y, z], [u, v, w], [r, s, t]) = (wide(a), wide(b), wide(c));
    let first = x.wrapping_mul(minor(v, w, s, t));
    let second = y.wrapping_mul(minor(w, u, t, r));
    let third = z.wrapping_mul(minor(u, v, r, s));
    first.wrapping_add(second).wrapping_add(third)
}

// That over a triangle, if it has points.
fn part_of(points: &[Point], triple: [u32; 3]) -> Option<i128> {
    let [a, b, c] = triple;
    let a = points.get(a as usize)?;
    let b = points.get(b as usize)?;
    let c = points.get(c as usize)?;
    Some(part(*a, *b, *c))
}

/// Six times the volume of a mesh.
pub fn volume6(mesh: &Mesh) -> Option<i128> {
    let mut volume: i128 = 0;
    for triple in mesh.triples() {
        volume = volume.wrapping_add(part_of(mesh.points(), *triple)?);
    }
    Some(volume)
}
