// Six times the volume that a mesh encloses.
ghost use Rattle.std.specs.Prelude.{◌≡◌, ◌≤◌, ◌*◌, ◌^◌, ◌+ℤ◌, ◌-ℤ◌, ◌*ℤ◌, unsigned_abs, length};
ghost use Rattle.std.specs.List.{All};
ghost use Rattle.mesh_terms.specs.Limits.{most_triangles};
ghost use Rattle.mesh_terms.specs.Meshes.{IsBelow, triple_of, triples_of};
ghost use Rattle.mesh_terms.specs.Points.{IsOnGrid};
ghost use Rattle.mesh_terms.specs.Volume.{determinant, triangle_determinant, volume6_of};

use mb_base::Point;
use mesh_check::Mesh;

/// Six times the volume that the mesh encloses, in cubic grid steps: the sum over its triangles of the determinant whose
/// rows are their points. It is positive where the triangles run counter-clockwise, seen from outside. No memory is taken.
pub fn volume6(mesh: &Mesh) -> i128
    ensures { result ≡ volume6_of mesh.now.points mesh.now.triples }
{
    volume_of(mesh.points(), mesh.triples())
}

// The same of points and triangles.
fn volume_of(points: &[Point], triples: &[[u32; 3]]) -> i128
    requires below { All (IsBelow (length points.now)) (triples_of triples.now) }
    requires few { length triples.now ≤ most_triangles }
    ensures { result ≡ volume6_of points.now (triples_of triples.now) }
{
    let mut volume = 0;
    for triple in triples {
        volume += triangle_volume(points, triple);
    }
    volume
}

// The determinant whose rows are the points of a triangle.
fn triangle_volume(points: &[Point], triple: &[u32; 3]) -> i128
    requires below { IsBelow (length points.now) (triple_of triple.now) }
    ensures value { result ≡ triangle_determinant points.now (triple_of triple.now) }
    ensures small { unsigned_abs result ≤ 6 * 2 ^ 90 }
{
    let [a, b, c] = *triple;
    determinant(points[a as usize], points[b as usize], points[c as usize])
}

// The determinant with these points as its rows.
fn determinant(a: Point, b: Point, c: Point) -> i128
    ensures value { result ≡ determinant a b c }
    ensures small { unsigned_abs result ≤ 6 * 2 ^ 90 }
{
    let [x, y, z] = a.at();
    let [u, v, w] = b.at();
    let [r, s, t] = c.at();
    let first = times(x, minor(v, t, w, s));
    let second = times(y, minor(w, r, u, t));
    let third = times(z, minor(u, s, v, r));
    sum(first, second, third)
}

// The sum of three numbers.
fn sum(a: i128, b: i128, c: i128) -> i128
    requires a_small { unsigned_abs a ≤ 2 ^ 91 }
    requires b_small { unsigned_abs b ≤ 2 ^ 91 }
    requires c_small { unsigned_abs c ≤ 2 ^ 91 }
    ensures value { result ≡ (a +ℤ b) +ℤ c }
    ensures small { unsigned_abs result ≤ 6 * 2 ^ 90 }
{
    a + b + c
}

// The product of a coordinate and the determinant of two others.
fn times(x: i32, area: i128) -> i128
    requires on_grid { IsOnGrid x }
    requires small { unsigned_abs area ≤ 2 ^ 61 }
    ensures value { result ≡ x *ℤ area }
    ensures small { unsigned_abs result ≤ 2 ^ 91 }
{
    i128::from(x) * area
}

// The determinant of the rows (u, w) and (x, v).
fn minor(u: i32, v: i32, w: i32, x: i32) -> i128
    requires u_on_grid { IsOnGrid u }
    requires v_on_grid { IsOnGrid v }
    requires w_on_grid { IsOnGrid w }
    requires x_on_grid { IsOnGrid x }
    ensures value { result ≡ u *ℤ v -ℤ w *ℤ x }
    ensures small { unsigned_abs result ≤ 2 ^ 61 }
{
    product(u, v) - product(w, x)
}

// The product of two coordinates.
fn product(x: i32, y: i32) -> i128
    requires x_on_grid { IsOnGrid x }
    requires y_on_grid { IsOnGrid y }
    ensures value { result ≡ x *ℤ y }
    ensures small { unsigned_abs result ≤ 2 ^ 60 }
{
    i128::from(x) * i128::from(y)
}
