// The triangles of a mesh as places, and the tree over their boxes.
ghost use Rattle.std.specs.Prelude.{◌≡◌, ◌<◌, ◌≤◌, IfOk, IsTrue, length};
ghost use Rattle.std.specs.Int.{int_max, int_min};
ghost use Rattle.inspection_terms.specs.Triangles.{corners_at, is_flat, place_at, place_of};
ghost use Rattle.inspection_laws.specs.Boxes.{box_round, boxes_of};
ghost use Rattle.self_cuts.specs.Faces.{corners, places};
ghost use Rattle.self_cuts.specs.Places.{place};

use crate::face::Face;
use crate::normal::Normal;
use crate::place::Place;
use crate::triangle::Triangle;
use crate::volumes::normal_of;
use box_tree::{Bounds, Boxes, Tree};
use mb_base::{Box3, NoMemory, Point};
use mesh_check::Mesh;
use std::alloc::Global;

/// The place of a point.
#[inline]
pub fn place_of(point: &Point) -> Place
    ensures { place result ≡ place_of point.now }
{
    let [x, y, z] = point.at();
    Place {
        x: x as i64,
        y: y as i64,
        z: z as i64,
    }
}

/// A triangle with its normal.
#[inline]
pub fn face_of(t: &Triangle) -> Face
    ensures { corners result ≡ places t.now }
{
    Face {
        a: t.a,
        b: t.b,
        c: t.c,
        normal: normal_of(&t.a, &t.b, &t.c),
    }
}

// The place of a point of a mesh.
#[inline]
fn place_at(mesh: &Mesh, v: u32) -> Place
    requires { v < length mesh.now.points }
    ensures { place result ≡ place_at mesh.now.points v }
{
    let points = mesh.points();
    place_of(&points[v as usize])
}

/// A triangle of a mesh.
#[inline]
pub fn triangle_at(mesh: &Mesh, t: u32) -> Triangle
    requires { t < length mesh.now.triples }
    ensures { places result ≡ corners_at mesh.now t }
{
    let [a, b, c] = mesh.triples()[t as usize];
    Triangle {
        a: place_at(mesh, a),
        b: place_at(mesh, b),
        c: place_at(mesh, c),
    }
}

/// The same with its normal.
#[inline]
pub fn face_at(mesh: &Mesh, t: u32) -> Face
    requires { t < length mesh.now.triples }
    ensures { corners result ≡ corners_at mesh.now t }
{
    face_of(&triangle_at(mesh, t))
}

/// Whether a triangle is flat.
#[inline]
pub fn is_flat(face: &Face) -> bool
    ensures { result ≡ is_flat (corners face.now) }
{
    let n: &Normal = &face.normal;
    n.x == 0 && n.y == 0 && n.z == 0
}

// The least of three coordinates.
#[inline]
fn least_of(a: i64, b: i64, c: i64) -> i64
    ensures { result ≡ int_min (int_min a b) c }
{
    a.min(b).min(c)
}

// The greatest of them.
#[inline]
fn greatest_of(a: i64, b: i64, c: i64) -> i64
    ensures { result ≡ int_max (int_max a b) c }
{
    a.max(b).max(c)
}

/// The box of a triangle in grid steps.
#[inline]
pub fn box_of(t: &Triangle) -> Box3
    ensures { result ≡ box_round (places t.now) }
{
    let (a, b, c) = (&t.a, &t.b, &t.c);
    Box3 {
        low: [
            least_of(a.x, b.x, c.x),
            least_of(a.y, b.y, c.y),
            least_of(a.z, b.z, c.z),
        ],
        high: [
            greatest_of(a.x, b.x, c.x),
            greatest_of(a.y, b.y, c.y),
            greatest_of(a.z, b.z, c.z),
        ],
    }
}

// The boxes of the triangles, in order.
#[derive(Drop)]
struct FaceBoxes<'a> {
    mesh: &'a Mesh,
}

impl Boxes for FaceBoxes<'_> {
    ghost boxes = { λ s. boxes_of s.mesh.now };

    #[inline]
    fn count(&self) -> usize {
        self.mesh.triples().len()
    }

    #[inline]
    fn box_at(&self, number: usize) -> Box3 {
        // Read so that what the type of the mesh keeps is known here.
        let _ = self.mesh.triples();
        box_of(&triangle_at(self.mesh, number as u32))
    }

    #[inline]
    fn whole_steps(&self) -> Option<u32> {
        None
    }

    #[inline]
    fn bounds_at(&self, number: usize, shift: u32) -> Bounds {
        Bounds::around(&self.box_at(number), shift)
    }
}

/// The tree over the boxes of the triangles of a mesh.
pub fn tree_over(alloc: Global, mesh: &Mesh) -> Result<Tree, NoMemory>
    ensures { IfOk result (λ tree. tree ≡ boxes_of mesh.now) }
{
    // Read so that what the type of the mesh keeps is known here.
    let _ = mesh.triples();
    Tree::over(alloc, &FaceBoxes { mesh })
}
