// Triangles near another that cut it.
ghost use Rattle.std.specs.Prelude.{◌≡◌, ◌<◌, ◌&&◌, length, count_by, nat_lt};
ghost use Rattle.box_tree.specs.Touching.{touching_numbers};
ghost use Rattle.inspection_terms.specs.Triangles.{corners_at};
ghost use Rattle.inspection_laws.specs.Boxes.{box_round, boxes_of};
ghost use Rattle.inspection_laws.specs.Signs.{are_cutting};
ghost use Rattle.self_cuts.specs.Faces.{corners, places};

use crate::beside::is_beside;
use crate::face::Face;
use crate::faces::{box_of, face_of, is_flat, triangle_at};
use crate::pair::cut;
use crate::seen::Seen;
use crate::triangle::Triangle;
use box_tree::{Tree, touch};
use mb_base::Box3;
use mesh_check::Mesh;

// Whether two triangles, neither of them flat, cut one another.
#[inline]
fn are_cutting(t: &Face, o: &Face) -> bool
    ensures { result ≡ are_cutting (corners t.now) (corners o.now) }
{
    !is_flat(t) && !is_flat(o) && cut(t, o)
}

// The same. If the second lies beside the first, they do not.
fn cuts_face(t: &Face, o: &Face) -> bool
    ensures { result ≡ are_cutting (corners t.now) (corners o.now) }
{
    if is_beside(&triangle_of(o), t) {
        return false;
    }
    are_cutting(t, o)
}

// A triangle without its normal.
#[inline]
fn triangle_of(t: &Face) -> Triangle
    ensures { places result ≡ corners t.now }
{
    Triangle {
        a: t.a,
        b: t.b,
        c: t.c,
    }
}

// The same of a triangle without its normal. If it lies beside the second, they do not.
#[inline]
fn cuts_across(t: &Triangle, o: &Face) -> bool
    ensures { result ≡ are_cutting (places t.now) (corners o.now) }
{
    if is_beside(t, o) {
        return false;
    }
    cuts_face(&face_of(t), o)
}

// The same where the box of the second is given. If their boxes do not touch, they do not.
#[inline]
fn is_cutting(t: &Triangle, o: &Face, own: &Box3) -> bool
    requires { own.now ≡ box_round (corners o.now) }
    ensures { result ≡ are_cutting (places t.now) (corners o.now) }
{
    touch(&box_of(t), own) && cuts_across(t, o)
}

// Whether the triangle of a number comes before the number t, and they do.
#[inline]
fn counts(mesh: &Mesh, s: u32, t: u32, o: &Face, own: &Box3) -> bool
    requires within { t < length mesh.now.triples }
    requires own { own.now ≡ box_round (corners o.now) }
    ensures { result ≡ (nat_lt s t && are_cutting (corners_at mesh.now s) (corners o.now)) }
{
    s < t && is_cutting(&triangle_at(mesh, s), o, own)
}

/// How many of the triangles whose boxes touch that of a triangle come before the number t and cut it.
pub fn cut_among(mesh: &Mesh, tree: &Tree, t: u32, o: &Face, own: &Box3) -> u32
    requires within { t < length mesh.now.triples }
    requires tree { tree.now ≡ boxes_of mesh.now }
    requires own { own.now ≡ box_round (corners o.now) }
    ensures { result ≡ count_by (λ s. nat_lt s t && are_cutting (corners_at mesh.now s) (corners o.now)) (touching_numbers (boxes_of mesh.now) own.now) }
{
    // Read so that what the type of the mesh keeps is known here.
    let _ = mesh.triples();
    let mut count = 0;
    for s in tree.touching(*own) {
        if counts(mesh, s, t, o, own) {
            count += 1;
        }
    }
    count
}

// Whether a triangle at hand comes before the number t, and they do.
#[inline]
fn is_counted(s: &Seen, t: u32, o: &Face, own: &Box3) -> bool
    requires { own.now ≡ box_round (corners o.now) }
    ensures { result ≡ (nat_lt s.now.number t && are_cutting (places s.now.triangle) (corners o.now)) }
{
    s.number < t && is_near(s, o, own)
}

// Whether they do.
#[inline]
fn is_near(s: &Seen, o: &Face, own: &Box3) -> bool
    requires { own.now ≡ box_round (corners o.now) }
    ensures { result ≡ are_cutting (places s.now.triangle) (corners o.now) }
{
    touch(&s.own, own) && cuts_across(&s.triangle, o)
}

/// How many of some triangles at hand come before the number t and cut a triangle.
pub fn cut_before(seen: &[Seen], t: u32, o: &Face, own: &Box3) -> u64
    requires { own.now ≡ box_round (corners o.now) }
    ensures { result ≡ count_by (λ s. nat_lt s.number t && are_cutting (places s.triangle) (corners o.now)) seen.now }
{
    let mut count = 0;
    for s in seen {
        if is_counted(s, t, o, own) {
            count += 1;
        }
    }
    count
}
