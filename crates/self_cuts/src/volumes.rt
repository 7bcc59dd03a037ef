// Normals, volumes and areas of places.
ghost use Rattle.std.specs.Prelude.{◌≡◌, ◌≤◌, ◌^◌, ◌-ℤ◌, ◌*ℤ◌, unsigned_abs};
ghost use Rattle.mesh_terms.specs.Points.{IsOnGrid};
ghost use Rattle.plane_laws.specs.Decisions.{face_normal, scalar, way};
ghost use Rattle.solid_terms.specs.Solids.{volume};
ghost use Rattle.inspection_laws.specs.Signs.{turn};
ghost use Rattle.self_cuts.specs.Faces.{corners};
ghost use Rattle.self_cuts.specs.Places.{normal, place};

use crate::face::Face;
use crate::normal::Normal;
use crate::numbers::{less, part, product, sum, way};
use crate::place::Place;

/// The doubled area of three places of a plane, given by two coordinates each: at most that of the square in which they lie.
#[inline]
fn area(si: i64, sj: i64, ti: i64, tj: i64, vi: i64, vj: i64) -> i64
    requires si { IsOnGrid si }
    requires sj { IsOnGrid sj }
    requires ti { IsOnGrid ti }
    requires tj { IsOnGrid tj }
    requires vi { IsOnGrid vi }
    requires vj { IsOnGrid vj }
    ensures value { result ≡ (ti -ℤ si) *ℤ (vj -ℤ sj) -ℤ (tj -ℤ sj) *ℤ (vi -ℤ si) }
    ensures small { unsigned_abs result ≤ 2 ^ 62 }
{
    less(
        product(way(si, ti), way(sj, vj)),
        product(way(sj, tj), way(si, vi)),
    )
}

/// The doubled area of three places seen along the last axis.
#[inline]
pub fn turn(s: &Place, t: &Place, v: &Place) -> i128
    ensures { result ≡ turn (place s.now) (place t.now) (place v.now) }
{
    area(s.x, s.y, t.x, t.y, v.x, v.y) as i128
}

/// The cross product of the ways from the first place to the others.
#[inline]
pub fn normal_of(u: &Place, v: &Place, t: &Place) -> Normal
    ensures { normal result ≡ face_normal (place u.now) (place v.now) (place t.now) }
{
    Normal {
        x: area(u.y, u.z, v.y, v.z, t.y, t.z),
        y: area(u.z, u.x, v.z, v.x, t.z, t.x),
        z: area(u.x, u.y, v.x, v.y, t.x, t.y),
    }
}

/// The scalar product of a normal with the way from one place to another.
#[inline]
fn along(n: &Normal, from: &Place, to: &Place) -> i128
    ensures { result ≡ scalar (normal n.now) (way (place from.now) (place to.now)) }
{
    sum(
        part(n.x, way(from.x, to.x)),
        part(n.y, way(from.y, to.y)),
        part(n.z, way(from.z, to.z)),
    )
}

/// Six times the volume of a place and a triangle.
#[inline]
pub fn height(p: &Place, o: &Face) -> i128
    ensures { result ≡ volume (place p.now) (place o.now.a) (place o.now.b) (place o.now.c) }
{
    along(&o.normal, p, &o.a)
}

/// Six times the volume of four places.
#[inline]
pub fn volume(p: &Place, u: &Place, v: &Place, t: &Place) -> i128
    ensures { result ≡ volume (place p.now) (place u.now) (place v.now) (place t.now) }
{
    along(&normal_of(u, v, t), p, u)
}
