// Triangles gathered by their planes.
ghost use Rattle.std.specs.Prelude.{◌≡◌, ◌≤◌, ◌+◌, ◌<◌, ◌++◌, ◌∷◌, [], ℕ, List, IfNone, IfOk, IfSome, OnOk, false, length, map, true};
ghost use Rattle.std.specs.List.{All};
ghost use Rattle.face_plane.specs.Planes.{point_at};
ghost use Rattle.mesh_terms.specs.Limits.{most_triangles};
ghost use Rattle.mesh_terms.specs.Meshes.{IsBelow, triple_of, triples_of};
ghost use Rattle.mesh_terms.specs.Points.{cross_product};
ghost use Rattle.plane_groups.specs.Grouped.{ArePlanes, faces_in};
ghost use Rattle.plane_groups.specs.Keys.{key_at};
ghost use Rattle.plane_groups.specs.Numbers.{faces_front, keys_of, keys_with, number_among};
ghost use Rattle.sheet_terms.specs.Faces.{Face, is_flat};
ghost use Rattle.sheet_terms.specs.Twins.{is_up};

use crate::plane_key::{Facing, PlaneKey};
use indexmap::IndexSet;
use mb_base::{NoMemory, Point};
use places_by_key::Buckets;
use std::alloc::Global;

/// The planes of triangles, in the order of their first ones, with the triangles of each; `fronts` has for each triangle whether it faces the front of its plane.
#[derive(Drop)]
pub struct Planes {
    pub count: usize,
    pub fronts: Vec<bool>,
    // The flat triangles, and behind them those of each plane.
    faces: Buckets,
}

impl Planes {
    /// The triangles of a plane, in order.
    pub fn faces_of(&self, plane: usize) -> &[u32]
        requires within { plane < self.now.count }
        requires full { length self.now.faces ≡ self.now.count + 1 }
        ensures { result.now ≡ faces_in self.now plane }
    {
        prove!(plane < self.count);
        self.faces.bucket(plane + 1)
    }
}

/// The planes of triangles.
pub fn planes_of(alloc: Global, points: &[Point], triples: &[[u32; 3]]) -> Result<Planes, NoMemory>
    requires below { All (IsBelow (length points.now)) (triples_of triples.now) }
    requires few { length triples.now ≤ most_triangles }
    ensures full { IfOk result (λ p. length p.faces ≡ p.count + 1) }
    ensures planes { IfOk result (λ p. (all : List Face) → map (λ f. f.corners) all ≡ triples_of triples.now → ArePlanes points.now all p) }
{
    let ByPlane { seen, of, fronts } = numbered(alloc, points, triples)?;
    let count = seen.len();
    let faces = Buckets::by_key(alloc, &of, count + 1)?;
    Ok(Planes {
        count,
        fronts,
        faces,
    })
}

// The triangles numbered by their planes.
fn numbered(alloc: Global, points: &[Point], triples: &[[u32; 3]]) -> Result<ByPlane, NoMemory>
    requires below { All (IsBelow (length points.now)) (triples_of triples.now) }
    requires few { length triples.now ≤ most_triangles }
    ensures keys { IfOk result (λ n. n.seen.keys ≡ keys_of points.now (triples_of triples.now)) }
    ensures of { IfOk result (λ n. n.of.items ≡ map (number_among points.now (keys_of points.now (triples_of triples.now))) (triples_of triples.now)) }
    ensures fronts { IfOk result (λ n. n.fronts.items ≡ map (faces_front points.now) (triples_of triples.now)) }
{
    let mut numbered = ByPlane {
        seen: IndexSet::new(alloc),
        of: Vec::with_capacity(alloc, triples.len())?,
        fronts: Vec::with_capacity(alloc, triples.len())?,
    };
    for triple in triples {
        numbered.add(points, *triple)?;
    }
    Ok(numbered)
}

/// The keys of planes in the order in which they came first, and for each triangle the number of its plane, from 1, or 0 where it is flat, and whether it faces front.
#[derive(Drop)]
struct ByPlane {
    seen: IndexSet<PlaneKey>,
    of: Vec<u32>,
    fronts: Vec<bool>,
}

impl ByPlane {
    // Adds a triangle.
    fn add(&mut self, points: &[Point], triple: [u32; 3]) -> Result<(), NoMemory>
        requires below { IsBelow (length points.now) (triple_of triple) }
        requires few { length self.old.seen.keys ≤ most_triangles }
        ensures keys { OnOk result (self.new.seen.keys ≡ keys_with points.now self.old.seen.keys (triple_of triple)) }
        ensures of { OnOk result (self.new.of.items ≡ self.old.of.items ++ number_among points.now self.old.seen.keys (triple_of triple) ∷ []) }
        ensures fronts { OnOk result (self.new.fronts.items ≡ self.old.fronts.items ++ faces_front points.now (triple_of triple) ∷ []) }
    {
        match facing(points, triple) {
            Some(facing) => {
                let (plane, _) = self.seen.insert_full(facing.plane)?;
                self.of.push(plane as u32 + 1)?;
                self.fronts.push(facing.front)?;
                Ok(())
            }
            None => {
                self.of.push(0)?;
                self.fronts.push(false)?;
                Ok(())
            }
        }
    }
}

// The plane of a triangle over places.
fn facing(points: &[Point], triple: [u32; 3]) -> Option<Facing>
    requires { IsBelow (length points.now) (triple_of triple) }
    ensures flat { IfNone result (is_flat points.now (triple_of triple) ≡ true) }
    ensures bent { IfSome result (λ f. is_flat points.now (triple_of triple) ≡ false) }
    ensures plane { IfSome result (λ f. f.plane ≡ key_at points.now (triple_of triple)) }
    ensures front { IfSome result (λ f. f.front ≡ is_up (cross_product (point_at points.now (triple_of triple).0) (point_at points.now (triple_of triple).1)
        (point_at points.now (triple_of triple).2))) }
{
    let [a, b, c] = triple;
    Facing::of(points[a as usize], points[b as usize], points[c as usize])
}
