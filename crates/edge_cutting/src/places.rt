// Points at one place are one.
ghost use Rattle.std.specs.Prelude.{◌≡◌, ◌≤◌, ◌++◌, ◌∷◌, [], cond, true, IfOk, OnOk, length, map};
ghost use Rattle.std.specs.List.{All};
ghost use Rattle.chain_terms.specs.Chains.{IsClosed, all_edges};
ghost use Rattle.edge_cutting.specs.Inside.{AreApart};
ghost use Rattle.edge_cutting.specs.Overs.{AreOver, over_of};
ghost use Rattle.mesh_terms.specs.Limits.{most_points, most_triangles};
ghost use Rattle.mesh_terms.specs.Meshes.{IsBelow, triple_of, triples_of};
ghost use Rattle.sheet_terms.specs.Places.{has_three, place_at, place_points};

use indexmap::IndexSet;
use mb_base::{NoMemory, Point};
use std::alloc::Global;

/// The places of points: the different ones, in the order in which they come first, and for each point its place.
#[derive(Drop)]
pub struct Places {
    pub points: Vec<Point>,
    pub of: Vec<u32>,
}

/// Triangles over places, and the triangle of the mesh that each of them was.
#[derive(Drop)]
pub struct Faces {
    pub triples: Vec<[u32; 3]>,
    pub sources: Vec<u32>,
}

/// The places of points.
pub fn places_of(alloc: Global, points: &[Point]) -> Result<Places, NoMemory>
    requires few { length points.now ≤ most_points }
    ensures points { IfOk result (λ p. p.points.items ≡ place_points points.now) }
    ensures of { IfOk result (λ p. p.of.items ≡ map (place_at (place_points points.now)) points.now) }
    ensures apart { IfOk result (λ p. AreApart p.points.items) }
{
    let mut seen = IndexSet::new(alloc);
    let mut firsts = Vec::new(alloc);
    let mut of = Vec::with_capacity(alloc, points.len())?;
    for point in points {
        let (place, is_new) = seen.insert_full(point.at())?;
        push_new(&mut firsts, *point, is_new)?;
        of.push(place as u32)?;
    }
    Ok(Places { points: firsts, of })
}

// Adds a point where it is new.
fn push_new(firsts: &mut Vec<Point>, point: Point, is_new: bool) -> Result<(), NoMemory>
    ensures { OnOk result (firsts.new.items ≡ cond is_new (firsts.old.items ++ point ∷ []) firsts.old.items) }
{
    if is_new {
        firsts.push(point)?;
    }
    Ok(())
}

/// The triangles over the places of their corners that have three of them, in order. The others go.
pub fn faces_over(alloc: Global, triples: &[[u32; 3]], of: &[u32]) -> Result<Faces, NoMemory>
    requires below { All (IsBelow (length of.now)) (triples_of triples.now) }
    requires few { length triples.now ≤ most_triangles }
    ensures over { IfOk result (λ f. AreOver of.now (triples_of triples.now) (triples_of f.triples.items) f.sources.items) }
    ensures three { IfOk result (λ f. All (λ t. has_three t ≡ true) (triples_of f.triples.items)) }
    ensures closed { IfOk result (λ f. IsClosed (all_edges (triples_of triples.now)) → IsClosed (all_edges (triples_of f.triples.items))) }
{
    let mut faces = Faces {
        triples: Vec::with_capacity(alloc, triples.len())?,
        sources: Vec::with_capacity(alloc, triples.len())?,
    };
    for number in 0..triples.len() {
        faces.add(over(of, triples[number]), number as u32)?;
    }
    Ok(faces)
}

impl Faces {
    // Adds a triangle over places with its number where it has three.
    fn add(&mut self, triple: [u32; 3], number: u32) -> Result<(), NoMemory>
        ensures triples { OnOk result (triples_of self.new.triples.items ≡ triples_of self.old.triples.items ++ cond (has_three (triple_of triple)) (triple_of triple ∷ []) []) }
        ensures sources { OnOk result (self.new.sources.items ≡ self.old.sources.items ++ cond (has_three (triple_of triple)) (number ∷ []) []) }
    {
        if has_three(triple) {
            self.triples.push(triple)?;
            self.sources.push(number)?;
        }
        Ok(())
    }
}

// A triangle over the places of its corners.
fn over(of: &[u32], triple: [u32; 3]) -> [u32; 3]
    requires { IsBelow (length of.now) (triple_of triple) }
    ensures { triple_of result ≡ over_of of.now (triple_of triple) }
{
    let [a, b, c] = triple;
    [of[a as usize], of[b as usize], of[c as usize]]
}

// Whether no place stands twice.
fn has_three(triple: [u32; 3]) -> bool
    ensures { result ≡ has_three (triple_of triple) }
{
    let [a, b, c] = triple;
    a != b && b != c && c != a
}
