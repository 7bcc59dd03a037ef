// The vertices of an outcome's mesh as prescribed vertices.
ghost use Rattle.std.specs.Prelude.{◌≡◌, ◌↔◌, ℕ, ◌<◌, true, false, IfOk, IsTrue, length, map, get_or};
ghost use Rattle.std.specs.List.{All, Contains};
ghost use Rattle.mesh_terms.specs.Meshes.{HasThree, IsBelow, triple_of, triples_of};
ghost use Rattle.mesh_boolean.specs.Audited.{LieThere};
ghost use Rattle.mesh_boolean.specs.Results.{HasOrigins};
ghost use Rattle.pinch_split.specs.Back.{named_by};

use crate::outcome::Outcome;
use mb_base::{NoMemory, Point};
use std::alloc::Global;

/// Whether each vertex of the mesh is one of the prescribed vertices and lies where that one does, and each of these occurs.
pub fn has_origins(alloc: Global, outcome: &Outcome) -> Result<bool, NoMemory>
    ensures { IfOk result (λ yes. IsTrue yes ↔ HasOrigins outcome.now) }
{
    let old = &outcome.prescribed.points;
    if !lie_there(outcome.mesh.points(), old, &outcome.from) {
        return Ok(false);
    }
    all_occur(alloc, &outcome.from, old.len())
}

// Whether there is a number for each point, and it names a point at the same place.
fn lie_there(points: &[Point], old: &[Point], from: &[u32]) -> bool
    ensures { IsTrue result ↔ LieThere points.now old.now from.now }
{
    if from.len() != points.len() {
        return false;
    }
    for (vertex, number) in from.iter().enumerate() {
        let number = *number as usize;
        if number >= old.len() {
            return false;
        }
        if points[vertex].at() != old[number].at() {
            return false;
        }
    }
    true
}

// Whether each number below a count is one of these, which are below it.
fn all_occur(alloc: Global, numbers: &[u32], count: usize) -> Result<bool, NoMemory>
    requires { All (λ w. w < count) numbers.now }
    ensures { IfOk result (λ yes. IsTrue yes ↔ ((w : ℕ) → w < count → Contains numbers.now w)) }
{
    let seen = marked(alloc, numbers, count)?;
    Ok(are_all_set(&seen))
}

// Whether all of the marks are set.
fn are_all_set(marks: &[bool]) -> bool
    ensures { IsTrue result ↔ All (λ mark. mark ≡ true) marks.now }
{
    marks.iter().all(|mark| *mark)
}

// For each number below a count whether it is one of these, which are below it.
fn marked(alloc: Global, numbers: &[u32], count: usize) -> Result<Vec<bool>, NoMemory>
    requires { All (λ w. w < count) numbers.now }
    ensures long { IfOk result (λ seen. length seen.items ≡ count) }
    ensures each { IfOk result (λ seen. (w : ℕ) → w < count → (get_or seen.items w false ≡ true) ↔ Contains numbers.now w) }
{
    let mut seen = vec![in alloc; false; count]?;
    for number in numbers {
        seen[*number as usize] = true;
    }
    Ok(seen)
}

/// The triangles with their vertices named as others.
pub fn named_triples(
    alloc: Global,
    from: &[u32],
    triples: &[[u32; 3]],
) -> Result<Vec<[u32; 3]>, NoMemory>
    requires { All (IsBelow (length from.now)) (triples_of triples.now) }
    ensures { IfOk result (λ named. triples_of named.items ≡ map (named_by from.now) (triples_of triples.now)) }
{
    let mut named = Vec::with_capacity(alloc, triples.len())?;
    for [a, b, c] in triples {
        named.push([from[*a as usize], from[*b as usize], from[*c as usize]])?;
    }
    Ok(named)
}

/// Whether each of the triangles has three different vertices.
pub fn have_three(triples: &[[u32; 3]]) -> bool
    ensures { IsTrue result ↔ All HasThree (triples_of triples.now) }
{
    for triple in triples {
        if !has_three(*triple) {
            return false;
        }
    }
    true
}

// Whether a triangle has three different vertices.
fn has_three(triple: [u32; 3]) -> bool
    ensures { IsTrue result ↔ HasThree (triple_of triple) }
{
    let [a, b, c] = triple;
    a != b && b != c && c != a
}
