//! Drops the points that no triangle uses.
#![tactic(auto)]

ghost use Rattle.std.specs.Prelude.{◌≡◌, ◌≤◌, ◌↔◌, List, length, true, IfOk, IsTrue};
ghost use Rattle.std.specs.List.{All};
ghost use Rattle.mesh_terms.specs.Labels.{no_labels};
ghost use Rattle.mesh_terms.specs.Limits.{most_points};
ghost use Rattle.mesh_terms.specs.Meshes.{IsBelow, Triple, triples_of, soup_of, used_from};
ghost use Rattle.unused_points.specs.Used.{IsSound, MarksUsed, NumbersUsed, renamed};

use mb_base::{NoMemory, Point, Soup};
use std::alloc::Global;

/// The soup of these points and triangles, with empty labels: the points that no triangle uses are dropped
/// and counted, and the others keep their order. `NoMemory` may come for any of them. The time is in proportion to
/// the points and the triangles.
pub fn without_unused(
    alloc: Global,
    points: Vec<Point>,
    triples: Vec<[u32; 3]>,
) -> Result<Soup, NoMemory>
    requires { IsSound (length points.items) (triples_of triples.items) }
    ensures { IfOk result (λ soup. soup ≡ soup_of points.items (triples_of triples.items) (no_labels (triples_of triples.items))) }
{
    let marks = marks_of(alloc, &triples, points.len())?;
    if are_set(&marks) {
        return Ok(Soup::of(points, triples, 0));
    }
    let (kept, numbers) = kept_points(alloc, &points, &marks)?;
    let unused = points.len() - kept.len();
    Ok(Soup::of(kept, renumbered(triples, &numbers), unused as u32))
}

// Whether each mark is set.
fn are_set(marks: &[bool]) -> bool
    ensures { IsTrue result ↔ All (λ mark. mark ≡ true) marks.now }
{
    marks.iter().all(|mark| *mark)
}

// A mark for each of so many points, set where a triangle has the point.
fn marks_of(alloc: Global, triples: &[[u32; 3]], count: usize) -> Result<Vec<bool>, NoMemory>
    requires { All (IsBelow count) (triples_of triples.now) }
    ensures { IfOk result (λ marks. MarksUsed count (triples_of triples.now) marks.items) }
{
    let mut marks = vec![in alloc; false; count]?;
    for [a, b, c] in triples {
        marks[*a as usize] = true;
        marks[*b as usize] = true;
        marks[*c as usize] = true;
    }
    Ok(marks)
}

// The points with a mark, and for each point how many of those stand before it.
fn kept_points(
    alloc: Global,
    points: &[Point],
    marks: &[bool],
) -> Result<(Vec<Point>, Vec<u32>), NoMemory>
    requires marks { length marks.now ≡ length points.now }
    requires few { length points.now ≤ most_points }
    ensures kept { IfOk result (λ r. (ts : List Triple) → MarksUsed (length points.now) ts marks.now → r.0.items ≡ used_from ts 0 points.now) }
    ensures numbers { IfOk result (λ r. (ts : List Triple) → MarksUsed (length points.now) ts marks.now → NumbersUsed (length points.now) ts r.1.items) }
{
    let mut kept = Vec::new(alloc);
    let mut numbers = Vec::with_capacity(alloc, points.len())?;
    for (place, point) in points.iter().enumerate() {
        numbers.push(kept.len() as u32)?;
        if marks[place] {
            kept.push(*point)?;
        }
    }
    Ok((kept, numbers))
}

// The triangles with the number of each point in place of the old one.
fn renumbered(mut triples: Vec<[u32; 3]>, numbers: &[u32]) -> Vec<[u32; 3]>
    requires { All (IsBelow (length numbers.now)) (triples_of triples.items) }
    ensures { (ts : List Triple) → NumbersUsed (length numbers.now) ts numbers.now → triples_of result.items ≡ renamed ts (triples_of triples.items) }
{
    for triple in triples.iter_mut() {
        let [a, b, c] = *triple;
        *triple = [
            numbers[a as usize],
            numbers[b as usize],
            numbers[c as usize],
        ];
    }
    triples
}
