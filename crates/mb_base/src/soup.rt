// Points and triangles as a file gives them.
ghost use Rattle.std.specs.Prelude.{◌≡◌, ◌↔◌, ◌<◌, ◌≤◌, ℕ, IfSome, IsTrue, true, length};
ghost use Rattle.std.specs.Option.{option_map};
ghost use Rattle.std.specs.List.{All, list_any};
ghost use Rattle.mesh_terms.specs.Labels.{AreLabels, labels_for, labels_given, no_labels};
ghost use Rattle.mesh_terms.specs.Limits.{most_points, most_triangles};
ghost use Rattle.mesh_terms.specs.Meshes.{HasThree, IsBelow, IsMesh, has, triple_of, triples_of};

use crate::labels::Labels;
use crate::limits::{MOST_POINTS, MOST_TRIANGLES};
use crate::point::Point;
use std::marker::Model;

/// Points and triangles, each with a label, and the number of points that were dropped since no triangle uses them.
/// Each triangle has three different vertices, each point is in a triangle, and there are at most
/// 150,000,000 points and 100,000,000 triangles. The triangles need not enclose anything.
#[derive(Drop)]
pub struct Soup {
    points: Vec<Point>,
    triples: Vec<[u32; 3]>,
    // None where all labels are empty.
    labels: Option<Labels>,
    unused: u32,
}

impl Model for Soup {
    ghost use Rattle.std.specs.Prelude.{length};
    ghost use Rattle.mesh_terms.specs.Labels.{AreLabels, labels_given};
    ghost use Rattle.mesh_terms.specs.Meshes.{Soup as TheSoup, IsMesh, triples_of};

    ghost Value = { TheSoup };

    ghost view = { λ s. record { points = s.points.items; triples = triples_of s.triples.items; labels = labels_given (triples_of s.triples.items) s.labels; unused = s.unused } };

    ghost invariant = { λ s. IsMesh (length s.points.items) (triples_of s.triples.items) ×
        AreLabels (length (triples_of s.triples.items)) (labels_given (triples_of s.triples.items) s.labels) };
}

impl Soup {
    /// The soup of these lists, with empty labels.
    pub fn of(points: Vec<Point>, triples: Vec<[u32; 3]>, unused: u32) -> Soup
        requires { IsMesh (length points.items) (triples_of triples.items) }
        ensures points { result.points ≡ points.items }
        ensures triples { result.triples ≡ triples_of triples.items }
        ensures labels { result.labels ≡ no_labels (triples_of triples.items) }
        ensures unused { result.unused ≡ unused }
    {
        Soup {
            points,
            triples,
            labels: None,
            unused,
        }
    }

    /// The soup of these lists with these labels, of which there are no more than triangles.
    pub fn labelled(points: Vec<Point>, triples: Vec<[u32; 3]>, labels: Labels, unused: u32) -> Soup
        requires mesh { IsMesh (length points.items) (triples_of triples.items) }
        requires labels { length labels ≤ length triples.items }
        ensures points { result.points ≡ points.items }
        ensures triples { result.triples ≡ triples_of triples.items }
        ensures labels { result.labels ≡ labels_for (triples_of triples.items) labels }
        ensures unused { result.unused ≡ unused }
    {
        // Read so that what the type of the labels keeps is known here.
        let _ = labels.len();
        Soup {
            points,
            triples,
            labels: Some(labels),
            unused,
        }
    }

    /// Whether these lists make a soup: what `of` requires. The time is the product of the two
    /// lengths, so this is meant for tests.
    pub fn fits(points: &[Point], triples: &[[u32; 3]]) -> bool
        ensures { IsTrue result ↔ IsMesh (length points.now) (triples_of triples.now) }
    {
        if !are_few(points.len(), triples.len()) || !are_triples(triples, points.len()) {
            return false;
        }
        are_used(triples, points.len())
    }

    /// The points.
    pub fn points(&self) -> &[Point]
        ensures value { result.now ≡ self.now.points }
        ensures mesh { IsMesh (length self.now.points) self.now.triples }
    {
        &self.points
    }

    /// The triangles, each as three point numbers from 0.
    pub fn triples(&self) -> &[[u32; 3]]
        ensures value { triples_of result.now ≡ self.now.triples }
        ensures mesh { IsMesh (length self.now.points) self.now.triples }
    {
        &self.triples
    }

    /// How many points were dropped.
    pub fn unused(&self) -> u32
        ensures { result ≡ self.now.unused }
    {
        self.unused
    }

    /// The labels. None stands for empty ones.
    pub fn labels(&self) -> Option<&Labels>
        ensures value { labels_given self.now.triples (option_map (λ labels. labels.now) result) ≡ self.now.labels }
        ensures labels { AreLabels (length self.now.triples) self.now.labels }
    {
        self.labels.as_ref()
    }

    /// The points, the triangles and the labels.
    pub fn into_parts(self) -> (Vec<Point>, Vec<[u32; 3]>, Option<Labels>)
        ensures points { result.0.items ≡ self.points }
        ensures triples { triples_of result.1.items ≡ self.triples }
        ensures labels { labels_given self.triples result.2 ≡ self.labels }
        ensures few { IfSome result.2 (λ labels. length labels ≤ length self.triples) }
        ensures mesh { IsMesh (length self.points) self.triples }
    {
        let Soup {
            points,
            triples,
            labels,
            unused: _,
        } = self;
        (points, triples, labels)
    }
}

// Whether a mesh may have so many points and triples.
fn are_few(points: usize, triples: usize) -> bool
    ensures { IsTrue result ↔ ((points ≤ most_points) × (triples ≤ most_triangles)) }
{
    points <= MOST_POINTS as usize && triples <= MOST_TRIANGLES as usize
}

// Whether the triple names three different points of so many.
fn is_triple(triple: &[u32; 3], points: usize) -> bool
    ensures { IsTrue result ↔ (HasThree (triple_of triple.now) × IsBelow points (triple_of triple.now)) }
{
    let [a, b, c] = *triple;
    let below = (a as usize) < points && (b as usize) < points && (c as usize) < points;
    below && a != b && b != c && c != a
}

// Whether each triple names three different points of so many.
fn are_triples(triples: &[[u32; 3]], points: usize) -> bool
    ensures { IsTrue result ↔ All (λ t. HasThree (triple_of t) × IsBelow points (triple_of t)) triples.now }
{
    for triple in triples {
        if !is_triple(triple, points) {
            return false;
        }
    }
    true
}

// Whether some triple has the point number.
fn is_used(triples: &[[u32; 3]], point: usize) -> bool
    ensures { result ≡ list_any (λ t. has (triple_of t) point) triples.now }
{
    triples.iter().any(|[a, b, c]| *a as usize == point
        || *b as usize == point
        || *c as usize == point)
}

// Whether each of so many points is used.
fn are_used(triples: &[[u32; 3]], points: usize) -> bool
    ensures { IsTrue result ↔ ((v : ℕ) → v < points → list_any (λ t. has (triple_of t) v) triples.now ≡ true) }
{
    for point in 0..points {
        if !is_used(triples, point) {
            return false;
        }
    }
    true
}
