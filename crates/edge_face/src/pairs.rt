//! The five boundary pairs of an edge and a face. The shadows of vertices and edges below them are taken once each, and
//! no spot is placed but where the boxes leave it open whether a pair is above.

ghost use Rattle.std.specs.Prelude.{◌≡◌, ◌+◌, ◌≤◌, ◌+ℤ◌, ◌-ℤ◌, unsigned_abs, map};
ghost use Rattle.side_terms.specs.Corners.{IsFineCorner, AllFine};
ghost use Rattle.shadow_kernels.specs.Counts.{shadow_of};
ghost use Rattle.edge_face.specs.Sides.{flip, ends_on, edges_on, one_on, other_on, pairs_on};
ghost use Rattle.edge_face.specs.Pairs.{IsKnown, IsPairOf, ArePairsOf, pair_shadow, pair_on, pairs_number, first_place};
ghost use Rattle.edge_face.specs.Pairs.{number_at, AreSmall, AreCounts, vertex_rim, edge_corners};

use crate::pair::{Pair, Pairs};
use mb_base::Corner;
use shadow_kernels::{Edge, Sights, edge_vertex_shadow, vertex_edge_shadow};

impl Pair {
    /// The shadow: the count where P is beyond Q, else 0.
    fn shadow(&self) -> i8
        ensures value { result ≡ pair_shadow self.now }
        ensures small { unsigned_abs result ≤ 1 }
    {
        if self.above { self.count } else { 0 }
    }

    /// Whether there is an answer that is above, or one that is not.
    fn is_on(&self, above: bool) -> bool
        ensures { result ≡ pair_on above self.now }
    {
        if self.count == 0 {
            false
        } else {
            self.above == above
        }
    }
}

impl Pairs {
    /// The number of crossings: the shadow of the end less that of the start, less those of the three edges.
    pub(crate) fn number(&self) -> i8
        ensures { result ≡ pairs_number self.now }
    {
        let edges = [
            self.first.shadow(),
            self.second.shadow(),
            self.third.shadow(),
        ];
        let ends = less(self.end.shadow(), self.start.shadow());
        less(ends, sum(&edges))
    }

    /// The place of the first pair that is above, or of the first that is not, from 0 to 4; 5 where there is none.
    pub(crate) fn first_on(&self, above: bool) -> usize
        ensures { result ≡ first_place above self.now }
    {
        if self.start.is_on(above) {
            0
        } else if self.end.is_on(above) {
            1
        } else if self.first.is_on(above) {
            2
        } else if self.second.is_on(above) {
            3
        } else if self.third.is_on(above) {
            4
        } else {
            5
        }
    }
}

/// The pairs of an edge and a face of the other side.
pub(crate) fn pairs_of<K: Sights>(
    kernel: &K,
    of: Edge,
    edge: &[Corner; 2],
    face: &[Corner; 3],
) -> Pairs
    requires edge_fine { AllFine edge.now }
    requires face_fine { AllFine face.now }
    ensures { ArePairsOf (pairs_on of (K.rule_of kernel.now) (K.between_of kernel.now) edge.now face.now) result }
{
    let start = vertex_edges(kernel, of, &edge[0], face);
    let end = vertex_edges(kernel, of, &edge[1], face);
    let at = edge_vertices(kernel, of, edge, face);
    let counts = counts(&start, &end, &at);
    Pairs {
        start: face_pair(kernel, of, counts[0], &[edge[0]], face),
        end: face_pair(kernel, of, counts[1], &[edge[1]], face),
        first: edge_pair(kernel, of, counts[2], edge, &[face[0], face[1]]),
        second: edge_pair(kernel, of, counts[3], edge, &[face[1], face[2]]),
        third: edge_pair(kernel, of, counts[4], edge, &[face[2], face[0]]),
    }
}

/// The counts of the five pairs, from the shadows of the start and of the end with the three edges of the face, and of the
/// edge at the three corners of the face.
fn counts(start: &[i8; 3], end: &[i8; 3], at: &[i8; 3]) -> [i8; 5]
    requires start_small { AreSmall start.now }
    requires end_small { AreSmall end.now }
    requires at_small { AreSmall at.now }
    ensures { AreCounts start.now end.now at.now result }
{
    [
        sum(start),
        sum(end),
        lifted(start[0], end[0], at[0], at[1]),
        lifted(start[1], end[1], at[1], at[2]),
        lifted(start[2], end[2], at[2], at[0]),
    ]
}

/// The sum of the shadows with the three edges: the count of a vertex and a face.
fn sum(shadows: &[i8; 3]) -> i8
    requires { AreSmall shadows.now }
    ensures value { result ≡ number_at shadows.now 0 +ℤ (number_at shadows.now 1 +ℤ number_at shadows.now 2) }
    ensures small { unsigned_abs result ≤ 3 }
{
    let [first, second, third] = *shadows;
    first + (second + third)
}

/// The difference of two small numbers.
fn less(x: i8, y: i8) -> i8
    requires x_small { unsigned_abs x ≤ 3 }
    requires y_small { unsigned_abs y ≤ 3 }
    ensures value { result ≡ x -ℤ y }
    ensures small { unsigned_abs result ≤ unsigned_abs x + unsigned_abs y }
{
    x - y
}

/// The count of two edges, from the shadows of the ends of each with the other.
fn lifted(start: i8, end: i8, from: i8, to: i8) -> i8
    requires start_small { unsigned_abs start ≤ 1 }
    requires end_small { unsigned_abs end ≤ 1 }
    requires from_small { unsigned_abs from ≤ 1 }
    requires to_small { unsigned_abs to ≤ 1 }
    ensures { result ≡ (end -ℤ start) -ℤ (from -ℤ to) }
{
    less(less(end, start), less(from, to))
}

/// The shadows of a vertex of the edge's side with the three edges of a face.
fn vertex_edges<K: Sights>(kernel: &K, of: Edge, vertex: &Corner, face: &[Corner; 3]) -> [i8; 3]
    requires vertex_fine { IsFineCorner vertex.now }
    requires face_fine { AllFine face.now }
    ensures value { result ≡ map shadow_of (vertex_rim (one_on of (K.rule_of kernel.now) (K.between_of kernel.now)) vertex.now face.now) }
    ensures small { AreSmall result }
{
    let [u, v, w] = face;
    match of {
        Edge::OfP => [
            vertex_edge_shadow(kernel, vertex, u, v),
            vertex_edge_shadow(kernel, vertex, v, w),
            vertex_edge_shadow(kernel, vertex, w, u),
        ],
        Edge::OfQ => [
            edge_vertex_shadow(kernel, u, v, vertex),
            edge_vertex_shadow(kernel, v, w, vertex),
            edge_vertex_shadow(kernel, w, u, vertex),
        ],
    }
}

/// The shadows of an edge with the three corners of a face.
fn edge_vertices<K: Sights>(kernel: &K, of: Edge, edge: &[Corner; 2], face: &[Corner; 3]) -> [i8; 3]
    requires edge_fine { AllFine edge.now }
    requires face_fine { AllFine face.now }
    ensures value { result ≡ map shadow_of (edge_corners (other_on of (K.rule_of kernel.now) (K.between_of kernel.now)) edge.now face.now) }
    ensures small { AreSmall result }
{
    let [a, b] = edge;
    let [u, v, w] = face;
    match of {
        Edge::OfP => [
            edge_vertex_shadow(kernel, a, b, u),
            edge_vertex_shadow(kernel, a, b, v),
            edge_vertex_shadow(kernel, a, b, w),
        ],
        Edge::OfQ => [
            vertex_edge_shadow(kernel, u, a, b),
            vertex_edge_shadow(kernel, v, a, b),
            vertex_edge_shadow(kernel, w, a, b),
        ],
    }
}

/// The other side.
pub(crate) fn other(of: Edge) -> Edge
    ensures { result ≡ flip of }
{
    match of {
        Edge::OfP => Edge::OfQ,
        Edge::OfQ => Edge::OfP,
    }
}

/// The pair of a vertex of the edge's side and a face, of which the count is known.
fn face_pair<K: Sights>(
    kernel: &K,
    of: Edge,
    count: i8,
    vertex: &[Corner; 1],
    face: &[Corner; 3],
) -> Pair
    requires known { IsKnown (ends_on of (K.rule_of kernel.now) (K.between_of kernel.now) vertex.now face.now) count }
    requires vertex_fine { AllFine vertex.now }
    requires face_fine { AllFine face.now }
    ensures { IsPairOf (ends_on of (K.rule_of kernel.now) (K.between_of kernel.now) vertex.now face.now) result }
{
    if count == 0 {
        return Pair {
            count,
            above: false,
        };
    }
    let above = kernel.is_over_face(other(of), &vertex[0], face);
    Pair { count, above }
}

/// The pair of two edges, the second one of the face, of which the count is known.
fn edge_pair<K: Sights>(
    kernel: &K,
    of: Edge,
    count: i8,
    edge: &[Corner; 2],
    other: &[Corner; 2],
) -> Pair
    requires known { IsKnown (edges_on of (K.rule_of kernel.now) (K.between_of kernel.now) edge.now other.now) count }
    requires edge_fine { AllFine edge.now }
    requires other_fine { AllFine other.now }
    ensures { IsPairOf (edges_on of (K.rule_of kernel.now) (K.between_of kernel.now) edge.now other.now) result }
{
    if count == 0 {
        return Pair {
            count,
            above: false,
        };
    }
    let above = match of {
        Edge::OfP => kernel.is_over_edges(edge, other),
        Edge::OfQ => kernel.is_over_edges(other, edge),
    };
    Pair { count, above }
}
