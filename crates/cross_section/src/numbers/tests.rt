// Vertices and edges of either side against the edges of the other.
ghost use Rattle.std.specs.Prelude.{◌≡◌, ◌<◌, ◌∷◌, [], ℤ, ℕ, pos, neg_ℤ, List, length};
ghost use Rattle.mb_base.specs.declared.point.Corner.{Corner};
ghost use Rattle.side_terms.specs.Boxes.{AreApart};
ghost use Rattle.side_terms.specs.Corners.{AllFine, IsFineCorner};
ghost use Rattle.std.proofs.Common.{ap, refl};
ghost use Rattle.shadow_kernels.specs.Counts.{count_of, shadow_of};
ghost use Rattle.shadow_kernels.specs.FinePairs.{fine_one};
ghost use Rattle.cross_section.specs.Apart.{apart_back, axis_low};
ghost use Rattle.cross_section.specs.Small.{IsSmall, shadow_small, turned_small};

use mb_base::Corner;
use shadow_kernels::{Meet, Meets};

/// What tells how a vertex, and a way from one vertex to another, of one side stand to an edge of the other.
pub trait EdgeTests {
    /// What the edge adds to the vertex's winding number.
    ghost part_of: { Self → Corner → List Corner → ℤ };

    /// How much the edge changes the winding number along the way.
    ghost change_of: { Self → List Corner → List Corner → ℤ };

    /// The part: -1, 0 or 1.
    fn part(&self, vertex: &Corner, edge: &[Corner; 2]) -> i64
        requires vertex_fine { IsFineCorner vertex.now }
        requires edge_fine { AllFine edge.now }
        ensures value { result ≡ part_of self.now vertex.now edge.now }
        ensures small { IsSmall result };

    /// The change: -1, 0 or 1.
    fn change(&self, way: &[Corner; 2], edge: &[Corner; 2]) -> i64
        requires way_fine { AllFine way.now }
        requires edge_fine { AllFine edge.now }
        ensures value { result ≡ change_of self.now way.now edge.now }
        ensures small { IsSmall result };

    /// A part is -1, 0 or 1.
    ghost small: { (s : Self) (vertex : Corner) (edge : List Corner) → length edge ≡ 2 → IsFineCorner vertex → AllFine edge →
        IsSmall (part_of s vertex edge) };

    /// Where the boxes of the two are strictly apart on x or y there is no change.
    ghost apart: { (s : Self) (way edge : List Corner) (i : ℕ) → length way ≡ 2 → length edge ≡ 2 → AllFine way → AllFine edge →
        i < 2 → AreApart i way edge → change_of s way edge ≡ pos 0 };
}

/// The vertices of P and the edges of Q.
#[derive(Drop)]
pub struct PVertices<'a, K>(pub &'a K);

impl<K: Meets<1, 2> + Meets<2, 2>> EdgeTests for PVertices<'_, K> {
    ghost part_of = { λ s vertex edge. shadow_of (⟦<K as Meets<1, 2>>⟧.meet_of s.0.now (vertex ∷ []) edge) };

    ghost change_of = { λ s way edge. count_of (⟦<K as Meets<2, 2>>⟧.meet_of s.0.now way edge) };

    ghost small = { λ s vertex edge e vertex_fine edge_fine.
        shadow_small (⟦<K as Meets<1, 2>>⟧.meet_of s.0.now (vertex ∷ []) edge)
        ((K.Meets-1.laws s.0.now).size (vertex ∷ []) edge refl e (fine_one vertex vertex_fine) edge_fine) };

    ghost apart = { λ s way edge i e f way_fine edge_fine low apart.
        ap count_of ((K.Meets-2.laws s.0.now).apart way edge i e f way_fine edge_fine (axis_low i low) apart) };

    fn part(&self, vertex: &Corner, edge: &[Corner; 2]) -> i64 {
        shadow_of(self.0.meet(&[*vertex], edge))
    }

    fn change(&self, way: &[Corner; 2], edge: &[Corner; 2]) -> i64 {
        count_of(self.0.meet(way, edge))
    }
}

/// The vertices of Q and the edges of P.
#[derive(Drop)]
pub struct QVertices<'a, K>(pub &'a K);

impl<K: Meets<2, 1> + Meets<2, 2>> EdgeTests for QVertices<'_, K> {
    ghost part_of = { λ s vertex edge. neg_ℤ (shadow_of (⟦<K as Meets<2, 1>>⟧.meet_of s.0.now edge (vertex ∷ []))) };

    ghost change_of = { λ s way edge. neg_ℤ (count_of (⟦<K as Meets<2, 2>>⟧.meet_of s.0.now edge way)) };

    ghost small = { λ s vertex edge e vertex_fine edge_fine.
        turned_small (shadow_of (⟦<K as Meets<2, 1>>⟧.meet_of s.0.now edge (vertex ∷ []))) (shadow_small (⟦<K as Meets<2, 1>>⟧.meet_of s.0.now edge (vertex ∷ []))
        ((K.Meets-1.laws s.0.now).size edge (vertex ∷ []) e refl edge_fine (fine_one vertex vertex_fine))) };

    ghost apart = { λ s way edge i e f way_fine edge_fine low apart.
        ap (λ m. neg_ℤ (count_of m)) ((K.Meets-2.laws s.0.now).apart edge way i f e edge_fine way_fine (axis_low i low) (apart_back i way edge apart)) };

    fn part(&self, vertex: &Corner, edge: &[Corner; 2]) -> i64 {
        turned(shadow_of(self.0.meet(edge, &[*vertex])))
    }

    fn change(&self, way: &[Corner; 2], edge: &[Corner; 2]) -> i64 {
        turned(count_of(self.0.meet(edge, way)))
    }
}

// The shadow of an answer: 0 where there is none.
fn shadow_of(answer: Option<Meet>) -> i64
    ensures { result ≡ shadow_of answer }
{
    match answer {
        None => 0,
        Some(meet) => i64::from(meet.shadow()),
    }
}

// The count of an answer: 0 where there is none.
fn count_of(answer: Option<Meet>) -> i64
    ensures { result ≡ count_of answer }
{
    match answer {
        None => 0,
        Some(meet) => i64::from(meet.count),
    }
}

// The number the other way.
fn turned(number: i64) -> i64
    requires { IsSmall number }
    ensures value { result ≡ neg_ℤ number }
    ensures small { IsSmall result }
{
    -number
}
