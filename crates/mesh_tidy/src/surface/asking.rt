// Whether a half-edge can be collapsed.
ghost use Rattle.std.specs.Prelude.{◌≡◌, ◌==◌, ◌*◌, ◌<◌, ℕ, count_by, IsTrue, ◌↔◌, ◌⊎◌, false, true, get_or, length};
ghost use Rattle.std.specs.List.{All};
ghost use Rattle.chain_terms.specs.Chains.{all_edges, dir};
ghost use Rattle.mesh_tidy.specs.Neighbours.{AreNeighboursMarked, MeetOnly, are_single, ends_at, meets_another};
ghost use Rattle.mesh_tidy.specs.TidySurface.{Has, left_of, number_of};
ghost use Rattle.tidy_terms.specs.Collapsible.{is_collapsible};

use crate::surface::TidySurface;
use mb_base::Point;

impl TidySurface {
    /// Whether the half-edge can be collapsed. `met` has a mark for each vertex, none of them set, before and after.
    pub fn can_collapse(&self, points: &[Point], half: u32, met: &mut [bool]) -> bool
        requires points { length points.now ≡ self.now.vertices }
        requires has { Has self.now half }
        requires marks { length met.old ≡ self.now.vertices }
        requires unmarked { All (λ mark. mark ≡ false) met.old }
        ensures value { result ≡ is_collapsible points.now (left_of self.now) (number_of self.now half) }
        ensures marks { met.new ≡ met.old }
    {
        // Read so that what the type of the surface keeps is known here.
        let _ = self.vertices();
        let a = self.start(half);
        let b = self.end(half);
        let c = self.third(half);
        let d = self.third(self.twin(half));
        if points[a as usize] != points[b as usize] {
            return false;
        }
        if c == d || !self.are_single([a, b], [c, d]) {
            return false;
        }
        self.are_joined_only_by([a, b], [c, d], met)
    }

    /// Drops from the vertex's star the half-edges that are gone.
    pub fn prune(&mut self, vertex: u32)
        requires { vertex < self.old.vertices }
        ensures { self.new ≡ self.old }
    {
        self.stars.prune(vertex, &self.left);
    }

    // The half-edges of the vertex's star: those that are left run from it as often as its edges do.
    fn star(&self, vertex: u32) -> &[u32]
        requires { vertex < self.now.vertices }
        ensures within { All (λ h. h < 3 * length self.now.triples) result.now }
        ensures counts { (w : ℕ) → dir (all_edges (left_of self.now)) vertex w ≡ count_by (ends_at self.now w) result.now }
    {
        self.stars.star(vertex)
    }

    // Whether one edge runs from the first end to the second, and one from each to each of the thirds.
    fn are_single(&self, ends: [u32; 2], thirds: [u32; 2]) -> bool
        requires first { get_or ends 0 0 < self.now.vertices }
        requires second { get_or ends 1 0 < self.now.vertices }
        ensures { result ≡ are_single (all_edges (left_of self.now)) (get_or ends 0 0) (get_or ends 1 0) (get_or thirds 0 0) (get_or thirds 1 0) }
    {
        self.is_single(ends[0], ends[1])
            && self.is_single(ends[0], thirds[0])
            && self.is_single(ends[0], thirds[1])
            && self.is_single(ends[1], thirds[0])
            && self.is_single(ends[1], thirds[1])
    }

    // Whether just one half-edge runs from one vertex to the other.
    fn is_single(&self, from: u32, to: u32) -> bool
        requires { from < self.now.vertices }
        ensures { result ≡ (dir (all_edges (left_of self.now)) from to == 1) }
    {
        self.edges_between(from, to) == 1
    }

    // How many half-edges run from one vertex to the other.
    fn edges_between(&self, from: u32, to: u32) -> usize
        requires { from < self.now.vertices }
        ensures { result ≡ dir (all_edges (left_of self.now)) from to }
    {
        let mut edges = 0;
        for half in self.star(from) {
            if self.has(*half) && self.end(*half) == to {
                edges += 1;
            }
        }
        edges
    }

    // Whether no vertex but the two thirds is joined to both ends.
    fn are_joined_only_by(&self, ends: [u32; 2], thirds: [u32; 2], met: &mut [bool]) -> bool
        requires first { get_or ends 0 0 < self.now.vertices }
        requires second { get_or ends 1 0 < self.now.vertices }
        requires marks { length met.old ≡ self.now.vertices }
        requires unmarked { All (λ mark. mark ≡ false) met.old }
        ensures only { IsTrue result ↔ MeetOnly (all_edges (left_of self.now)) (get_or ends 0 0) (get_or ends 1 0) (get_or thirds 0 0) (get_or thirds 1 0) }
        ensures marks { met.new ≡ met.old }
    {
        // Read so that what the type of the surface keeps is known here.
        let _ = self.vertices();
        self.mark_neighbours(ends[0], met, true);
        let only = self.meets_only(ends[1], thirds, met);
        self.mark_neighbours(ends[0], met, false);
        only
    }

    // Sets or takes away the marks of the vertices that are joined to this one.
    fn mark_neighbours(&self, vertex: u32, met: &mut [bool], mark: bool)
        requires vertex { vertex < self.now.vertices }
        requires marks { length met.old ≡ self.now.vertices }
        ensures { AreNeighboursMarked (all_edges (left_of self.now)) vertex mark met.old met.new }
    {
        for half in self.star(vertex) {
            if self.has(*half) {
                met[self.end(*half) as usize] = mark;
            }
        }
    }

    // Whether of the vertices that are joined to this one none but the two thirds has a mark.
    fn meets_only(&self, vertex: u32, thirds: [u32; 2], met: &[bool]) -> bool
        requires vertex { vertex < self.now.vertices }
        requires marks { length met.now ≡ self.now.vertices }
        ensures { IsTrue result ↔ ((v : ℕ) → 0 < dir (all_edges (left_of self.now)) vertex v → get_or met.now v false ≡ true → (v ≡ get_or thirds 0 0) ⊎ (v ≡ get_or thirds 1 0)) }
    {
        for half in self.star(vertex) {
            if self.meets_another(*half, thirds, met) {
                return false;
            }
        }
        true
    }

    // Whether the half-edge is left, and ends at a vertex that has a mark and is none of the two thirds.
    fn meets_another(&self, half: u32, thirds: [u32; 2], met: &[bool]) -> bool
        requires half { half < 3 * length self.now.triples }
        requires marks { length met.now ≡ self.now.vertices }
        ensures { result ≡ meets_another self.now met.now (get_or thirds 0 0) (get_or thirds 1 0) half }
    {
        if !self.has(half) {
            return false;
        }
        let end = self.end(half);
        met[end as usize] && end != thirds[0] && end != thirds[1]
    }
}
