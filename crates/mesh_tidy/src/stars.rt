// Stars: by vertex, a list of half-edges.
ghost use Rattle.std.specs.Prelude.{◌≡◌, ◌≢◌, ◌≤◌, ◌<◌, ◌*◌, ◌∷◌, ◌++◌, [], IfOk, OnErr, OnOk, filter, length, get_or, set};
ghost use Rattle.std.specs.List.{All};
ghost use Rattle.chain_terms.specs.Chains.{all_edges};
ghost use Rattle.mesh_terms.specs.Limits.{most_triangles};
ghost use Rattle.mesh_terms.specs.Meshes.{IsBelow, triples_of};
ghost use Rattle.mesh_tidy.specs.Stars.{is_left, stars_of};

use halfedge::halves::start;
use mb_base::NoMemory;
use std::alloc::Global;
use std::marker::Model;
use std::mem;

/// For each vertex a list of half-edges.
#[derive(Drop)]
pub struct Stars {
    lists: Vec<Vec<u32>>,
}

impl Model for Stars {
    ghost use Rattle.std.specs.Prelude.{ℕ, ℕ, List, map};

    ghost Value = { List (List ℕ) };

    ghost view = { λ s. map (λ v. v.items) s.lists.items };
}

impl Stars {
    /// For each of so many vertices the half-edges of the triangles that start there.
    pub fn of(alloc: Global, triples: &[[u32; 3]], vertices: usize) -> Result<Stars, NoMemory>
        requires few { length triples.now ≤ most_triangles }
        requires below { All (IsBelow vertices) (triples_of triples.now) }
        ensures { IfOk result (λ stars. stars ≡ stars_of vertices (all_edges (triples_of triples.now))) }
    {
        let mut stars = Stars::empty(alloc, vertices)?;
        for half in 0..3 * triples.len() as u32 {
            stars.push(start(triples, half), half)?;
        }
        Ok(stars)
    }

    // For each of so many vertices none.
    fn empty(alloc: Global, vertices: usize) -> Result<Stars, NoMemory>
        ensures { IfOk result (λ stars. stars ≡ stars_of vertices []) }
    {
        let mut lists = Vec::with_capacity(alloc, vertices)?;
        while lists.len() < vertices {
            lists.push(Vec::new(alloc))?;
        }
        Ok(Stars { lists })
    }

    // Adds the half-edge to those of the vertex.
    fn push(&mut self, vertex: u32, half: u32) -> Result<(), NoMemory>
        requires { vertex < length self.old }
        ensures { OnOk result (self.new ≡ set self.old vertex (get_or self.old vertex [] ++ half ∷ [])) }
    {
        self.lists[vertex as usize].push(half)?;
        Ok(())
    }

    /// How many vertices there are.
    pub fn len(&self) -> usize
        ensures { result ≡ length self.now }
    {
        self.lists.len()
    }

    /// The half-edges of the vertex.
    pub fn star(&self, vertex: u32) -> &[u32]
        requires { vertex < length self.now }
        ensures { result.now ≡ get_or self.now vertex [] }
    {
        &self.lists[vertex as usize]
    }

    /// Drops the vertex's half-edges whose triangles have no mark.
    pub fn prune(&mut self, vertex: u32, left: &[bool])
        requires { vertex < length self.old }
        ensures { self.new ≡ set self.old vertex (filter (is_left left.now) (get_or self.old vertex [])) }
    {
        self.lists[vertex as usize].retain(|half| is_left(left, *half));
    }

    /// Puts the second vertex's half-edges behind the first one's. After want of memory nothing is changed.
    pub fn join(&mut self, alloc: Global, first: u32, second: u32) -> Result<(), NoMemory>
        requires first { first < length self.old }
        requires second { second < length self.old }
        requires apart { first ≢ second }
        ensures joined { OnOk result (self.new ≡ set (set self.old second []) first (get_or self.old first [] ++ get_or self.old second [])) }
        ensures kept { OnErr result (self.new ≡ self.old) }
    {
        let count = self.lists[second as usize].len();
        self.lists[first as usize].reserve(count)?;
        let moved = mem::replace(&mut self.lists[second as usize], Vec::new(alloc));
        self.lists[first as usize].extend_from_slice(&moved)?;
        Ok(())
    }
}

// Whether the triangle of the half-edge has a mark.
fn is_left(left: &[bool], half: u32) -> bool
    ensures { result ≡ is_left left.now half }
{
    match left.get(half as usize / 3) {
        Some(mark) => *mark,
        None => false,
    }
}
