// Cut edges as they are gathered.
ghost use Rattle.std.specs.Prelude.{◌≡◌, ◌<◌, ◌++◌, ◌∷◌, [], ℕ, List, IfOk, OnOk, true, length, map, nat_eq};
ghost use Rattle.std.specs.Cmp.Lexicographic.{pointwise};
ghost use Rattle.std.specs.List.{All};
ghost use Rattle.edge_cutting.specs.Boxes.{point_box};
ghost use Rattle.edge_cutting.specs.Edges.{IsUpBelow, pair_of};
ghost use Rattle.edge_cutting.specs.Inside.{AreApart};
ghost use Rattle.edge_cutting.specs.Pieces.{AreGathered};
ghost use Rattle.indexmap.specs.IndexSet.{insert_key};
ghost use Rattle.places_by_key.specs.Buckets.{AreEnds, begin_of, part};

use crate::inside::find;
use box_tree::Tree;
use indexmap::IndexSet;
use mb_base::{NoMemory, Point};
use std::alloc::Global;

/// Edges, and for each the places inside it, one list behind the other, with where each list ends.
#[derive(Drop)]
pub struct Pieces {
    pub edges: IndexSet<[u32; 2]>,
    pub ends: Vec<usize>,
    pub inside: Vec<u32>,
}

impl Pieces {
    /// No edges.
    pub fn none(alloc: Global) -> Pieces
        ensures edges { result.edges.keys ≡ [] }
        ensures ends { result.ends.items ≡ [] }
        ensures inside { result.inside.items ≡ [] }
    {
        Pieces {
            edges: IndexSet::new(alloc),
            ends: Vec::new(alloc),
            inside: Vec::new(alloc),
        }
    }

    /// Cuts edges, one after the other. False where more than so many places lie inside them.
    pub fn cut_all(
        &mut self,
        alloc: Global,
        tree: &Tree,
        points: &[Point],
        long: &[[u32; 2]],
        most: usize,
    ) -> Result<bool, NoMemory>
        requires tree { tree.now ≡ map point_box points.now }
        requires apart { AreApart points.now }
        requires up { All (IsUpBelow (length points.now)) (map pair_of long.now) }
        requires none { AreGathered points.now [] self.old }
        ensures { IfOk result (λ all. all ≡ true → AreGathered points.now (map pair_of long.now) self.new) }
    {
        let mut near = Vec::new(alloc);
        for edge in long {
            self.cut(alloc, &mut near, tree, points, edge[0], edge[1])?;
            if self.inside.len() > most {
                return Ok(false);
            }
        }
        Ok(true)
    }

    // Cuts the edge that runs up from a to b where places lie inside it.
    fn cut(
        &mut self,
        alloc: Global,
        near: &mut Vec<u32>,
        tree: &Tree,
        points: &[Point],
        a: u32,
        b: u32,
    ) -> Result<(), NoMemory>
        requires tree { tree.now ≡ map point_box points.now }
        requires apart { AreApart points.now }
        requires up { IsUpBelow (length points.now) (a, b) }
        ensures { OnOk result ((seen : List (ℕ × ℕ)) → AreGathered points.now seen self.old → AreGathered points.now (seen ++ (a, b) ∷ []) self.new) }
    {
        if self.edges.contains(&[a, b]) {
            return Ok(());
        }
        let found = find(alloc, near, tree, points, a, b)?;
        if found.is_empty() {
            return Ok(());
        }
        self.add([a, b], &found)?;
        Ok(())
    }

    // Adds an edge with places.
    fn add(&mut self, edge: [u32; 2], found: &[(u64, u32)]) -> Result<(), NoMemory>
        ensures edges { OnOk result (self.new.edges.keys ≡ insert_key (pointwise nat_eq) self.old.edges.keys edge) }
        ensures ends { OnOk result (self.new.ends.items ≡ self.old.ends.items ++ length self.new.inside.items ∷ []) }
        ensures inside { OnOk result (self.new.inside.items ≡ self.old.inside.items ++ map (λ f. f.1) found.now) }
    {
        self.edges.insert(edge)?;
        push_places(&mut self.inside, found)?;
        self.ends.push(self.inside.len())?;
        Ok(())
    }

    /// The places of the edge with a number.
    pub fn places(&self, edge: usize) -> &[u32]
        requires ends { AreEnds self.now.ends.items (length self.now.inside.items) }
        requires edge { edge < length self.now.ends.items }
        ensures { result.now ≡ part self.now.ends.items self.now.inside.items edge }
    {
        &self.inside[begin(&self.ends, edge)..self.ends[edge]]
    }
}

// Where the list with a number begins.
fn begin(ends: &[usize], list: usize) -> usize
    requires { list < length ends.now }
    ensures { result ≡ begin_of ends.now list }
{
    if list == 0 {
        return 0;
    }
    ends[list - 1]
}

// Adds places without how far they lie.
fn push_places(inside: &mut Vec<u32>, found: &[(u64, u32)]) -> Result<(), NoMemory>
    ensures { OnOk result (inside.new.items ≡ inside.old.items ++ map (λ f. f.1) found.now) }
{
    for (_, place) in found {
        inside.push(*place)?;
    }
    Ok(())
}
