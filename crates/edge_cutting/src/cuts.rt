// The edges that are cut, and rims.
ghost use Rattle.std.specs.Prelude.{◌≡◌, ◌≤◌, ◌||◌, ◌++◌, ◌∷◌, IfOk, IfSome, OnOk, length, map, nat_lt, reverse, true};
ghost use Rattle.std.specs.List.{All};
ghost use Rattle.chain_terms.specs.Chains.{IsClosed, all_edges};
ghost use Rattle.edge_cutting.specs.Cut.{HasRims, cut_rim, places_between, places_from};
ghost use Rattle.edge_cutting.specs.Edges.{IsUpBelow, pair_of};
ghost use Rattle.edge_cutting.specs.Inside.{AreApart};
ghost use Rattle.edge_cutting.specs.Pieces.{AreGathered};
ghost use Rattle.mesh_terms.specs.Meshes.{IsBelow, triple_of, triples_of};
ghost use Rattle.sheet_terms.specs.Places.{has_three};

use crate::edges::long_edges;
use crate::pieces::Pieces;
use crate::place_boxes::tree_over;
use box_tree::MOST_BOXES;
use mb_base::{NoMemory, Point};
use std::alloc::Global;
use std::marker::Model;

/// The edges that have places inside them, each from its lesser place to its greater one, with these places from the one to the other.
#[derive(Drop)]
pub struct Cuts {
    pieces: Pieces,
}

impl Model for Cuts {
    ghost use Rattle.std.specs.Prelude.{◌≡◌, length};
    ghost use Rattle.places_by_key.specs.Buckets.{AreEnds};
    ghost use Rattle.edge_cutting.specs.Cut.{CutEdges};
    ghost use Rattle.edge_cutting.specs.Pieces.{gathered};

    ghost Value = { CutEdges };

    ghost view = { λ c. gathered c.pieces };

    ghost invariant = { λ c. AreEnds c.pieces.ends.items (length c.pieces.inside.items) × (length c.pieces.ends.items ≡ length c.pieces.edges.keys) };
}

impl Cuts {
    /// The cut edges of closed triangles over places. None where more places than so many lie inside edges, or there are more places than a tree can hold.
    pub fn of(
        alloc: Global,
        points: &[Point],
        triples: &[[u32; 3]],
        most: usize,
    ) -> Result<Option<Cuts>, NoMemory>
        requires below { All (IsBelow (length points.now)) (triples_of triples.now) }
        requires three { All (λ t. has_three t ≡ true) (triples_of triples.now) }
        requires closed { IsClosed (all_edges (triples_of triples.now)) }
        requires apart { AreApart points.now }
        ensures { IfOk result (λ cuts. IfSome cuts (HasRims points.now (triples_of triples.now))) }
    {
        if points.len() > MOST_BOXES {
            return Ok(None);
        }
        let long = long_edges(alloc, points, triples)?;
        match gathered(alloc, points, &long, most)? {
            Some(pieces) => Ok(Some(Cuts { pieces })),
            None => Ok(None),
        }
    }

    // The places inside the edge that runs up from a to b.
    fn between(&self, a: u32, b: u32) -> &[u32]
        ensures { result.now ≡ places_between self.now a b }
    {
        match self.pieces.edges.get_index_of(&[a, b]) {
            Some(edge) => self.pieces.places(edge),
            None => &[],
        }
    }

    /// Whether an edge of the triangle is cut.
    pub fn has_cut(&self, triple: [u32; 3]) -> bool
        ensures { result ≡ nat_lt 3 (length (cut_rim self.now (triple_of triple))) }
    {
        if self.pieces.edges.is_empty() {
            return false;
        }
        let [a, b, c] = triple;
        any_of(self.cuts(a, b), self.cuts(b, c), self.cuts(c, a))
    }

    // Whether the edge between two places is cut.
    fn cuts(&self, a: u32, b: u32) -> bool
        ensures { result ≡ nat_lt 0 (length (places_from self.now a b)) }
    {
        if a < b {
            return has_some(self.between(a, b));
        }
        has_some(self.between(b, a))
    }

    /// Adds the rim of a triangle: its corners and the places inside its edges, in order from the first corner.
    pub fn push_rim(&self, rim: &mut Vec<u32>, triple: [u32; 3]) -> Result<(), NoMemory>
        ensures { OnOk result (rim.new.items ≡ rim.old.items ++ cut_rim self.now (triple_of triple)) }
    {
        let [a, b, c] = triple;
        self.push_edge(rim, a, b)?;
        self.push_edge(rim, b, c)?;
        self.push_edge(rim, c, a)?;
        Ok(())
    }

    // Adds a place, and those inside the edge from it to another.
    fn push_edge(&self, rim: &mut Vec<u32>, a: u32, b: u32) -> Result<(), NoMemory>
        ensures { OnOk result (rim.new.items ≡ rim.old.items ++ a ∷ places_from self.now a b) }
    {
        rim.push(a)?;
        if a < b {
            rim.extend_from_slice(self.between(a, b))?;
            return Ok(());
        }
        push_back(rim, self.between(b, a))?;
        Ok(())
    }
}

// The places inside these edges, each of which runs up. None where there are more than so many.
fn gathered(
    alloc: Global,
    points: &[Point],
    long: &[[u32; 2]],
    most: usize,
) -> Result<Option<Pieces>, NoMemory>
    requires few { length points.now ≤ 300000000 }
    requires apart { AreApart points.now }
    requires up { All (IsUpBelow (length points.now)) (map pair_of long.now) }
    ensures { IfOk result (λ pieces. IfSome pieces (AreGathered points.now (map pair_of long.now))) }
{
    let mut pieces = Pieces::none(alloc);
    if long.is_empty() {
        return Ok(Some(pieces));
    }
    let tree = tree_over(alloc, points)?;
    if pieces.cut_all(alloc, &tree, points, long, most)? {
        return Ok(Some(pieces));
    }
    Ok(None)
}

// Whether one of three holds.
fn any_of(a: bool, b: bool, c: bool) -> bool
    ensures { result ≡ (a || b || c) }
{
    a || b || c
}

// Whether there are places.
fn has_some(places: &[u32]) -> bool
    ensures { result ≡ nat_lt 0 (length places.now) }
{
    !places.is_empty()
}

// Adds the places of a list, the last one first.
fn push_back(rim: &mut Vec<u32>, places: &[u32]) -> Result<(), NoMemory>
    ensures { OnOk result (rim.new.items ≡ rim.old.items ++ reverse places.now) }
{
    for i in 0..places.len() {
        rim.push(places[places.len() - 1 - i])?;
    }
    Ok(())
}
