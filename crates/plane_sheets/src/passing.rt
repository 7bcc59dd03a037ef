// Edges that may cross the rays from beside edges.
ghost use Rattle.std.specs.Prelude.{◌≡◌, ◌<◌, ◌≤◌, ℕ, List, IfOk, IfSome, OnOk, get_or, length, map};
ghost use Rattle.std.specs.List.{All};
ghost use Rattle.std.specs.List.Sorted.{IsPermutation};
ghost use Rattle.box_tree.specs.Touching.{IsBox, touching_numbers};
ghost use Rattle.chain_terms.specs.Sums.{upto};
ghost use Rattle.face_plane.specs.Planes.{Plane};
ghost use Rattle.plane_sheets.specs.Seen.{seen_in};
ghost use Rattle.plane_chains.specs.EdgeBoxes.{pair_of};
ghost use Rattle.plane_sheets.specs.Boxed.{HasEdges, height_at, shadow_of, shadows_of};

use box_tree::{MOST_BOXES, Tree};
use face_plane::FlatPoint;
use mb_base::{Box3, NoMemory};
use plane_chains::FlatPlaces;
use std::alloc::Global;

/// So many edges are looked at one by one.
const FEW: usize = 16;

/// The edges of a chain, and those that were found last, with the doubled height for which they were.
#[derive(Drop)]
pub struct Passing {
    tree: Option<Tree>,
    height: i64,
    pub near: Vec<u32>,
}

impl Passing {
    /// The edges of a chain, all of which are found at first.
    pub fn of(alloc: Global, flat: FlatPlaces, edges: &[[u32; 2]]) -> Result<Passing, NoMemory>
        requires places { All (λ e. All (λ v. v < length flat.points.now) e) edges.now }
        requires few { length edges.now ≤ MOST_BOXES }
        ensures { IfOk result (HasEdges (seen_in flat.entry) (map pair_of edges.now)) }
    {
        let tree = tree_over(alloc, flat, edges)?;
        let near = all_numbers(alloc, edges.len())?;
        Ok(Passing {
            tree,
            height: 0,
            near,
        })
    }

    /// Finds edges, each once, all that cross a ray from beside an edge the middle of which has this doubled height among them.
    /// They stay where they were found for that height last.
    pub fn find(&mut self, height: i64) -> Result<(), NoMemory>
        ensures edges { OnOk result ((at : Plane) (es : List (ℕ × ℕ)) → HasEdges at es self.old → HasEdges at es self.new) }
        ensures height { OnOk result (self.new.height ≡ height) }
    {
        if self.height == height {
            return Ok(());
        }
        self.height = height;
        match &self.tree {
            Some(tree) => find_all(&mut self.near, tree, at_height(height)),
            None => Ok(()),
        }
    }
}

// The tree over the boxes of edges, if they are many.
fn tree_over(alloc: Global, flat: FlatPlaces, edges: &[[u32; 2]]) -> Result<Option<Tree>, NoMemory>
    requires places { All (λ e. All (λ v. v < length flat.points.now) e) edges.now }
    requires few { length edges.now ≤ MOST_BOXES }
    ensures { IfOk result (λ tree. IfSome tree (λ t. t ≡ shadows_of (seen_in flat.entry) (map pair_of edges.now))) }
{
    if edges.len() <= FEW {
        return Ok(None);
    }
    let boxes = shadows(alloc, flat, edges)?;
    Ok(Some(Tree::build(alloc, &boxes)?))
}

// Makes a list of the numbers of the boxes that touch an area.
fn find_all(near: &mut Vec<u32>, tree: &Tree, area: Box3) -> Result<(), NoMemory>
    ensures { OnOk result (IsPermutation (touching_numbers tree.now area) near.new.items) }
{
    near.clear();
    for number in tree.touching(area) {
        near.push(number)?;
    }
    Ok(())
}

// The numbers below a count.
fn all_numbers(alloc: Global, count: usize) -> Result<Vec<u32>, NoMemory>
    requires { count ≤ MOST_BOXES }
    ensures { IfOk result (λ numbers. numbers.items ≡ upto count) }
{
    let mut numbers = Vec::with_capacity(alloc, count)?;
    for number in 0..count {
        numbers.push(number as u32)?;
    }
    Ok(numbers)
}

// The boxes of edges.
fn shadows(alloc: Global, flat: FlatPlaces, edges: &[[u32; 2]]) -> Result<Vec<Box3>, NoMemory>
    requires { All (λ e. All (λ v. v < length flat.points.now) e) edges.now }
    ensures value { IfOk result (λ boxes. boxes.items ≡ shadows_of (seen_in flat.entry) (map pair_of edges.now)) }
    ensures boxes { IfOk result (λ boxes. All IsBox boxes.items) }
{
    let mut boxes = Vec::with_capacity(alloc, edges.len())?;
    for [from, to] in edges {
        boxes.push(shadow(flat.at(*from), flat.at(*to)))?;
    }
    Ok(boxes)
}

// The heights of a segment, doubled, as a box. A ray along u that begins at no such height doesn't meet it.
fn shadow(p: FlatPoint, q: FlatPoint) -> Box3
    ensures value { result ≡ shadow_of p q }
    ensures is_box { IsBox result }
{
    Box3 {
        low: [2 * p.v().min(q.v()), 0, 0],
        high: [2 * p.v().max(q.v()), 0, 0],
    }
}

// A height as a box.
fn at_height(height: i64) -> Box3
    ensures { result ≡ height_at height }
{
    let at = [height, 0, 0];
    Box3 { low: at, high: at }
}
