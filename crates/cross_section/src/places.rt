// At which edges vertices are.
ghost use Rattle.std.specs.Prelude.{◌≡◌, ◌≤◌, IfOk, length, map};
ghost use Rattle.std.specs.List.{All};
ghost use Rattle.chain_terms.specs.Sums.{upto};
ghost use Rattle.outline_terms.specs.Outlines.{IsBetween, most_vertices};
ghost use Rattle.cross_section.specs.Copies.{entering, leaving};

use mb_base::NoMemory;
use std::alloc::Global;

/// Of each vertex the place of the first edge that starts at it, and of the first that ends there. Where there is none it is
/// the number of edges.
#[derive(Drop)]
pub struct VertexEdges {
    pub leaving: Vec<u32>,
    pub entering: Vec<u32>,
}

/// The places of so many vertices on edges.
pub fn places_on(alloc: Global, edges: &[(u32, u32)], count: usize) -> Result<VertexEdges, NoMemory>
    requires between { All (IsBetween count) edges.now }
    requires few { length edges.now ≤ most_vertices }
    ensures leaving { IfOk result (λ p. p.leaving.items ≡ map (leaving edges.now) (upto count)) }
    ensures entering { IfOk result (λ p. p.entering.items ≡ map (entering edges.now) (upto count)) }
{
    let leaving = all_leaving(alloc, edges, count)?;
    let entering = all_entering(alloc, edges, count)?;
    Ok(VertexEdges { leaving, entering })
}

// Of so many vertices the place of the first edge that starts at each.
fn all_leaving(alloc: Global, edges: &[(u32, u32)], count: usize) -> Result<Vec<u32>, NoMemory>
    requires between { All (IsBetween count) edges.now }
    requires few { length edges.now ≤ most_vertices }
    ensures { IfOk result (λ places. places.items ≡ map (leaving edges.now) (upto count)) }
{
    let mut places = vec![in alloc; edges.len() as u32; count]?;
    for k in (0..edges.len()).rev() {
        let (from, _) = edges[k];
        places[from as usize] = k as u32;
    }
    Ok(places)
}

// Of so many vertices the place of the first edge that ends at each.
fn all_entering(alloc: Global, edges: &[(u32, u32)], count: usize) -> Result<Vec<u32>, NoMemory>
    requires between { All (IsBetween count) edges.now }
    requires few { length edges.now ≤ most_vertices }
    ensures { IfOk result (λ places. places.items ≡ map (entering edges.now) (upto count)) }
{
    let mut places = vec![in alloc; edges.len() as u32; count]?;
    for k in (0..edges.len()).rev() {
        let (_, to) = edges[k];
        places[to as usize] = k as u32;
    }
    Ok(places)
}
