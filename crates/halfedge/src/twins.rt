// Twins of half-edges.
ghost use Rattle.std.specs.Prelude.{◌≡◌, ◌<◌, ◌≤◌, ◌*◌, ◌⊎◌, ◌↔◌, ℕ, List, IfOk, IsOk, IsErrOf, IsTrue, Some, length, map, get_or};
ghost use Rattle.std.specs.List.{All};
ghost use Rattle.chain_terms.specs.Chains.{all_edges, IsClosed};
ghost use Rattle.chain_terms.specs.Sums.{upto};
ghost use Rattle.chain_terms.specs.Ranks.{start, finish, twin, RunsBack};
ghost use Rattle.mesh_terms.specs.Limits.{most_triangles};
ghost use Rattle.mesh_terms.specs.Meshes.{HasThree, triples_of};
ghost use Rattle.mesh_terms.specs.OpenEdges.{open_pair};
ghost use Rattle.mesh_terms.specs.Halves.{next_half};
ghost use Rattle.halfedge.specs.Laws.{PairUp, GoAround, AreSingle};
ghost use Rattle.mesh_terms.specs.Twins.{IsTwinned};

mod renamed;
#[cfg(test)]
mod tests;

use crate::halves;
use crate::open_edge::least_open_edge;
use crate::pairing::paired;
use mb_base::{NoMemory, copied};
use std::alloc::{AllocError, AllocFailed, Global};
use std::marker::Model;
use std::rc::Rc;

/// Closed triangles, each with three different vertices, and the twin of each of their half-edges. A
/// clone shares both lists, and takes no memory.
#[derive(Drop)]
pub struct Twins {
    triples: Rc<Vec<[u32; 3]>>,
    twins: Rc<Vec<u32>>,
    // Whether no two half-edges run the same way.
    single: bool,
}

impl Model for Twins {
    ghost use Rattle.mesh_terms.specs.Meshes.{triples_of};
    ghost use Rattle.mesh_terms.specs.Twins.{Twins as TheTwins};
    ghost use Rattle.halfedge.specs.Twins.{IsKept};

    ghost Value = { TheTwins };

    ghost view = { λ t. record { triples = triples_of t.triples.value.items; twins = t.twins.value.items } };

    ghost invariant = { λ t. IsKept (triples_of t.triples.value.items) t.twins.value.items t.single };
}

impl Clone for Twins {
    ghost is_clone = { λ t copy. copy ≡ t };

    fn clone(&self) -> Result<Twins, AllocError> {
        Ok(Twins {
            triples: self.triples.clone()?,
            twins: self.twins.clone()?,
            single: self.single,
        })
    }
}

/// Why triangles have no twins: the least edge, by its start and then by its end, that runs more
/// often one way than back; or want of memory.
#[derive(Clone, Copy, Debug, PartialEq, Eq, Drop)]
pub enum TwinFault {
    Open { from: u32, to: u32 },
    NoMemory,
}

impl From<NoMemory> for TwinFault {
    ghost use Rattle.halfedge.specs.declared.twins.TwinFault.TheVariants.{NoMemory};

    ghost from_gives = { λ _ e. e ≡ NoMemory };

    fn from(_: NoMemory) -> Self {
        TwinFault::NoMemory
    }
}

impl<T: Drop> From<AllocFailed<T>> for TwinFault {
    ghost use Rattle.halfedge.specs.declared.twins.TwinFault.TheVariants.{NoMemory};

    ghost from_gives = { λ _ e. e ≡ NoMemory };

    fn from(_: AllocFailed<T>) -> Self {
        TwinFault::NoMemory
    }
}

impl Twins {
    /// The triangles, of which this takes a copy, with the twin of each half-edge: the k-th from a
    /// to b is the twin of the k-th from b to a. Only where the triangles are not closed, which is
    /// where some edge runs more often one way than back, the answer is `Open`, with the least such
    /// edge. `NoMemory` may come for any triangles. Half-edges are gathered by their lesser end,
    /// modulo one more than the number of triangles, and those gathered together are sorted. So the time is linear in the triangles where each vertex has few of them and no vertex
    /// number is more than a few times their number; otherwise, and to name an open edge, it is at
    /// most that of sorting all half-edges.
    pub fn of(alloc: Global, triples: &[[u32; 3]]) -> Result<Twins, TwinFault>
        requires three { All HasThree (triples_of triples.now) }
        requires few { length triples.now ≤ most_triangles }
        ensures triples { IfOk result (λ t. t.triples ≡ triples_of triples.now) }
        ensures twins { IfOk result (λ t. t.twins ≡ map (twin (all_edges (triples_of triples.now))) (upto (length (all_edges (triples_of triples.now))))) }
        ensures closed { IfOk result (λ _. IsClosed (all_edges (triples_of triples.now))) }
        ensures open { (a b : ℕ) → IsErrOf result (TwinFault.Open a b) → open_pair (all_edges (triples_of triples.now)) ≡ Some (a, b) }
        ensures accepts { IsClosed (all_edges (triples_of triples.now)) → IsOk result ⊎ IsErrOf result TwinFault.NoMemory }
    {
        let triples = copied(alloc, triples)?;
        Twins::over(alloc, triples)
    }

    /// The same of triangles that it takes over, of which it makes no copy.
    pub fn over(alloc: Global, triples: Vec<[u32; 3]>) -> Result<Twins, TwinFault>
        requires three { All HasThree (triples_of triples.items) }
        requires few { length triples.items ≤ most_triangles }
        ensures triples { IfOk result (λ t. t.triples ≡ triples_of triples.items) }
        ensures twins { IfOk result (λ t. t.twins ≡ map (twin (all_edges (triples_of triples.items))) (upto (length (all_edges (triples_of triples.items))))) }
        ensures closed { IfOk result (λ _. IsClosed (all_edges (triples_of triples.items))) }
        ensures open { (a b : ℕ) → IsErrOf result (TwinFault.Open a b) → open_pair (all_edges (triples_of triples.items)) ≡ Some (a, b) }
        ensures accepts { IsClosed (all_edges (triples_of triples.items)) → IsOk result ⊎ IsErrOf result TwinFault.NoMemory }
    {
        let (twins, single) = listed_twins(alloc, &triples)?;
        Ok(Twins {
            triples: Rc::new(alloc, triples)?,
            twins: Rc::new(alloc, twins)?,
            single,
        })
    }

    /// The triangles, each as three vertex numbers.
    pub fn triples(&self) -> &[[u32; 3]]
        ensures value { triples_of result.now ≡ self.now.triples }
        ensures twinned { IsTwinned self.now.triples self.now.twins }
    {
        self.triples.as_slice()
    }

    /// The twin of each half-edge, by the numbers of the half-edges. Beside the values the clauses say
    /// what twins keep, and what the step from a half-edge to the one after its twin keeps, which goes
    /// round the start vertex.
    pub fn twins(&self) -> &[u32]
        ensures value { result.now ≡ self.now.twins }
        ensures twinned { IsTwinned self.now.triples self.now.twins }
        ensures pairs { PairUp (all_edges self.now.triples) }
        ensures around { GoAround (all_edges self.now.triples) }
    {
        self.twins.as_slice()
    }

    /// Whether no two half-edges run the same way, from the same vertex to the same vertex.
    pub fn are_single(&self) -> bool
        ensures { IsTrue result ↔ AreSingle (all_edges self.now.triples) }
    {
        self.single
    }

    /// The half-edge that runs back from the end of half-edge h to its start, with h's place among
    /// those that run the same way.
    pub fn twin(&self, h: u32) -> u32
        requires { h < 3 * length self.now.triples }
        ensures value { result ≡ twin (all_edges self.now.triples) h }
        ensures listed { result ≡ get_or self.now.twins h 0 }
        ensures back { RunsBack (all_edges self.now.triples) h result }
    {
        self.twins()[h as usize]
    }

    /// The half-edge that follows half-edge h round its triangle.
    pub fn next(&self, h: u32) -> u32
        requires { h < 3 * length self.now.triples }
        ensures value { result ≡ next_half h }
        ensures below { result < 3 * length self.now.triples }
        ensures from { start (all_edges self.now.triples) result ≡ finish (all_edges self.now.triples) h }
    {
        // Read so that what the type keeps is known here: that the triangles are few.
        let _ = &self.triples;
        halves::next(h)
    }
}

// The twin of each half-edge, and whether no two run the same way; or the least open edge.
fn listed_twins(alloc: Global, triples: &[[u32; 3]]) -> Result<(Vec<u32>, bool), TwinFault>
    requires few { length triples.now ≤ most_triangles }
    requires three { All HasThree (triples_of triples.now) }
    ensures single { IfOk result (λ r. IsTrue r.1 ↔ AreSingle (all_edges (triples_of triples.now))) }
    ensures twins { IfOk result (λ r. r.0.items ≡ map (twin (all_edges (triples_of triples.now))) (upto (length (all_edges (triples_of triples.now))))) }
    ensures closed { IfOk result (λ _. IsClosed (all_edges (triples_of triples.now))) }
    ensures open { (a b : ℕ) → IsErrOf result (TwinFault.Open a b) → open_pair (all_edges (triples_of triples.now)) ≡ Some (a, b) }
    ensures accepts { IsClosed (all_edges (triples_of triples.now)) → IsOk result ⊎ IsErrOf result TwinFault.NoMemory }
{
    if let Some(found) = paired(alloc, triples)? {
        return Ok(found);
    }
    match least_open_edge(alloc, triples)? {
        Some((from, to)) => Err(TwinFault::Open { from, to }),
        // Triangles that are not closed have an open edge.
        None => unreachable!(),
    }
}
