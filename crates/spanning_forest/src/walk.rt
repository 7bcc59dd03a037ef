// The walk from vertices to all that are joined to them.
ghost use Rattle.std.specs.Prelude.{◌≡◌, ◌<◌, ◌≤◌, ◌*◌, OnOk, length, map};
ghost use Rattle.std.specs.List.{All, Contains};
ghost use Rattle.chain_terms.specs.Chains.{all_edges};
ghost use Rattle.chain_terms.specs.Ranks.{start, finish};
ghost use Rattle.chain_terms.specs.Sums.{upto};
ghost use Rattle.places_by_key.specs.Buckets.{places_of};
ghost use Rattle.mesh_terms.specs.Meshes.{triples_of, IsBelow};
ghost use Rattle.spanning_forest.specs.Forests.{entered, vertices_of};
ghost use Rattle.spanning_forest.specs.Walks.{starts_of, AreAllEntered, AreEntered, AreLeft, AreReached, AreWhole, IsComponentEntered, IsUnmarked, Lies};

use crate::entrance::Entrance;
use mb_base::NoMemory;
use places_by_key::Buckets;

/// Enters the vertex, which has no mark, as a root, and after it all that are joined to it. The half-edges are given by
/// the vertices at which they start.
pub fn enter_component(
    triples: &[[u32; 3]],
    spokes: &Buckets,
    seen: &mut [bool],
    entrances: &mut Vec<Entrance>,
    root: u32,
) -> Result<(), NoMemory>
    requires spokes { spokes.now ≡ map (places_of (starts_of (all_edges (triples_of triples.now)))) (upto (length seen.old)) }
    requires below { All (IsBelow (length seen.old)) (triples_of triples.now) }
    requires root { root < length seen.old }
    requires unmarked { IsUnmarked seen.old root }
    requires whole { AreWhole (all_edges (triples_of triples.now)) seen.old }
    requires entered { AreEntered (all_edges (triples_of triples.now)) seen.old entrances.old.items }
    ensures { OnOk result (IsComponentEntered (all_edges (triples_of triples.now)) root seen.old entrances.old.items seen.new entrances.new.items) }
{
    let next = entrances.len();
    seen[root as usize] = true;
    entrances.push(Entrance::Root(root))?;
    leave_all(triples, spokes, seen, entrances, next)
}

/// Enters all that edges lead to from what was entered. The entrances are the queue: those before `next` have been left
/// by all their half-edges.
pub fn leave_all(
    triples: &[[u32; 3]],
    spokes: &Buckets,
    seen: &mut [bool],
    entrances: &mut Vec<Entrance>,
    next: usize,
) -> Result<(), NoMemory>
    requires spokes { spokes.now ≡ map (places_of (starts_of (all_edges (triples_of triples.now)))) (upto (length seen.old)) }
    requires below { All (IsBelow (length seen.old)) (triples_of triples.now) }
    requires next { next ≤ length entrances.old.items }
    requires left { AreLeft (all_edges (triples_of triples.now)) seen.old entrances.old.items next }
    requires entered { AreEntered (all_edges (triples_of triples.now)) seen.old entrances.old.items }
    ensures { OnOk result (AreAllEntered (all_edges (triples_of triples.now)) seen.old entrances.old.items seen.new entrances.new.items) }
{
    let mut next = next;
    while next < entrances.len() {
        let vertex = entered(triples, entrances[next]);
        enter_ends(triples, spokes.bucket(vertex as usize), seen, entrances)?;
        next += 1;
    }
    Ok(())
}

// Enters the vertices at which these half-edges end, so far as they have no mark.
fn enter_ends(
    triples: &[[u32; 3]],
    halves: &[u32],
    seen: &mut [bool],
    entrances: &mut Vec<Entrance>,
) -> Result<(), NoMemory>
    requires within { All (λ h. h < 3 * length triples.now) halves.now }
    requires below { All (IsBelow (length seen.old)) (triples_of triples.now) }
    requires starts { All (λ h.
        Contains (vertices_of (all_edges (triples_of triples.now)) entrances.old.items) (start (all_edges (triples_of triples.now)) h)) halves.now }
    requires entered { AreEntered (all_edges (triples_of triples.now)) seen.old entrances.old.items }
    ensures { OnOk result (AreReached (all_edges (triples_of triples.now)) halves.now seen.old entrances.old.items seen.new entrances.new.items) }
{
    for half in halves {
        let end = end_of(triples, *half);
        if !seen[end as usize] {
            seen[end as usize] = true;
            entrances.push(Entrance::Along(*half))?;
        }
    }
    Ok(())
}

// The vertex that is entered.
fn entered(triples: &[[u32; 3]], entrance: Entrance) -> u32
    requires { Lies (all_edges (triples_of triples.now)) entrance }
    ensures { result ≡ entered (all_edges (triples_of triples.now)) entrance }
{
    match entrance {
        Entrance::Root(vertex) => vertex,
        Entrance::Along(half) => end_of(triples, half),
    }
}

// Where a half-edge ends.
fn end_of(triples: &[[u32; 3]], half: u32) -> u32
    requires { half < 3 * length triples.now }
    ensures { result ≡ finish (all_edges (triples_of triples.now)) half }
{
    let [a, b, c] = triples[half as usize / 3];
    match half % 3 {
        0 => b,
        1 => c,
        _ => a,
    }
}
