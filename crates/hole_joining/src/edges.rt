// The edges of loops.
ghost use Rattle.std.specs.Prelude.{◌≡◌, ◌∷◌, ◌++◌, OnOk};
ghost use Rattle.chain_terms.specs.Paths.{round_edges};
ghost use Rattle.hole_joining.specs.Bridges.{edges_of};

use crate::places::Places;
use mb_base::NoMemory;

/// Adds the edges of loops, each once round.
pub fn push_edges(edges: &mut Vec<(u32, u32)>, loops: &[Places]) -> Result<(), NoMemory>
    ensures { OnOk result (edges.new.items ≡ edges.old.items ++ edges_of loops.now) }
{
    for one in loops {
        push_round(edges, &one.places)?;
    }
    Ok(())
}

// Adds the edges once round a loop.
fn push_round(edges: &mut Vec<(u32, u32)>, ring: &[u32]) -> Result<(), NoMemory>
    ensures { OnOk result (edges.new.items ≡ edges.old.items ++ round_edges ring.now) }
{
    match ring.split_first() {
        None => Ok(()),
        Some((first, rest)) => push_round_from(edges, *first, rest),
    }
}

// The same of a loop of a first vertex and others.
fn push_round_from(edges: &mut Vec<(u32, u32)>, first: u32, rest: &[u32]) -> Result<(), NoMemory>
    ensures { OnOk result (edges.new.items ≡ edges.old.items ++ round_edges (first ∷ rest.now)) }
{
    let mut last = first;
    for vertex in rest {
        edges.push((last, *vertex))?;
        last = *vertex;
    }
    edges.push((last, first))?;
    Ok(())
}
