// Boundaries of rims and walks compared.
ghost use Rattle.std.specs.Prelude.{◌≡◌, ◌≤◌, ◌++◌, ◌∷◌, [], IfOk, IsSorted, OnOk, drop, false, length, not};
ghost use Rattle.std.specs.List.{flat_map};
ghost use Rattle.std.specs.List.Sorted.{IsPermutation};
ghost use Rattle.chain_terms.specs.Paths.{round_edges};
ghost use Rattle.sheet_terms.specs.Filled.{same_boundary};
ghost use Rattle.plane_remesh.specs.Rising.{rising};

use mb_base::NoMemory;
use plane_chains::Rims;
use std::alloc::Global;

/// Whether the walks from one on run along each edge as often as the rims, less how often they run back. That is so where of the edges of the rims, and of the walks
/// the other way, as many lead each way between two places: those that lead to the greater one and those that lead back are sorted and compared.
pub fn have_same_boundary(
    alloc: Global,
    rims: &Rims,
    walks: &Rims,
    first: usize,
) -> Result<bool, NoMemory>
    requires { first ≤ length walks.now.0 }
    ensures { IfOk result (λ same. same ≡ same_boundary (flat_map round_edges (drop first walks.now.0)) (flat_map round_edges rims.now.0)) }
{
    let ups = sorted_edges(alloc, rims, walks, first, false)?;
    let downs = sorted_edges(alloc, rims, walks, first, true)?;
    Ok(ups == downs)
}

// Of the edges of rims, and of the walks from one on the other way, or all turned, those that lead to a greater place; sorted.
fn sorted_edges(
    alloc: Global,
    rims: &Rims,
    walks: &Rims,
    first: usize,
    turned: bool,
) -> Result<Vec<(u32, u32)>, NoMemory>
    requires { first ≤ length walks.now.0 }
    ensures moved { IfOk result (λ all. IsPermutation
        (rising turned (flat_map round_edges rims.now.0) ++ rising (not turned) (flat_map round_edges (drop first walks.now.0))) all.items) }
    ensures sorted { IfOk result (λ all. IsSorted ⟦<(u32, u32) as Ord>⟧.cmp all.items) }
{
    let mut all = Vec::new(alloc);
    push_rounds(&mut all, rims, 0, turned)?;
    push_rounds(&mut all, walks, first, !turned)?;
    all.sort_unstable();
    Ok(all)
}

// Adds the edges round lists from one on, or all turned, that lead to a greater place.
fn push_rounds(
    out: &mut Vec<(u32, u32)>,
    lists: &Rims,
    first: usize,
    turned: bool,
) -> Result<(), NoMemory>
    requires { first ≤ length lists.now.0 }
    ensures { OnOk result (out.new.items ≡ out.old.items ++ rising turned (flat_map round_edges (drop first lists.now.0))) }
{
    for i in first..lists.len() {
        push_round(out, lists.rim(i), turned)?;
    }
    Ok(())
}

// Adds the edges round a list of places, or all turned, that lead to a greater place.
fn push_round(out: &mut Vec<(u32, u32)>, places: &[u32], turned: bool) -> Result<(), NoMemory>
    ensures { OnOk result (out.new.items ≡ out.old.items ++ rising turned (round_edges places.now)) }
{
    if places.is_empty() {
        return Ok(());
    }
    let mut from = places[0];
    for to in &places[1..] {
        push_edge(out, from, *to, turned)?;
        from = *to;
    }
    push_edge(out, from, places[0], turned)
}

// Adds an edge, or the same turned, where it leads to a greater place.
fn push_edge(out: &mut Vec<(u32, u32)>, from: u32, to: u32, turned: bool) -> Result<(), NoMemory>
    ensures { OnOk result (out.new.items ≡ out.old.items ++ rising turned ((from, to) ∷ [])) }
{
    if turned {
        push_rising(out, to, from)
    } else {
        push_rising(out, from, to)
    }
}

// Adds an edge where it leads to a greater place.
fn push_rising(out: &mut Vec<(u32, u32)>, from: u32, to: u32) -> Result<(), NoMemory>
    ensures { OnOk result (out.new.items ≡ out.old.items ++ rising false ((from, to) ∷ [])) }
{
    if from >= to {
        return Ok(());
    }
    out.push((from, to))?;
    Ok(())
}
