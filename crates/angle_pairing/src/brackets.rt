// Brackets on a circle.
ghost use Rattle.std.specs.Prelude.{◌≡◌, ◌<◌, ◌*◌, ◌==◌, ◌++◌, ◌∷◌, ℕ, List, [], true, false, OnOk, length, get_or, slice_set};
ghost use Rattle.std.specs.List.{All, Contains};
ghost use Rattle.chain_terms.specs.Chains.{all_edges};
ghost use Rattle.chain_terms.specs.Ranks.{start};
ghost use Rattle.mesh_terms.specs.Meshes.{triples_of};
ghost use Rattle.fan_laws.specs.Circles.{AreBrackets, circle_twin};

use halfedge::halves::start;
use mb_base::NoMemory;
use std::alloc::Global;

/// Makes the half-edges round an edge twins of one another: those that start at its greater end open and the others close, as brackets on a circle do.
pub fn pair_round(
    alloc: Global,
    twins: &mut [u32],
    triples: &[[u32; 3]],
    high: u32,
    order: &[u32],
) -> Result<(), NoMemory>
    requires full { length twins.old ≡ 3 * length triples.now }
    requires halves { All (λ h. h < 3 * length triples.now) order.now }
    requires brackets { AreBrackets (λ h. start (all_edges (triples_of triples.now)) h == high) order.now }
    ensures full { length twins.new ≡ length twins.old }
    ensures pairs { OnOk result ((h : ℕ) → Contains order.now h →
        get_or twins.new h 0 ≡ circle_twin (λ g. start (all_edges (triples_of triples.now)) g == high) order.now h) }
    ensures others { OnOk result ((h : ℕ) → (Contains order.now h → ⊥) → get_or twins.new h 0 ≡ get_or twins.old h 0) }
{
    let mut held = Vec::new(alloc);
    let mut left = Vec::new(alloc);
    for half in order {
        let opens = start(triples, *half) == high;
        take(twins, &mut held, &mut left, *half, opens)?;
    }
    // What is left over closed before it opened: its partners are still held at the end of the round.
    for late in &left {
        close(twins, &mut held, *late);
    }
    Ok(())
}

// Takes a half-edge: one that opens is held, another closes the last that is held, or is left over where none is.
fn take(
    twins: &mut [u32],
    held: &mut Vec<u32>,
    left: &mut Vec<u32>,
    half: u32,
    opens: bool,
) -> Result<(), NoMemory>
    requires half { half < length twins.old }
    requires held { All (λ s. s < length twins.old) held.old.items }
    ensures full { length twins.new ≡ length twins.old }
    ensures opened { OnOk result (opens ≡ true →
        (held.new.items ≡ held.old.items ++ half ∷ []) × (left.new.items ≡ left.old.items) × (twins.new ≡ twins.old)) }
    ensures left { OnOk result (opens ≡ false → held.old.items ≡ [] →
        (held.new.items ≡ []) × (left.new.items ≡ left.old.items ++ half ∷ []) × (twins.new ≡ twins.old)) }
    ensures closed { OnOk result (opens ≡ false → (rest : List ℕ) (s : ℕ) → held.old.items ≡ rest ++ s ∷ [] →
        (held.new.items ≡ rest) × (left.new.items ≡ left.old.items) × (twins.new ≡ slice_set (slice_set twins.old s half) half s)) }
{
    if opens {
        held.push(half)?;
        return Ok(());
    }
    if held.is_empty() {
        left.push(half)?;
        return Ok(());
    }
    close(twins, held, half);
    Ok(())
}

// Makes a half-edge and the last that is held twins.
fn close(twins: &mut [u32], held: &mut Vec<u32>, half: u32)
    requires half { half < length twins.old }
    requires held { All (λ s. s < length twins.old) held.old.items }
    ensures full { length twins.new ≡ length twins.old }
    ensures last { (rest : List ℕ) (s : ℕ) → held.old.items ≡ rest ++ s ∷ [] →
        (held.new.items ≡ rest) × (twins.new ≡ slice_set (slice_set twins.old s half) half s) }
{
    let Some(other) = held.pop() else {
        return;
    };
    join(twins, other, half);
}

/// Makes two half-edges twins.
pub fn join(twins: &mut [u32], one: u32, other: u32)
    requires one { one < length twins.old }
    requires other { other < length twins.old }
    ensures { twins.new ≡ slice_set (slice_set twins.old one other) other one }
{
    twins[one as usize] = other;
    twins[other as usize] = one;
}
