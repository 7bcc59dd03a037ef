// The rounds of a map.
ghost use Rattle.std.specs.Prelude.{◌≡◌, ◌<◌, ◌≤◌, false, not, replicate, true, IfOk, get_or, length};
ghost use Rattle.std.specs.List.{All};
ghost use Rattle.chain_terms.specs.Cycles.{cycles};
ghost use Rattle.face_loops.specs.Trails.{IsLoopFrom};
ghost use Rattle.plane_sheets.specs.Rounds.{steps_of};

use face_loops::Loop;
use mb_base::NoMemory;
use std::alloc::Global;

/// The rounds that numbers go where each is followed by another: from the first one that no round before it has on, until a number comes that was there before, or
/// none.
pub fn rounds(alloc: Global, next: &[u32]) -> Result<Vec<Loop>, NoMemory>
    requires { length next.now ≤ u32.MAX }
    ensures value { IfOk result (λ all. all.items ≡ cycles (steps_of next.now)) }
    ensures below { IfOk result (λ all. All (λ r. All (λ i. i < length next.now) r) all.items) }
{
    let mut used = vec![in alloc; false; next.len()]?;
    all_rounds(alloc, next, &mut used)
}

// Those of numbers of which none has a mark yet.
fn all_rounds(alloc: Global, next: &[u32], used: &mut [bool]) -> Result<Vec<Loop>, NoMemory>
    requires few { length next.now ≤ u32.MAX }
    requires unused { used.old ≡ replicate (length next.now) false }
    ensures value { IfOk result (λ all. all.items ≡ cycles (steps_of next.now)) }
    ensures below { IfOk result (λ all. All (λ r. All (λ i. i < length next.now) r) all.items) }
{
    let mut all = Vec::new(alloc);
    for first in 0..next.len() {
        if !used[first] {
            all.push(round_from(alloc, next, used, first)?)?;
        }
    }
    Ok(all)
}

// The round from a number on, through numbers that have no mark; each of them gets one.
fn round_from(
    alloc: Global,
    next: &[u32],
    used: &mut [bool],
    first: usize,
) -> Result<Loop, NoMemory>
    requires few { length next.now ≤ u32.MAX }
    requires full { length used.old ≡ length next.now }
    requires within { first < length next.now }
    ensures value { IfOk result (λ round. IsLoopFrom (steps_of next.now) first used.old used.new round) }
    ensures below { IfOk result (λ round. All (λ i. i < length next.now) round) }
{
    let mut round = Vec::new(alloc);
    round.push(first as u32)?;
    used[first] = true;
    let mut at = next[first];
    'trail: while is_free(used, at) {
        round.push(at)?;
        used[at as usize] = true;
        at = next[at as usize];
    }
    Ok(Loop::of(round))
}

// Whether a number is one of those with marks, and has none.
fn is_free(used: &[bool], at: u32) -> bool
    ensures { result ≡ not (get_or used.now at true) }
{
    match used.get(at as usize) {
        Some(mark) => !*mark,
        None => false,
    }
}
