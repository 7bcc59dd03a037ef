// Kept triangles that cancel.
ghost use Rattle.std.specs.Prelude.{◌≡◌, ◌*◌, ◌<◌, ◌≤◌, ◌^◌, ◌++◌, ◌∷◌, [], ℕ, List, IfOk, OnOk, if◌then◌else◌, length, map, replicate};
ghost use Rattle.std.specs.List.{All};
ghost use Rattle.chain_terms.specs.Sums.{upto};
ghost use Rattle.places_by_key.specs.Buckets.{places_of};
ghost use Rattle.plane_chains.specs.Opposites.{AreSets, kind, kinds_of, places_on, staying};

use crate::lists::Rims;
use indexmap::IndexSet;
use mb_base::NoMemory;
use places_by_key::Buckets;
use std::alloc::Global;

/// So many rims are compared at most.
const MOST_RIMS: usize = 2_147_483_648;

/// Of rims with the same places as many that face front go as face back, the first ones. Each comes as its number and whether it faces front; the numbers of those that
/// stay are left. `NoMemory` may come for any rims, and comes for more than 2^31.
pub fn without_opposites(
    alloc: Global,
    rims: &Rims,
    some: &[(u32, bool)],
) -> Result<Vec<u32>, NoMemory>
    requires { All (λ s. s.0 < length rims.now.0) some.now }
    ensures { IfOk result (λ left. left.items ≡ staying rims.now.0 some.now) }
{
    if some.len() > MOST_RIMS {
        return Err(NoMemory);
    }
    let sets = sets_of(alloc, rims, some)?;
    let kinds = kinds_of(alloc, &sets, some)?;
    let gathered = Buckets::by_key(alloc, &kinds, 2 * some.len())?;
    let mut passed = vec![in alloc; 0; 2 * some.len()]?;
    remaining(alloc, some, &sets, &gathered, &mut passed)
}

// Those before which as many of their kind have passed as there are of the opposite kind.
fn remaining(
    alloc: Global,
    some: &[(u32, bool)],
    sets: &[u32],
    gathered: &Buckets,
    passed: &mut [usize],
) -> Result<Vec<u32>, NoMemory>
    requires few { length some.now ≤ 2 ^ 31 }
    requires long { length sets.now ≡ length some.now }
    requires below { All (λ k. k < length some.now) sets.now }
    requires gathered { gathered.now ≡ map (places_of (kinds_of sets.now some.now)) (upto (2 * length some.now)) }
    requires passed { passed.old ≡ replicate (2 * length some.now) 0 }
    ensures { (rims : List (List ℕ)) → AreSets rims some.now sets.now → IfOk result (λ left. left.items ≡ staying rims some.now) }
{
    let mut left = Vec::new(alloc);
    for i in 0..some.len() {
        let (face, front) = some[i];
        let like = kind(sets[i], front);
        let against = kind(sets[i], !front);
        push_if(
            &mut left,
            gathered.bucket(against).len() <= passed[like],
            face,
        )?;
        passed[like] += 1;
    }
    Ok(left)
}

// Adds a number where it stays.
fn push_if(left: &mut Vec<u32>, stays: bool, face: u32) -> Result<(), NoMemory>
    ensures { OnOk result (left.new.items ≡ left.old.items ++ (if stays then face ∷ [] else [])) }
{
    if stays {
        left.push(face)?;
    }
    Ok(())
}

// A number for each set of places and each side.
fn kind(set: u32, front: bool) -> usize
    ensures { result ≡ kind set front }
{
    2 * set as usize + if front { 1 } else { 0 }
}

// The kinds of some rims.
fn kinds_of(alloc: Global, sets: &[u32], some: &[(u32, bool)]) -> Result<Vec<u32>, NoMemory>
    requires few { length some.now ≤ 2 ^ 31 }
    requires long { length sets.now ≡ length some.now }
    requires below { All (λ k. k < length some.now) sets.now }
    ensures { IfOk result (λ kinds. kinds.items ≡ kinds_of sets.now some.now) }
{
    let mut kinds = Vec::with_capacity(alloc, some.len())?;
    for i in 0..some.len() {
        let (_, front) = some[i];
        kinds.push(kind(sets[i], front) as u32)?;
    }
    Ok(kinds)
}

// A number for the places on each rim, the same where the places are.
fn sets_of(alloc: Global, rims: &Rims, some: &[(u32, bool)]) -> Result<Vec<u32>, NoMemory>
    requires places { All (λ s. s.0 < length rims.now.0) some.now }
    requires few { length some.now ≤ 2 ^ 31 }
    ensures { IfOk result (λ sets. AreSets rims.now.0 some.now sets.items) }
{
    let mut seen = IndexSet::new(alloc);
    let mut sets = Vec::with_capacity(alloc, some.len())?;
    for i in 0..some.len() {
        let (face, _) = some[i];
        let places = places_on(alloc, rims.list(face as usize))?;
        let (set, _) = seen.insert_full(places)?;
        sets.push(set as u32)?;
    }
    Ok(sets)
}

// The places on a rim in ascending order, each once.
fn places_on(alloc: Global, rim: &[u32]) -> Result<Vec<u32>, NoMemory>
    ensures { IfOk result (λ places. places.items ≡ places_on rim.now) }
{
    let mut places = Vec::new(alloc);
    places.extend_from_slice(rim)?;
    places.sort_unstable();
    places.dedup();
    Ok(places)
}
