// Fans by given twins.
ghost use Rattle.std.specs.Prelude.{◌≡◌, ◌<◌, ◌≤◌, ◌*◌, ◌==◌, ◌++◌, IfOk, OnOk, filter, get_or, length, map};
ghost use Rattle.std.specs.List.{All};
ghost use Rattle.chain_terms.specs.Chains.{all_edges};
ghost use Rattle.chain_terms.specs.Ranks.{start};
ghost use Rattle.chain_terms.specs.Sums.{upto};
ghost use Rattle.mesh_terms.specs.Limits.{most_triangles};
ghost use Rattle.mesh_terms.specs.Meshes.{IsBelow, triples_of};
ghost use Rattle.sheet_terms.specs.Vertices.{fan_list, fans_by};
ghost use Rattle.fan_laws.specs.Pairs.{ArePaired};
ghost use Rattle.angle_pairing.specs.Numbers.{AreDifferent, AreNumbered};

use crate::labels::leaders;
use mb_base::NoMemory;
use places_by_key::Buckets;
use std::alloc::Global;

/// The fan of each half-edge, and the least half-edge of each fan. Fans are numbered by their place, and at one place by their least half-edge.
#[derive(Drop)]
pub struct FanNumbers {
    pub of: Vec<u32>,
    pub firsts: Vec<u32>,
}

/// The fans of triangles over so many places by the twins of their half-edges: from each half-edge to the one after its twin, which starts at the same place. It
/// takes time linear in the triangles and the places.
pub fn fans_by(
    alloc: Global,
    places: usize,
    triples: &[[u32; 3]],
    twins: &[u32],
) -> Result<FanNumbers, NoMemory>
    requires few { length triples.now ≤ most_triangles }
    requires below { All (IsBelow places) (triples_of triples.now) }
    requires twins { ArePaired (all_edges (triples_of triples.now)) twins.now }
    ensures of { IfOk result (λ fans. fans.of.items ≡ (fans_by places (triples_of triples.now) twins.now).of) }
    ensures firsts { IfOk result (λ fans. fans.firsts.items ≡ (fans_by places (triples_of triples.now) twins.now).first) }
{
    let leaders = leaders(alloc, twins)?;
    let firsts = own_leaders(alloc, places, triples, &leaders)?;
    let numbers = places_in(alloc, leaders.len(), &firsts)?;
    let mut of = Vec::with_capacity(alloc, leaders.len())?;
    for leader in &leaders {
        of.push(numbers[*leader as usize])?;
    }
    Ok(FanNumbers { of, firsts })
}

// The half-edges that are their own leaders, by their place, at one place by their numbers.
fn own_leaders(
    alloc: Global,
    places: usize,
    triples: &[[u32; 3]],
    leaders: &[u32],
) -> Result<Vec<u32>, NoMemory>
    requires few { length triples.now ≤ most_triangles }
    requires below { All (IsBelow places) (triples_of triples.now) }
    requires full { length leaders.now ≡ 3 * length triples.now }
    ensures { IfOk result (λ firsts. firsts.items ≡ fan_list places (all_edges (triples_of triples.now)) leaders.now) }
{
    let groups = Buckets::by_key(alloc, &starts(alloc, triples)?, places)?;
    let mut firsts = Vec::new(alloc);
    for place in 0..places {
        push_own(&mut firsts, leaders, groups.bucket(place))?;
    }
    Ok(firsts)
}

// Adds those of some half-edges that are their own leaders.
fn push_own(firsts: &mut Vec<u32>, leaders: &[u32], halves: &[u32]) -> Result<(), NoMemory>
    requires { All (λ h. h < length leaders.now) halves.now }
    ensures { OnOk result (firsts.new.items ≡ firsts.old.items ++ filter (λ h. get_or leaders.now h 0 == h) halves.now) }
{
    for half in halves {
        if leaders[*half as usize] == *half {
            firsts.push(*half)?;
        }
    }
    Ok(())
}

// For so many numbers the place of each in a list of some of them; 0 for the others.
fn places_in(alloc: Global, count: usize, firsts: &[u32]) -> Result<Vec<u32>, NoMemory>
    requires below { All (λ h. h < count) firsts.now }
    requires differ { AreDifferent firsts.now }
    requires few { length firsts.now ≤ 3 * most_triangles }
    ensures { IfOk result (λ numbers. AreNumbered count numbers.items firsts.now) }
{
    let mut numbers = vec![in alloc; 0; count]?;
    for (number, half) in firsts.iter().enumerate() {
        numbers[*half as usize] = number as u32;
    }
    Ok(numbers)
}

// Where the half-edges of triangles start.
fn starts(alloc: Global, triples: &[[u32; 3]]) -> Result<Vec<u32>, NoMemory>
    requires { length triples.now ≤ most_triangles }
    ensures { IfOk result (λ starts. starts.items ≡ map (start (all_edges (triples_of triples.now))) (upto (length (all_edges (triples_of triples.now))))) }
{
    let mut starts = Vec::with_capacity(alloc, 3 * triples.len())?;
    for [a, b, c] in triples {
        starts.extend_from_slice(&[*a, *b, *c])?;
    }
    Ok(starts)
}
