// Half-edges gathered by their edges.
ghost use Rattle.std.specs.Prelude.{◌≡◌, ◌≤◌, ◌<◌, ◌*◌, ℕ, true, false, IfOk, length, get_or, map, slice_set};
ghost use Rattle.std.specs.List.{All, Contains};
ghost use Rattle.chain_terms.specs.Chains.{all_edges};
ghost use Rattle.chain_terms.specs.Sums.{upto};
ghost use Rattle.mesh_terms.specs.Limits.{most_triangles};
ghost use Rattle.mesh_terms.specs.Meshes.{triples_of};
ghost use Rattle.sheet_terms.specs.Chains.{upward};
ghost use Rattle.sheet_terms.specs.Vertices.{first_as};
ghost use Rattle.places_by_key.specs.Buckets.{places_of};
ghost use Rattle.angle_pairing.specs.Gathered.{AreGathered, AreLeads, IsPairBelow, lead_of, leads_same, start_of};

use mb_base::NoMemory;
use places_by_key::Buckets;
use std::alloc::Global;

/// Pairs by their numbers: for each the first one that is the same, and in the bucket of each first one all that are the same.
#[derive(Drop)]
pub struct Gathered {
    pub firsts: Vec<u32>,
    pub groups: Buckets,
}

/// The half-edges of triangles gathered by their edges, with each edge from its lesser end to its greater one.
#[derive(Drop)]
pub struct GatheredEdges {
    pub ways: Vec<(u32, u32)>,
    pub gathered: Gathered,
}

/// The half-edges of the triangles gathered by their edges.
pub fn gather_edges(alloc: Global, triples: &[[u32; 3]]) -> Result<GatheredEdges, NoMemory>
    requires { length triples.now ≤ most_triangles }
    ensures ways { IfOk result (λ g. g.ways.items ≡ map upward (all_edges (triples_of triples.now))) }
    ensures gathered { IfOk result (λ g. AreGathered (map upward (all_edges (triples_of triples.now))) g.gathered.firsts.items g.gathered.groups) }
{
    let ways = upward(alloc, &edges(alloc, triples)?)?;
    let gathered = gather(alloc, &ways)?;
    Ok(GatheredEdges { ways, gathered })
}

// The pairs gathered, in time and memory linear in how many they are and in the greatest number in them.
fn gather(alloc: Global, pairs: &[(u32, u32)]) -> Result<Gathered, NoMemory>
    requires { length pairs.now ≤ 3 * most_triangles }
    ensures { IfOk result (λ g. AreGathered pairs.now g.firsts.items g.groups) }
{
    let firsts = first_alike(alloc, pairs)?;
    let groups = Buckets::by_key(alloc, &firsts, pairs.len())?;
    Ok(Gathered { firsts, groups })
}

// For each pair the first one that is the same: pairs with one start are looked at one after the other, and beside each end
// stands the last pair with that end that was the first of its kind.
fn first_alike(alloc: Global, pairs: &[(u32, u32)]) -> Result<Vec<u32>, NoMemory>
    requires { length pairs.now ≤ 3 * most_triangles }
    ensures { IfOk result (λ firsts. firsts.items ≡ map (first_as pairs.now) (upto (length pairs.now))) }
{
    let count = bound(pairs);
    let groups = Buckets::by_key(alloc, &starts(alloc, pairs)?, count)?;
    let mut leads = vec![in alloc; 0; count]?;
    let mut firsts = vec![in alloc; 0; pairs.len()]?;
    for start in 0..count {
        find_firsts(&mut firsts, &mut leads, pairs, groups.bucket(start));
    }
    Ok(firsts)
}

// A number above all in the pairs.
fn bound(pairs: &[(u32, u32)]) -> usize
    ensures { All (IsPairBelow result) pairs.now }
{
    let mut bound: usize = 0;
    for (start, end) in pairs {
        bound = bound.max(*start as usize + 1).max(*end as usize + 1);
    }
    bound
}

// The starts of the pairs.
fn starts(alloc: Global, pairs: &[(u32, u32)]) -> Result<Vec<u32>, NoMemory>
    ensures { IfOk result (λ starts. starts.items ≡ map start_of pairs.now) }
{
    let mut starts = Vec::with_capacity(alloc, pairs.len())?;
    for (start, _) in pairs {
        starts.push(*start)?;
    }
    Ok(starts)
}

// Writes beside each of the pairs with one start the first that is the same.
fn find_firsts(firsts: &mut [u32], leads: &mut [u32], pairs: &[(u32, u32)], numbers: &[u32])
    requires full { length firsts.old ≡ length pairs.now }
    requires below { All (IsPairBelow (length leads.old)) pairs.now }
    requires leads { AreLeads pairs.now leads.old }
    requires one { (start : ℕ) × (numbers.now ≡ places_of (map start_of pairs.now) start) }
    ensures full { length firsts.new ≡ length firsts.old }
    ensures all { length leads.new ≡ length leads.old }
    ensures leads { AreLeads pairs.now leads.new }
    ensures found { (h : ℕ) → Contains numbers.now h → get_or firsts.new h 0 ≡ first_as pairs.now h }
    ensures others { (h : ℕ) → (Contains numbers.now h → ⊥) → get_or firsts.new h 0 ≡ get_or firsts.old h 0 }
{
    for number in numbers {
        firsts[*number as usize] = lead(leads, pairs, *number);
    }
}

// What stands beside the end of a pair, if that is the number of the same pair. Else the number of the pair itself, and it stands there from now on.
fn lead(leads: &mut [u32], pairs: &[(u32, u32)], number: u32) -> u32
    requires number { number < length pairs.now }
    requires end { (get_or pairs.now number (0, 0)).1 < length leads.old }
    requires lead { lead_of pairs.now leads.old number < length pairs.now }
    ensures full { length leads.new ≡ length leads.old }
    ensures same { leads_same pairs.now leads.old number ≡ true → (leads.new ≡ leads.old) × (result ≡ lead_of pairs.now leads.old number) }
    ensures other { leads_same pairs.now leads.old number ≡ false → (leads.new ≡ slice_set leads.old (get_or pairs.now number (0, 0)).1 number) × (result ≡ number) }
{
    let (start, end) = pairs[number as usize];
    let before = leads[end as usize];
    if pairs[before as usize] == (start, end) {
        return before;
    }
    leads[end as usize] = number;
    number
}

// The half-edges of the triangles, each from its start to its end.
fn edges(alloc: Global, triples: &[[u32; 3]]) -> Result<Vec<(u32, u32)>, NoMemory>
    requires { length triples.now ≤ most_triangles }
    ensures { IfOk result (λ edges. edges.items ≡ all_edges (triples_of triples.now)) }
{
    let mut edges = Vec::with_capacity(alloc, 3 * triples.len())?;
    for [a, b, c] in triples {
        edges.extend_from_slice(&[(*a, *b), (*b, *c), (*c, *a)])?;
    }
    Ok(edges)
}

// Each edge from its lesser end to its greater one.
fn upward(alloc: Global, edges: &[(u32, u32)]) -> Result<Vec<(u32, u32)>, NoMemory>
    ensures { IfOk result (λ ways. ways.items ≡ map upward edges.now) }
{
    let mut ways = Vec::with_capacity(alloc, edges.len())?;
    for (a, b) in edges {
        ways.push(((*a).min(*b), (*a).max(*b)))?;
    }
    Ok(ways)
}
