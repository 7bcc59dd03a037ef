// Partners changed.
ghost use Rattle.std.specs.Prelude.{◌≡◌, ◌≤◌, ◌<◌, ◌*◌, ◌%◌, ℕ, IfOk, OnOk, Some, None, length, map};
ghost use Rattle.std.specs.List.{All};
ghost use Rattle.chain_terms.specs.Chains.{all_edges};
ghost use Rattle.mesh_terms.specs.Limits.{most_triangles};
ghost use Rattle.mesh_terms.specs.Meshes.{HasThree, IsBelow, triples_of};
ghost use Rattle.sheet_terms.specs.Chains.{upward};
ghost use Rattle.sheet_terms.specs.Vertices.{changed, settled};
ghost use Rattle.fan_laws.specs.Pairs.{ArePaired, IsChange};
ghost use Rattle.angle_pairing.specs.Gathered.{AreGathered};
ghost use Rattle.angle_pairing.specs.Labels.{AreLabels, first_between};

use crate::alike::Gathered;
use crate::labels::{label_fan, leaders};
use halfedge::halves::next;
use mb_base::NoMemory;
use std::alloc::Global;

/// The twins that are left once partners were changed as `change_partners` says, by half-edges gathered by their edges.
pub fn settle(
    alloc: Global,
    triples: &[[u32; 3]],
    gathered: &Gathered,
    mut twins: Vec<u32>,
) -> Result<Vec<u32>, NoMemory>
    requires few { length triples.now ≤ most_triangles }
    requires three { All HasThree (triples_of triples.now) }
    requires twins { ArePaired (all_edges (triples_of triples.now)) twins.items }
    requires gathered { AreGathered (map upward (all_edges (triples_of triples.now))) gathered.now.firsts.items gathered.now.groups }
    ensures { IfOk result (λ t. (points : ℕ) → All (IsBelow points) (triples_of triples.now) → t.items ≡ settled points (triples_of triples.now) twins.items) }
{
    change_partners(alloc, triples, gathered, &mut twins)?;
    Ok(twins)
}

// While a half-edge runs between the same two fans as one before it, the two, the first such, change twins, and fans are taken anew. A change parts the fan at each
// end of the two, so none of those before has to be looked at again. It takes time linear in the half-edges and the fans that are parted, if few half-edges lie on one edge.
fn change_partners(
    alloc: Global,
    triples: &[[u32; 3]],
    gathered: &Gathered,
    twins: &mut [u32],
) -> Result<(), NoMemory>
    requires few { length triples.now ≤ most_triangles }
    requires three { All HasThree (triples_of triples.now) }
    requires twins { ArePaired (all_edges (triples_of triples.now)) twins.old }
    requires gathered { AreGathered (map upward (all_edges (triples_of triples.now))) gathered.now.firsts.items gathered.now.groups }
    ensures full { length twins.new ≡ length twins.old }
    ensures settled { OnOk result ((points : ℕ) → All (IsBelow points) (triples_of triples.now) → twins.new ≡ settled points (triples_of triples.now) twins.old) }
{
    let mut labels = leaders(alloc, twins)?;
    for half in 0..3 * triples.len() as u32 {
        let alike = gathered
            .groups
            .bucket(gathered.firsts[half as usize] as usize);
        take(&mut labels, twins, alike, half);
    }
    Ok(())
}

// Lets a half-edge change twins with the first of some that runs between the same fans and comes before it, if there is one.
fn take(labels: &mut [u32], twins: &mut [u32], alike: &[u32], half: u32)
    requires few { length twins.old ≤ 3 * most_triangles }
    requires half { half < length twins.old }
    requires labels { AreLabels twins.old labels.old }
    requires whole { length twins.old % 3 ≡ 0 }
    requires alike { All (λ h. h < length twins.old) alike.now }
    requires change { (g : ℕ) → first_between labels.old alike.now half ≡ Some g → IsChange twins.old g half }
    ensures none { first_between labels.old alike.now half ≡ None → (twins.new ≡ twins.old) × (labels.new ≡ labels.old) }
    ensures some { (g : ℕ) → first_between labels.old alike.now half ≡ Some g → (twins.new ≡ changed twins.old (g, half)) × AreLabels twins.new labels.new }
{
    let Some(other) = first_between(labels, alike, half) else {
        return;
    };
    change(labels, twins, other, half);
}

// Of half-edges up to one of them, the first that runs between the same fans, if that is another.
fn first_between(labels: &[u32], alike: &[u32], half: u32) -> Option<u32>
    requires few { length labels.now ≤ 3 * most_triangles }
    requires whole { length labels.now % 3 ≡ 0 }
    requires half { half < length labels.now }
    requires alike { All (λ h. h < length labels.now) alike.now }
    ensures { result ≡ first_between labels.now alike.now half }
{
    for other in alike {
        if *other == half {
            return None;
        }
        if labels[*other as usize] == labels[half as usize]
            && labels[next(*other) as usize] == labels[next(half) as usize]
        {
            return Some(*other);
        }
    }
    None
}

// Lets two half-edges change twins, and labels the fans that were parted.
fn change(labels: &mut [u32], twins: &mut [u32], one: u32, other: u32)
    requires few { length twins.old ≤ 3 * most_triangles }
    requires change { IsChange twins.old one other }
    requires labels { AreLabels twins.old labels.old }
    ensures twins { twins.new ≡ changed twins.old (one, other) }
    ensures labels { AreLabels twins.new labels.new }
{
    exchange(twins, one, other);
    label_fan(labels, twins, one);
    label_fan(labels, twins, other);
    label_fan(labels, twins, next(one));
    label_fan(labels, twins, next(other));
}

// Lets two half-edges change twins.
fn exchange(twins: &mut [u32], one: u32, other: u32)
    requires { IsChange twins.old one other }
    ensures { twins.new ≡ changed twins.old (one, other) }
{
    let (a, b) = (twins[one as usize], twins[other as usize]);
    twins[one as usize] = b;
    twins[other as usize] = a;
    twins[a as usize] = other;
    twins[b as usize] = one;
}
