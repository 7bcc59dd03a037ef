// Fans: the half-edges that start at one vertex, in the order in which they follow round it.
ghost use Rattle.std.specs.Prelude.{◌≡◌, ◌<◌, ◌≤◌, ℕ, List, IfOk, length, get_or};
ghost use Rattle.chain_terms.specs.Chains.{all_edges};
ghost use Rattle.mesh_terms.specs.Limits.{most_triangles};
ghost use Rattle.mesh_terms.specs.Meshes.{triples_of};
ghost use Rattle.mesh_terms.specs.Fans.{AreFans};
ghost use Rattle.halfedge.specs.Numbering.{no_fan, by_starts, AreInOrder, AreKeptAround, IsFanNumbered};
ghost use Rattle.mesh_terms.specs.Twins.{IsTwinned};

mod clean;

use crate::twins::Twins;
use mb_base::NoMemory;
use std::alloc::Global;

/// The number that stands for none.
const NO_FAN: u32 = u32::MAX;

/// The fan of each half-edge, and the least half-edge of each fan. Fans are numbered by their
/// vertex, and at one vertex by their least half-edge.
#[derive(Debug, Drop)]
pub struct Fans {
    pub of: Vec<u32>,
    pub first: Vec<u32>,
}

impl Twins {
    /// The fans: the cycles of half-edges with one start under "the twin, then the next". `NoMemory`
    /// may come for any triangles. It sorts the half-edges by their starts, and goes round each fan
    /// once.
    pub fn fans(&self, alloc: Global) -> Result<Fans, NoMemory>
        ensures fans { IfOk result (λ fans. AreFans (all_edges self.now.triples) fans.of.items fans.first.items) }
        ensures only { IfOk result (λ fans. (of first : List ℕ) →
            AreFans (all_edges self.now.triples) of first → (of ≡ fans.of.items) × (first ≡ fans.first.items)) }
    {
        let order = self.by_start(alloc)?;
        let mut of = vec![in alloc; NO_FAN; 3 * self.triples().len()]?;
        let mut first = Vec::new(alloc);
        for (_, half) in &order {
            if of[*half as usize] == NO_FAN {
                self.number_fan(&mut of, *half, first.len() as u32);
                first.push(*half)?;
            }
        }
        Ok(Fans { of, first })
    }

    // The half-edges behind their starts, by their starts and then by their numbers.
    fn by_start(&self, alloc: Global) -> Result<Vec<(u32, u32)>, NoMemory>
        ensures { IfOk result (λ order. AreInOrder (all_edges self.now.triples) order.items) }
    {
        let mut order = behind_starts(alloc, self.triples())?;
        order.sort_unstable();
        Ok(order)
    }

    // Gives the number to the half-edges of the fan of half-edge h, which have none.
    fn number_fan(&self, of: &mut [u32], h: u32, number: u32)
        requires twinned { IsTwinned self.now.triples self.now.twins }
        requires half { h < length (all_edges self.now.triples) }
        requires full { length of.old ≡ length (all_edges self.now.triples) }
        requires number { number < no_fan }
        requires fresh { get_or of.old h 0 ≡ no_fan }
        requires kept_around { AreKeptAround (all_edges self.now.triples) of.old }
        ensures { IsFanNumbered (all_edges self.now.triples) h number of.old of.new }
    {
        let twins = self.twins();
        let mut half = h;
        while of[half as usize] == NO_FAN {
            of[half as usize] = number;
            half = self.next(twins[half as usize]);
        }
    }
}

// The half-edges of the triangles behind their starts.
fn behind_starts(alloc: Global, triples: &[[u32; 3]]) -> Result<Vec<(u32, u32)>, NoMemory>
    requires { length triples.now ≤ most_triangles }
    ensures { IfOk result (λ order. order.items ≡ by_starts (all_edges (triples_of triples.now))) }
{
    let mut order = Vec::with_capacity(alloc, 3 * triples.len())?;
    let mut half = 0;
    for [a, b, c] in triples {
        order.extend_from_slice(&[(*a, half), (*b, half + 1), (*c, half + 2)])?;
        half += 3;
    }
    Ok(order)
}
