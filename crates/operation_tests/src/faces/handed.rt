// Numbers that are handed in: whether they meet what the source faces ask for.
ghost use Rattle.std.specs.Prelude.{IsTrue};
ghost use Rattle.side_terms.specs.Standing.{AreConserved};
ghost use Rattle.retained_verts.specs.Handed.{FitSides, numbers};

use crate::faces::conserved::are_conserved;
use crate::handed::are_of_sides;
use lean::Side;
use mb_base::{Hits, Windings};

/// Whether these are numbers of two sides, and conserved.
pub fn are_numbers(p: &Side, q: &Side, windings: &Windings, hits: &Hits) -> bool
    ensures fit { IsTrue result → FitSides p.now q.now windings.now hits.now }
    ensures conserved { IsTrue result → AreConserved p.now q.now (numbers windings.now hits.now) }
{
    are_of_sides(p, q, windings, hits) && are_conserved(p, q, windings, hits)
}
