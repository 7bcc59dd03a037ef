// Numbers that are handed in: whether they are of two sides.
ghost use Rattle.std.specs.Prelude.{IsTrue};
ghost use Rattle.retained_verts.specs.Handed.{FitSides};

use lean::Side;
use mb_base::{Hits, Windings};
use test_tables::{are_hits, are_windings};

/// Whether these are numbers of two sides.
pub fn are_of_sides(p: &Side, q: &Side, windings: &Windings, hits: &Hits) -> bool
    ensures { IsTrue result → FitSides p.now q.now windings.now hits.now }
{
    are_windings(p, &windings.w03)
        && are_windings(q, &windings.w30)
        && are_hits(p, q, &hits.x12)
        && are_hits(q, p, &hits.x21)
}
