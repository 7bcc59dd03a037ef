// Whether vertices are those that numbers prescribe.
ghost use Rattle.std.specs.Prelude.{◌≡◌, ◌↔◌, ◌+◌, ◌^◌, ◌<◌, IfOk, IsTrue, slice_index};
ghost use Rattle.retained_verts.specs.Counted.{HasCounts};
ghost use Rattle.retained_verts.specs.Handed.{FitSides, numbers};
ghost use Rattle.retained_verts.specs.Listed.{ArePrescribed};

use crate::counts::{Counts, count};
use crate::list::{Prescribed, listed};
use lean::Side;
use mb_base::{Hits, NoMemory, Op, Origin, Point, Windings};
use std::alloc::Global;

/// Whether these are the vertices that winding numbers and crossings prescribe, with their counts, as `prescribe` lists them
/// where no limit is passed. They are counted first, so a list of another length takes no memory. `NoMemory` may come for
/// any. It takes time and memory as `prescribe` does.
pub fn are_prescribed(
    alloc: Global,
    op: Op,
    p: &Side,
    q: &Side,
    windings: &Windings,
    hits: &Hits,
    prescribed: &Prescribed,
) -> Result<bool, NoMemory>
    requires fit { FitSides p.now q.now windings.now hits.now }
    ensures { IfOk result (λ yes. IsTrue yes ↔ ArePrescribed op p.now q.now (numbers windings.now hits.now) prescribed.now) }
{
    let counts = count(op, p, q, windings, hits);
    if !has_counts(prescribed, counts) {
        return Ok(false);
    }
    let expected = listed(alloc, op, p, q, windings, hits, counts)?;
    if !are_same_origins(&prescribed.origins, &expected.origins) {
        return Ok(false);
    }
    Ok(are_same_points(&prescribed.points, &expected.points))
}

// Whether both lists have the same origins in the same order.
fn are_same_origins(ones: &[Origin], others: &[Origin]) -> bool
    ensures { IsTrue result ↔ ones.now ≡ others.now }
{
    ones == others
}

// Whether both lists have the same points in the same order.
fn are_same_points(ones: &[Point], others: &[Point]) -> bool
    ensures { IsTrue result ↔ ones.now ≡ others.now }
{
    if ones.len() != others.len() {
        return false;
    }
    for i in 0..ones.len() {
        if ones[i].at() != others[i].at() {
            return false;
        }
    }
    true
}

// Whether vertices have these counts and are as many.
fn has_counts(prescribed: &Prescribed, counts: Counts) -> bool
    requires { slice_index counts.kept 0 + slice_index counts.kept 1 + counts.crossings < 2 ^ 64 }
    ensures { IsTrue result ↔ HasCounts prescribed.now counts }
{
    let [p_kept, q_kept] = counts.kept;
    prescribed.kept == counts.kept
        && prescribed.crossings == counts.crossings
        && prescribed.halfedges == counts.halfedges
        && prescribed.origins.len() as u64 == p_kept + q_kept + counts.crossings
}
