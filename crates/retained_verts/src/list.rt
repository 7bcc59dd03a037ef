// The prescribed vertices of an operation.
ghost use Rattle.std.specs.Prelude.{◌≡◌, ◌≤◌, ◌+◌, length, slice_index, IfErr, IfOk};
ghost use Rattle.side_terms.specs.Prescribed.{prescribed_halfedges};
ghost use Rattle.side_terms.specs.Standing.{AreConserved, StandInLists, count_all_starts};
ghost use Rattle.retained_verts.specs.Faults.{IsFaultAt};
ghost use Rattle.retained_verts.specs.Counted.{AreCounts};
ghost use Rattle.retained_verts.specs.Handed.{AreBalanced, FitSides, copies, numbers};
ghost use Rattle.retained_verts.specs.Listed.{ArePrescribed};

use crate::copies::Copies;
use crate::counts::{Counts, count};
use crate::operand::Operand;
use lean::Side;
use mb_base::{Hits, Limits, NoMemory, Op, Origin, Point, Windings};
use std::alloc::Global;

/// The prescribed vertices in order, each with its origin and its point. `kept` counts those that are vertices of the
/// first mesh and of the second, `crossings` the others, and `halfedges` the half-edges at all of them: as many for a
/// vertex as triangles have it, three for a crossing.
#[derive(Debug, Drop)]
pub struct Prescribed {
    pub origins: Vec<Origin>,
    pub points: Vec<Point>,
    pub kept: [u64; 2],
    pub crossings: u64,
    pub halfedges: u64,
}

/// Why no vertices are prescribed: more half-edges than the limit, with their number, or want of memory.
#[derive(Clone, Copy, Debug, PartialEq, Eq, Drop)]
pub enum PrescribeFault {
    TooLarge { seen: u64 },
    NoMemory,
}

impl From<NoMemory> for PrescribeFault {
    ghost use Rattle.retained_verts.specs.declared.list.PrescribeFault.TheVariants.{NoMemory as Wanting};

    ghost from_gives = { λ _ e. e ≡ Wanting };

    fn from(_: NoMemory) -> Self {
        PrescribeFault::NoMemory
    }
}

/// The vertices that winding numbers and crossings prescribe for an operation on two sides.
///
/// A vertex of P is prescribed `c1 + c3 * w` times, one of Q `c2 + c3 * w` times, w being its winding number in the other
/// mesh, and a crossing `c3` times its number, with the operation's constants. Each is listed as often as the size of that:
/// the vertices of P, those of Q, the hits of P's edges, those of Q's edges, in their order, all copies of one together.
///
/// The windings are one for each corner and at most 100,000,000 in size. The hits name edges by their lower half-edges and
/// faces of the other side, ascend by edge, then by face, with no pair twice, and have numbers from -2 to 2. The half-edges
/// are counted first: where they are more than `limits.halfedges()`, and nowhere else, the answer is `TooLarge`, and no
/// memory is taken. `NoMemory` may come for any numbers within the limit. It takes time in proportion to the corners,
/// triangles and hits and the vertices that it lists, and memory in proportion to these.
pub fn prescribe(
    alloc: Global,
    op: Op,
    p: &Side,
    q: &Side,
    windings: &Windings,
    hits: &Hits,
    limits: &Limits,
) -> Result<Prescribed, PrescribeFault>
    requires fit { FitSides p.now q.now windings.now hits.now }

    // The vertices in order, and how many there are.
    ensures prescribed { IfOk result (ArePrescribed op p.now q.now (numbers windings.now hits.now)) }
    ensures all { IfOk result (λ r. length r.origins.items ≡ slice_index r.kept 0 + slice_index r.kept 1 + r.crossings) }

    // The limit on half-edges.
    ensures few { IfOk result (λ r. length r.origins.items ≤ r.halfedges) }
    ensures within { IfOk result (λ r. r.halfedges ≤ limits.now.halfedges) }
    ensures too_large { IfErr result (IsFaultAt limits.now.halfedges (prescribed_halfedges op p.now q.now (numbers windings.now hits.now))) }

    // How the copies stand in the lists of the faces: each half-edge is a start, and conserved numbers balance every list.
    ensures two_lists { IfOk result (λ _. StandInLists p.now q.now (copies op p.now q.now windings.now hits.now)) }
    ensures all_starts { IfOk result (λ r. r.halfedges ≡ count_all_starts p.now q.now (copies op p.now q.now windings.now hits.now)) }
    ensures balance { AreConserved p.now q.now (numbers windings.now hits.now) → IfOk result (λ _. AreBalanced op p.now q.now windings.now hits.now) }
{
    let counts = count(op, p, q, windings, hits);
    if counts.halfedges > u64::from(limits.halfedges()) {
        return Err(PrescribeFault::TooLarge {
            seen: counts.halfedges,
        });
    }
    // Read so that what sides keep is known here.
    let _ = p.corners();
    let _ = q.corners();
    Ok(listed(alloc, op, p, q, windings, hits, counts)?)
}

/// The same vertices whatever their number, where these are their counts: no half-edge is counted again, and no limit is asked.
/// Linear in the corners of both sides, the crossings and the vertices that they prescribe; each list is made at its final length.
/// The one fault is want of memory.
pub fn listed(
    alloc: Global,
    op: Op,
    p: &Side,
    q: &Side,
    windings: &Windings,
    hits: &Hits,
    counts: Counts,
) -> Result<Prescribed, NoMemory>
    requires fit { FitSides p.now q.now windings.now hits.now }
    requires counts { AreCounts op p.now q.now (numbers windings.now hits.now) counts }
    ensures { IfOk result (ArePrescribed op p.now q.now (numbers windings.now hits.now)) }
{
    let [p_kept, q_kept] = counts.kept;
    let mut copies = Copies::with_capacity(alloc, (p_kept + q_kept + counts.crossings) as usize)?;
    copies.push_vertices(op, Operand::P, p.corners(), &windings.w03)?;
    copies.push_vertices(op, Operand::Q, q.corners(), &windings.w30)?;
    copies.push_hits(op, Operand::P, &hits.x12)?;
    copies.push_hits(op, Operand::Q, &hits.x21)?;
    let Copies { origins, points } = copies;
    Ok(Prescribed {
        origins,
        points,
        kept: counts.kept,
        crossings: counts.crossings,
        halfedges: counts.halfedges,
    })
}
