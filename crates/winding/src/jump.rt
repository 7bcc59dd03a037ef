// The winding number of a corner, by a sum or from that of another one.
//
// From the first corner of one component the number is carried to that of the next along the segment between the two,
// which is no edge: the proof asks no more of the two ends than that their coordinates are fine. A sum that meets at
// most 16 faces is made at once, as ever. Else the faces on the line of the sum and those that the segment's box
// touches are counted side by side, three of the line for one of the segment, since a crossing takes about as long as
// three shadows; and the way is taken whose faces come to their end first. So of two stacks of plates, those of one
// between those of the other, a plate asks a few faces and not all that lie under it. A mesh of one component pays
// nothing. The components come in the order of their first corners' numbers: where neighbours in that order lie far
// apart, sums are made as before. A step is counted for a sum alone, so fewer may be counted than there are
// components.
ghost use Rattle.std.specs.Prelude.{◌≡◌, ◌≤◌, ◌+◌, IfSome, length};
ghost use Rattle.side_terms.specs.Corners.{IsFineCorner};
ghost use Rattle.winding.specs.Segments.{IsKnown, SegmentIdentity, crossings_to};
ghost use Rattle.winding.specs.Windings.{minus_shadows};

use crate::segments::crossings_between;
use crate::shadows::VertexFace;
use crate::sum::{minus_few_shadows, minus_shadows};
use crossings::EdgeFace;
use lean::Side;
use mb_base::{Box3, Corner, Steps, box_of};
use std::sync::ledger::Ledger;

// A sum over no more faces than this is made at once.
const FEW: usize = 16;

// So many shadows of a vertex with faces take about the time of one crossing of a segment.
const SHADOWS: u32 = 3;

/// A corner whose winding number is known.
#[derive(Clone, Copy, Drop)]
pub struct Known {
    pub corner: Corner,
    pub number: i64,
}

/// The winding number of a corner: by a sum, or, from one that is known, by the crossings of the segment between the two,
/// along which it changes by minus these, where that is quicker. A step is counted for a sum alone.
pub fn number_from<S: VertexFace, C: EdgeFace, L: Ledger>(
    known: &Option<Known>,
    corner: &Corner,
    faces: &Side,
    shadows: &S,
    pairs: &C,
    steps: &mut Steps<L>,
) -> i64
    requires fine { IsFineCorner corner.now }
    requires known { IfSome known.now (IsKnown (λ c. minus_shadows (S.vertex_shadow shadows.now c) faces.now) (length faces.now.triples)) }
    requires identity { SegmentIdentity (λ c. minus_shadows (S.vertex_shadow shadows.now c) faces.now) (crossings_to (C.crossing_of pairs.now) faces.now) }
    ensures value { result ≡ minus_shadows (S.vertex_shadow shadows.now corner.now) faces.now }
    ensures cost { steps.new ≤ steps.old + 1 }
{
    match known {
        None => minus_shadows(corner, faces, shadows, steps),
        Some(from) => number_near(from, corner, faces, shadows, pairs, steps),
    }
}

// The same from one that is known.
fn number_near<S: VertexFace, C: EdgeFace, L: Ledger>(
    from: &Known,
    corner: &Corner,
    faces: &Side,
    shadows: &S,
    pairs: &C,
    steps: &mut Steps<L>,
) -> i64
    requires fine { IsFineCorner corner.now }
    requires known { IsKnown (λ c. minus_shadows (S.vertex_shadow shadows.now c) faces.now) (length faces.now.triples) from.now }
    requires identity { SegmentIdentity (λ c. minus_shadows (S.vertex_shadow shadows.now c) faces.now) (crossings_to (C.crossing_of pairs.now) faces.now) }
    ensures value { result ≡ minus_shadows (S.vertex_shadow shadows.now corner.now) faces.now }
    ensures cost { steps.new ≤ steps.old + 1 }
{
    // Read so that what a side keeps is known here.
    let _ = faces.twins();
    if let Some(number) = minus_few_shadows(corner, faces, shadows, FEW) {
        steps.tick();
        return number;
    }
    let segment = [from.corner, *corner];
    if !is_quicker(faces, box_of(&segment), shadows.half_line(corner)) {
        return minus_shadows(corner, faces, shadows, steps);
    }
    from.number - crossings_between(&segment, faces, pairs)
}

// Whether the box of a segment touches so few faces that it is asked sooner than a line. Either has the number, so no clause
// says which is taken.
fn is_quicker(faces: &Side, segment: Box3, line: Box3) -> bool {
    let mut on_line = faces.tree().touching(line);
    for _ in faces.tree().touching(segment) {
        for _ in 0..SHADOWS {
            if on_line.next().is_none() {
                return false;
            }
        }
    }
    true
}
