// Boxes round runs of triangles.
//
// `crossings` asks the other side's tree for the faces whose boxes touch that of an edge, sorts their numbers and
// asks the kernels once for each; the law `apart` says that the others have no answer. Most edges are near no face,
// and the edges of a run of 16 triangles are near each other as a rule: so it asks first with the box round the run.
// Where that box touches none, the run is passed over; where it touches at most 192 faces, each edge of the run is
// compared with the boxes of these; else the tree is asked for each edge. Its contract names all pairs, so how they
// are found is its own affair.
ghost use Rattle.std.specs.Prelude.{ℕ, ◌<◌, ◌≤◌, length};
ghost use Rattle.std.specs.List.{All};
ghost use Rattle.mb_base.specs.declared.point.Corner.{Corner};
ghost use Rattle.mesh_terms.specs.Meshes.{IsBelow, triple_of};
ghost use Rattle.side_terms.specs.Sides.{IsSide, face_at, face_of};
ghost use Rattle.crossings.specs.Runs.{IsRound};

use lean::Side;
use mb_base::{Box3, Corner};

// The box that holds no corner.
const NOWHERE: Box3 = Box3 {
    low: [i64::MAX; 3],
    high: [i64::MIN; 3],
};

/// A box that holds the corners of the triangles from a number up to another.
pub fn box_round(side: &Side, from: u32, to: u32) -> Box3
    requires { to ≤ length side.now.triples }
    ensures round { (f : ℕ) → from ≤ f → f < to → All (IsRound result) (face_at side.now f) }
    ensures side { IsSide side.now }
{
    let corners = side.corners();
    let triples = side.triples();
    let mut area = NOWHERE;
    for face in from..to {
        area = with_face(area, corners, &triples[face as usize]);
    }
    area
}

// The box, widened so that it holds the corners of a triangle.
#[inline]
fn with_face(area: Box3, corners: &[Corner], triple: &[u32; 3]) -> Box3
    requires { IsBelow (length corners.now) (triple_of triple.now) }
    ensures face { All (IsRound result) (face_of corners.now (triple_of triple.now)) }
    ensures more { (c : Corner) → IsRound area c → IsRound result c }
{
    let [a, b, c] = *triple;
    let area = widened(area, &corners[a as usize]);
    let area = widened(area, &corners[b as usize]);
    widened(area, &corners[c as usize])
}

// The box, widened so that it holds a corner.
#[inline]
fn widened(area: Box3, corner: &Corner) -> Box3
    ensures corner { IsRound result corner.now }
    ensures more { (c : Corner) → IsRound area c → IsRound result c }
{
    Box3 {
        low: [
            area.low[0].min(corner.at[0]),
            area.low[1].min(corner.at[1]),
            area.low[2].min(corner.at[2]),
        ],
        high: [
            area.high[0].max(corner.at[0]),
            area.high[1].max(corner.at[1]),
            area.high[2].max(corner.at[2]),
        ],
    }
}
