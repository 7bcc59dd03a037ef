// Vertices of either side against the faces of the other.
ghost use Rattle.std.specs.Prelude.{◌≡◌, ◌∷◌, [], ℤ, ◌≤ℤ◌, pos, negsuc, List};
ghost use Rattle.mb_base.specs.declared.point.Corner.{Corner};
ghost use Rattle.side_terms.specs.Corners.{AllFine, IsFineCorner};
ghost use Rattle.shadow_kernels.specs.Counts.{shadow_of};
ghost use Rattle.winding.specs.Lines.{line_at, HasShadowsIn};

use mb_base::{Box3, Corner, UNIT};
use shadow_kernels::{Meet, Meets};

/// The end of the grid in fine steps.
const FINE_END: i64 = UNIT << 30;

/// What tells the shadow of a vertex of one side on a face of the other.
pub trait VertexFace {
    /// What `shadow` answers.
    ghost vertex_shadow: { Self → Corner → List Corner → ℤ };

    /// The shadow: -1, 0 or 1.
    fn shadow(&self, vertex: &Corner, face: &[Corner; 3]) -> i64
        requires vertex_fine { IsFineCorner vertex.now }
        requires face_fine { AllFine face.now }
        ensures value { result ≡ vertex_shadow self.now vertex.now face.now }
        ensures size { (negsuc 0 ≤ℤ result) × (result ≤ℤ pos 1) };

    /// The half of the vertical line through the vertex on which the faces lie that can have a shadow with it: any other
    /// face has none.
    fn half_line(&self, vertex: &Corner) -> Box3
        requires { IsFineCorner vertex.now }
        ensures { HasShadowsIn result (vertex_shadow self.now vertex.now) };
}

/// The vertices of P and the faces of Q.
#[derive(Drop)]
pub struct PVertices<'a, K>(pub &'a K);

impl<K: Meets<1, 3>> VertexFace for PVertices<'_, K> {
    ghost vertex_shadow = { λ s vertex face. shadow_of (K.meet_of s.0.now (vertex ∷ []) face) };

    fn shadow(&self, vertex: &Corner, face: &[Corner; 3]) -> i64 {
        shadow_of(self.0.meet(&[*vertex], face))
    }

    // A vertex is not above a face that lies higher.
    fn half_line(&self, vertex: &Corner) -> Box3 {
        line_at(vertex, -FINE_END, vertex.at[2])
    }
}

/// The vertices of Q and the faces of P.
#[derive(Drop)]
pub struct QVertices<'a, K>(pub &'a K);

impl<K: Meets<3, 1>> VertexFace for QVertices<'_, K> {
    ghost vertex_shadow = { λ s vertex face. shadow_of (K.meet_of s.0.now face (vertex ∷ [])) };

    fn shadow(&self, vertex: &Corner, face: &[Corner; 3]) -> i64 {
        shadow_of(self.0.meet(face, &[*vertex]))
    }

    // A face that lies lower is not above a vertex.
    fn half_line(&self, vertex: &Corner) -> Box3 {
        line_at(vertex, vertex.at[2], FINE_END)
    }
}

// The part of the vertical line through a vertex from one height to another.
fn line_at(vertex: &Corner, low: i64, high: i64) -> Box3
    ensures { result ≡ line_at vertex.now low high }
{
    let [x, y, _] = vertex.at;
    Box3 {
        low: [x, y, low],
        high: [x, y, high],
    }
}

// The shadow of an answer: 0 where there is none.
fn shadow_of(answer: Option<Meet>) -> i64
    ensures { result ≡ shadow_of answer }
{
    match answer {
        None => 0,
        Some(meet) => meet.shadow() as i64,
    }
}
