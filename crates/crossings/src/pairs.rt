// Edges of either side against the faces of the other.
ghost use Rattle.std.specs.Prelude.{◌≡◌, ◌<◌, ℕ, None, Option, List, length};
ghost use Rattle.mb_base.specs.declared.point.Corner.{Corner};
ghost use Rattle.side_terms.specs.Boxes.{AreApart};
ghost use Rattle.side_terms.specs.Corners.{AllFine};
ghost use Rattle.edge_face.specs.declared.Cross.{Cross};
ghost use Rattle.crossings.specs.Apart.{apart_back};

use edge_face::{Cross, Crosses};
use mb_base::Corner;

/// What tells how often an edge of one side crosses a face of the other.
pub trait EdgeFace {
    /// What `crossing` answers.
    ghost crossing_of: { Self → List Corner → List Corner → Option Cross };

    /// The answer for the corners of the edge and of the face.
    fn crossing(&self, edge: &[Corner; 2], face: &[Corner; 3]) -> Option<Cross>
        requires edge_fine { AllFine edge.now }
        requires face_fine { AllFine face.now }
        ensures { result ≡ crossing_of self.now edge.now face.now };

    /// Where the boxes of the two are strictly apart on an axis, there is no answer.
    ghost apart: { (s : Self) (edge face : List Corner) (i : ℕ) → length edge ≡ 2 → length face ≡ 3 → AllFine edge → AllFine face →
        i < 3 → AreApart i edge face → crossing_of s edge face ≡ None };
}

/// The edges of P and the faces of Q.
#[derive(Drop)]
pub struct PEdges<'a, K>(pub &'a K);

impl<K: Crosses<2, 3>> EdgeFace for PEdges<'_, K> {
    ghost crossing_of = { λ s edge face. K.crossing_of s.0.now edge face };

    ghost apart = { λ s edge face i. (K.laws s.0.now).apart edge face i };

    fn crossing(&self, edge: &[Corner; 2], face: &[Corner; 3]) -> Option<Cross> {
        self.0.cross(edge, face)
    }
}

/// The edges of Q and the faces of P.
#[derive(Drop)]
pub struct QEdges<'a, K>(pub &'a K);

impl<K: Crosses<3, 2>> EdgeFace for QEdges<'_, K> {
    ghost crossing_of = { λ s edge face. K.crossing_of s.0.now face edge };

    ghost apart = { λ s edge face i e f edge_fine face_fine axis a.
        (K.laws s.0.now).apart face edge i f e face_fine edge_fine axis (apart_back i edge face a) };

    fn crossing(&self, edge: &[Corner; 2], face: &[Corner; 3]) -> Option<Cross> {
        self.0.cross(face, edge)
    }
}
