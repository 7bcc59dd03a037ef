// What given numbers and prescribed vertices say of runs and records.
ghost use Rattle.source_faces.specs.Given.{AreFewGiven, AreGiven, GivenHaveParts};

use crate::lists::laws::{copies_have_lists, lists_give_segments};
use lean::Surface;
use mb_base::{Hits, Op, Windings};
use retained_verts::Prescribed;
use source_face_laws::of_fillings::faces_form_loops;
use source_face_laws::of_segments::loops_are_long;

/// The faces of both sides are filled from the runs and the records of what is given, and there are few copies. It does
/// nothing.
pub fn given_have_parts(
    op: Op,
    p: &Surface,
    q: &Surface,
    windings: &Windings,
    hits: &Hits,
    prescribed: &Prescribed,
)
    requires { AreGiven op p.now q.now windings.now hits.now prescribed.now }
    ensures parts { GivenHaveParts op p.now q.now windings.now hits.now }
    ensures few { AreFewGiven op windings.now hits.now }
{
    let _p = p.triples();
    let _q = q.triples();
    copies_have_lists();
    lists_give_segments();
    loops_are_long();
    faces_form_loops();
}
