// What given numbers and prescribed vertices say of runs and records.
ghost use Rattle.mesh_boolean.specs.GivenSegments.{AreGiven, GivenHaveSegments};

use lean::Surface;
use mb_base::{Hits, Op, Windings};
use retained_verts::Prescribed;
use source_faces::lists::laws::{copies_have_lists, lists_give_segments};

/// The runs and the records of what is given give each face of both sides its segments. It does nothing.
pub fn given_have_segments(
    op: Op,
    p: &Surface,
    q: &Surface,
    windings: &Windings,
    hits: &Hits,
    prescribed: &Prescribed,
)
    requires { AreGiven op p.now q.now windings.now hits.now prescribed.now }
    ensures { GivenHaveSegments op p.now q.now windings.now hits.now }
{
    let _p = p.triples();
    let _q = q.triples();
    copies_have_lists();
    lists_give_segments();
}
