// The lists in which the copies of hits stand.
//
// The copies of a vertex have numbers one after the other, so a run of numbers tells them all. Those of hits are told
// by records, six for each copy: its edge's two half-edges and the pairs of its two faces with the crossed face, seen
// from both. The records are sorted once, by face, list and number, and read along with the faces, so no face looks
// for its crossings among all.
ghost use Rattle.std.specs.Prelude.{◌≡◌, ◌+◌, ◌*◌, ◌<◌, ◌≤◌, ◌^◌, ◌++◌, IfOk, OnOk, length};
ghost use Rattle.side_terms.specs.Prescribed.{hit_count};
ghost use Rattle.chain_terms.specs.Chains.{all_edges};
ghost use Rattle.mesh_terms.specs.Limits.{most_triangles};
ghost use Rattle.source_faces.specs.Stands.{AreFewFaces, hit_stands, group_end, sorted_stands, six_stands, copy_stands};
ghost use Rattle.retained_verts.specs.Handed.{numbers};
ghost use Rattle.side_terms.specs.Hits.{AreHits};

use halfedge::Twins;
use lean::Surface;
use mb_base::{Hit, Hits, NoMemory, Op};
use retained_verts::hit_number;
use std::alloc::Global;

/// A copy in a list of a source face, as a start or as an end. Source faces are those of the first mesh, then those of the
/// second. Of a face's lists 0, 1 and 2 are those of its half-edges, and 3 more than a face of the other mesh is that of the
/// pair with it. Such values compare by face, list and copy, and then an end comes before a start.
#[derive(Clone, Copy, Debug, PartialEq, Eq, PartialOrd, Ord, Drop)]
pub struct Stand {
    pub face: u32,
    pub list: u32,
    pub copy: u32,
    pub start: bool,
}

impl Stand {
    // A copy as a start or as an end of a list of a source face.
    fn of(copy: u32, face: u32, list: u32, start: bool) -> Stand
        ensures face { result.face ≡ face }
        ensures list { result.list ≡ list }
        ensures copy { result.copy ≡ copy }
        ensures start { result.start ≡ start }
    {
        Stand {
            face,
            list,
            copy,
            start,
        }
    }
}

// The numbers of the first source face of the mesh whose edges cross, and of the mesh whose faces are crossed.
#[derive(Clone, Copy, Drop)]
struct Bases {
    edges: u32,
    faces: u32,
}

// An edge with a face that it crosses: its half-edges, the face, and whether it is prescribed a positive number of times.
#[derive(Clone, Copy, Drop)]
struct Crossing {
    lower: u32,
    upper: u32,
    face: u32,
    positive: bool,
}

/// Where all copies of hits stand, sorted. The first of them is the copy with this number.
pub fn stands_of(
    alloc: Global,
    op: Op,
    p: &Surface,
    q: &Surface,
    hits: &Hits,
    first: u32,
) -> Result<Vec<Stand>, NoMemory>
    requires x12 { AreHits (all_edges p.now.triples) (length q.now.triples) hits.now.x12.items }
    requires x21 { AreHits (all_edges q.now.triples) (length p.now.triples) hits.now.x21.items }
    requires fits { first + hit_count op hits.now.x12.items + hit_count op hits.now.x21.items < 2 ^ 32 }
    ensures { IfOk result (λ stands. stands.items ≡ sorted_stands op p.now q.now hits.now.x12.items hits.now.x21.items first) }
{
    let mut stands = Vec::new(alloc);
    let (p_twins, q_twins) = (p.twins(), q.twins());
    let p_faces = p.triples().len() as u32;
    let of_p = Bases {
        edges: 0,
        faces: p_faces,
    };
    let of_q = Bases {
        edges: p_faces,
        faces: 0,
    };
    let next = push_hits(&mut stands, op, p_twins, of_p, &hits.x12, first)?;
    push_hits(&mut stands, op, q_twins, of_q, &hits.x21, next)?;
    stands.sort_unstable();
    Ok(stands)
}

// Adds those of the hits of one mesh's edges, and tells the number of the next copy.
fn push_hits(
    stands: &mut Vec<Stand>,
    op: Op,
    twins: &Twins,
    bases: Bases,
    hits: &[Hit],
    first: u32,
) -> Result<u32, NoMemory>
    requires few { AreFewFaces bases.edges bases.faces }
    requires triples { length twins.now.triples ≤ most_triangles }
    requires hits { AreHits (all_edges twins.now.triples) most_triangles hits.now }
    requires fits { first + hit_count op hits.now < 2 ^ 32 }
    ensures stands { OnOk result (stands.new.items ≡ stands.old.items ++
        hit_stands op (all_edges twins.now.triples) bases.edges bases.faces first hits.now) }
    ensures next { IfOk result (λ next. next ≡ first + hit_count op hits.now) }
{
    let mut next = first;
    for hit in hits {
        let number = hit_number(op, hit.number);
        let crossing = Crossing {
            lower: hit.edge,
            upper: twins.twin(hit.edge),
            face: hit.face,
            positive: number > 0,
        };
        let times = number.unsigned_abs() as u32;
        push_copies(stands, bases, crossing, next, times)?;
        next += times;
    }
    Ok(next)
}

// Adds those of so many copies of one hit.
fn push_copies(
    stands: &mut Vec<Stand>,
    bases: Bases,
    crossing: Crossing,
    first: u32,
    times: u32,
) -> Result<(), NoMemory>
    requires few { AreFewFaces bases.edges bases.faces }
    requires lower { crossing.lower < 300000000 }
    requires upper { crossing.upper < 300000000 }
    requires face { crossing.face < most_triangles }
    requires fits { first + times < 2 ^ 32 }
    ensures { OnOk result (stands.new.items ≡ stands.old.items ++
        copy_stands bases.edges bases.faces crossing.lower crossing.upper crossing.face crossing.positive first times) }
{
    for i in 0..times {
        stands.extend_from_slice(&six_stands(bases, crossing, first + i))?;
    }
    Ok(())
}

// The six lists in which a copy stands: those of its two half-edges, and those of its two faces with the face that is
// crossed, seen from either. Along the lower half-edge it is an end where it is prescribed a positive number of times, and
// a start of the pair seen from that one's face; each of the others turns this.
fn six_stands(bases: Bases, crossing: Crossing, copy: u32) -> [Stand; 6]
    requires few { AreFewFaces bases.edges bases.faces }
    requires lower { crossing.lower < 300000000 }
    requires upper { crossing.upper < 300000000 }
    requires face { crossing.face < most_triangles }
    ensures { result ≡ six_stands bases.edges bases.faces crossing.lower crossing.upper crossing.face crossing.positive copy }
{
    let Crossing {
        lower,
        upper,
        face,
        positive,
    } = crossing;
    let Bases { edges, faces } = bases;
    [
        Stand::of(copy, edges + lower / 3, lower % 3, !positive),
        Stand::of(copy, edges + upper / 3, upper % 3, positive),
        Stand::of(copy, edges + lower / 3, 3 + face, positive),
        Stand::of(copy, edges + upper / 3, 3 + face, !positive),
        Stand::of(copy, faces + face, 3 + lower / 3, !positive),
        Stand::of(copy, faces + face, 3 + upper / 3, positive),
    ]
}

/// Where the records of a source face end among those from a place on, at which they begin if there are any.
pub fn group_end(stands: &[Stand], begin: usize, face: u32) -> usize
    requires { begin ≤ length stands.now }
    ensures { result ≡ group_end stands.now begin face }
{
    let mut end = begin;
    while end < stands.len() && stands[end].face == face {
        end += 1;
    }
    end
}
