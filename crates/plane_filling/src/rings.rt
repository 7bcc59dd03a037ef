// Joined rings cut into triangles, where none is forced.
ghost use Rattle.std.specs.Prelude.{◌≡◌, ◌↔◌, ◌≤◌, ◌<◌, IsTrue, IfOk, MatchOption, length};
ghost use Rattle.std.specs.List.{All, list_all, list_any};
ghost use Rattle.chain_terms.specs.Paths.{round_edges};
ghost use Rattle.face_plane.specs.Planes.{face_plane};
ghost use Rattle.face_plane.specs.Rings.{IsRing};
ghost use Rattle.ring_cutting.specs.Cuts.{cut_ring};
ghost use Rattle.triangulate.specs.Fills.{cuts};
ghost use Rattle.plane_filling.specs.Cuttings.{AreTriples, differ, is_other};

use face_plane::FacePlane;
use loop_ring::Ring;
use mb_base::{NoMemory, Point};
use ring_cutting::cut_ring;
use std::alloc::Global;

/// The triangles of rings, one after the other. None where one is forced, as it is where a ring has the same place twice in a row, or fewer than three places: then
/// nothing is cut.
pub fn cut_all(
    alloc: Global,
    plane: FacePlane,
    turned: bool,
    rings: Vec<Ring>,
    points: &[Point],
) -> Result<Option<Vec<[u32; 3]>>, NoMemory>
    requires below { All (λ ring. All (λ v. v < length points.now) ring) rings.items }
    requires few { All (λ ring. length ring ≤ 100000000) rings.items }
    requires axis { plane.drop < 3 }
    ensures { let c = cuts (face_plane plane.drop turned points.now) rings.items in
        IfOk result (λ made. MatchOption made (0 < c.forced) (λ triples. AreTriples c triples.items)) }
{
    let mut triples = Vec::new(alloc);
    for ring in rings {
        match cut_one(alloc, plane, turned, ring, points)? {
            Some(part) => triples.extend_from_slice(&part)?,
            None => return Ok(None),
        }
    }
    Ok(Some(triples))
}

// The triangles of a ring. None where one is forced.
fn cut_one(
    alloc: Global,
    plane: FacePlane,
    turned: bool,
    mut ring: Ring,
    points: &[Point],
) -> Result<Option<Vec<[u32; 3]>>, NoMemory>
    requires below { All (λ v. v < length points.now) ring }
    requires few { length ring ≤ 100000000 }
    requires axis { plane.drop < 3 }
    ensures { let c = cut_ring (face_plane plane.drop turned points.now) ring in
        IfOk result (λ made. MatchOption made (0 < c.forced) (λ triples. AreTriples c triples.items)) }
{
    if !is_ring(&mut ring) {
        return Ok(None);
    }
    let cut = cut_ring(alloc, plane, turned, ring, points)?;
    if cut.forced == 0 {
        Ok(Some(cut.triples))
    } else {
        Ok(None)
    }
}

// Whether neighbours differ and three places are different.
fn is_ring(ring: &mut Ring) -> bool
    ensures same { ring.new ≡ ring.old }
    ensures ring { IsTrue result ↔ IsRing ring.old }
{
    let (first, second) = (ring.get(), ring.ahead());
    do_differ(ring) && has_other(ring, first, second)
}

// Whether neighbours differ.
fn do_differ(ring: &mut Ring) -> bool
    ensures same { ring.new ≡ ring.old }
    ensures value { result ≡ list_all differ (round_edges ring.old) }
{
    let mut apart = true;
    for _ in 0..ring.len() {
        let (here, next) = (ring.get(), ring.ahead());
        apart &= here != next;
        ring.step();
    }
    apart
}

// Whether another place than two stands in a ring.
fn has_other(ring: &mut Ring, first: u32, second: u32) -> bool
    ensures same { ring.new ≡ ring.old }
    ensures value { result ≡ list_any (is_other first second) ring.old }
{
    let mut other = false;
    for _ in 0..ring.len() {
        let here = ring.get();
        other = other || (here != first && here != second);
        ring.step();
    }
    other
}
