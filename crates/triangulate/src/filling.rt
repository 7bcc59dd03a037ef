// Loops are filled with triangles.
ghost use Rattle.std.specs.Prelude.{◌≡◌, ◌<◌, ◌≤◌, pos, ◌<ℤ◌, IfOk, length};
ghost use Rattle.std.specs.List.{All, flat_map};
ghost use Rattle.chain_terms.specs.Chains.{all_edges};
ghost use Rattle.chain_terms.specs.Paths.{round_edges};
ghost use Rattle.face_plane.specs.Keeping.{AreProper, AreRings, KeepsChain};
ghost use Rattle.face_plane.specs.Planes.{face_plane, orient};
ghost use Rattle.hole_joining.specs.Laws.{AreFillable, settled_in};
ghost use Rattle.triangulate.specs.Fills.{cuts, fill_of};
ghost use Rattle.triangulate.specs.Laws.{HasCount, HasAreas};

use face_loops::Loop;
use face_plane::FacePlane;
use hole_joining::join_holes;
use loop_ring::Ring;
use mb_base::{NoMemory, Point};
use ring_cutting::{Filled, cut_ring};
use std::alloc::Global;

/// Fills the loops of a face with triangles, in the plane of the face.
///
/// Each loop has three vertices or more, all vertices of all loops are different numbers of points, and there are at most
/// 60,000,000. The holes are joined to the rings as `join_holes` says, and then the rings are cut as `cut_ring` says, one
/// after the other. For n vertices there are n triangles and two for each hole, less two for each ring. None repeats a
/// vertex, and for every two vertices as many run from the first to the second, less those back, as round the loops. Where
/// none was forced every triangle turns left. Cost is that of `join_holes` and `cut_ring`. `NoMemory` may come for any loops.
///
/// The rule is this project's own; the Manifold library fills its faces by bridges and ears too.
pub fn fill(
    alloc: Global,
    plane: FacePlane,
    loops: &[Loop],
    points: &[Point],
) -> Result<Filled, NoMemory>
    requires loops { AreFillable loops.now (length points.now) }
    requires axis { plane.drop < 3 }
    ensures value { IfOk result (λ f. f ≡ fill_of plane.drop points.now loops.now) }

    // n + 2 holes - 2 rings
    ensures count { IfOk result (λ f. HasCount (settled_in plane.drop points.now loops.now) loops.now f.triples) }

    // The triangles have the boundary of the loops, and doubled areas with the same sum; and so has every odd function.
    ensures keeps { IfOk result (λ f. KeepsChain (all_edges f.triples) (flat_map round_edges loops.now)) }
    ensures areas { IfOk result (λ f. HasAreas (settled_in plane.drop points.now loops.now) loops.now f.triples) }
    ensures proper { IfOk result (λ f. AreProper (length points.now) f.triples) }
    ensures most { IfOk result (λ f. f.forced ≤ length f.triples) }
    ensures left { IfOk result (λ f. f.forced ≡ 0 → All (λ t. pos 0 <ℤ orient (settled_in plane.drop points.now loops.now) t.0 t.1 t.2) f.triples) }
{
    let joined = join_holes(alloc, plane, loops, points)?;
    cut_all(alloc, plane, joined.turned, joined.rings, points)
}

// Cuts rings, one after the other.
fn cut_all(
    alloc: Global,
    plane: FacePlane,
    turned: bool,
    rings: Vec<Ring>,
    points: &[Point],
) -> Result<Filled, NoMemory>
    requires rings { AreRings (length points.now) rings.items }
    requires few { All (λ r. length r ≤ 100000000) rings.items }
    requires axis { plane.drop < 3 }
    ensures { IfOk result (λ f. f ≡ cuts (face_plane plane.drop turned points.now) rings.items) }
{
    let mut triples = Vec::new(alloc);
    let mut forced = 0;
    for ring in rings {
        let part = cut_ring(alloc, plane, turned, ring, points)?;
        forced += part.forced;
        if triples.is_empty() {
            triples = part.triples;
        } else {
            triples.extend_from_slice(&part.triples)?;
        }
    }
    Ok(Filled { triples, forced })
}
