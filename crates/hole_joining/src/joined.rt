// Every hole of a face joined.
ghost use Rattle.std.specs.Prelude.{◌≡◌, ◌<◌, IfOk, length};
ghost use Rattle.std.specs.List.{All, concat, flat_map};
ghost use Rattle.chain_terms.specs.Paths.{round_edges};
ghost use Rattle.face_loops.specs.Segments.{AreDifferent};
ghost use Rattle.face_plane.specs.Keeping.{AreRings, KeepsChain};
ghost use Rattle.face_plane.specs.Planes.{is_turned, plane_of, point_at};
ghost use Rattle.hole_joining.specs.Bridges.{join_holes};
ghost use Rattle.hole_joining.specs.Holes.{ring_count};
ghost use Rattle.hole_joining.specs.Laws.{AreLoops, HasPlaces, KeepsAreas, settled_in};

use crate::area::{areas_of, is_turned};
use crate::circle::{circles_of, rings_of_circles};
use crate::flat::FlatPoints;
use crate::splice::join_all;
use crate::start::{holes_of, rings_of};
use face_loops::Loop;
use face_plane::FacePlane;
use loop_ring::Ring;
use mb_base::{NoMemory, Point};
use std::alloc::Global;

/// The rings of a face after every hole was joined to one.
#[derive(Drop)]
pub struct Joined {
    /// The rings, in the order of the loops that they come from, each with its first place at the cursor.
    pub rings: Vec<Ring>,
    /// Whether u and v are exchanged.
    pub turned: bool,
}

/// The rings of a face: its loops in the plane that drops an axis, with every hole joined to a ring.
///
/// Each loop has three vertices or more, each vertex has a point, and there are at most 60,000,000; a vertex may stand twice,
/// also in one loop. Where the doubled areas of all loops add up to less than 0, u and v are exchanged. Then a loop of area at
/// least 0 is a ring, and one of area below 0 is a hole. A hole starts at the vertex that lies farthest along u; where
/// several do, at the one of them farthest along v; where these have one point, at the one with the lowest number. Holes
/// are joined in the same order of their starts. A bridge leads from the start to a place of a ring: the shortest that lies
/// in the cones at both its ends and meets none of those edges of the rings and of the holes not yet joined that end at
/// neither of its two vertices; of equal ones the first by ring, then by place; where there is none, the shortest of all by
/// the same rule. After that place come the hole from its start, the start again, and the place's vertex again.
///
/// A hole costs a pass over runs of places, of which those far away are left out, and for each bridge that is asked a search
/// in a tree over the edges; nearly always one of a hole's first two bridges is taken. Where many are refused, each place may
/// be tried against every edge. `NoMemory` may come for any loops. The rule is this project's own.
pub fn join_holes(
    alloc: Global,
    plane: FacePlane,
    loops: &[Loop],
    points: &[Point],
) -> Result<Joined, NoMemory>
    requires loops { AreLoops loops.now (length points.now) }
    requires drop { plane.drop < 3 }
    ensures rings { IfOk result (λ j. j.rings.items ≡ join_holes (settled_in plane.drop points.now loops.now) loops.now) }
    ensures turned { IfOk result (λ j. j.turned ≡ is_turned (plane_of plane.drop (point_at points.now)) loops.now) }

    // One ring for each loop of area at least 0, and two places for each hole beside the vertices of the loops.
    ensures count { IfOk result (λ j. length j.rings.items ≡ ring_count (settled_in plane.drop points.now loops.now) loops.now) }
    ensures places { IfOk result (λ j. HasPlaces (settled_in plane.drop points.now loops.now) loops.now j.rings.items) }

    // Each vertex of the rings has a point. Where all vertices of all loops are different, each ring has different neighbours
    // and three different vertices.
    ensures below { IfOk result (λ j. All (λ ring. All (λ v. v < length points.now) ring) j.rings.items) }
    ensures proper { IfOk result (λ j. AreDifferent (concat loops.now) → AreRings (length points.now) j.rings.items) }

    // The rings have the boundary of the loops, and doubled areas with the same sum; and so has every odd function.
    ensures keeps { IfOk result (λ j. KeepsChain (flat_map round_edges j.rings.items) (flat_map round_edges loops.now)) }
    ensures areas { IfOk result (λ j. KeepsAreas (settled_in plane.drop points.now loops.now) loops.now j.rings.items) }
{
    let straight = FlatPoints {
        plane,
        turned: false,
        points,
    };
    let areas = areas_of(alloc, &straight, loops)?;
    let turned = is_turned(&areas);
    let flat = FlatPoints {
        plane,
        turned,
        points,
    };
    let mut rings = rings_of(alloc, &flat, loops, &areas.each)?;
    let holes = holes_of(alloc, &flat, loops, &areas.each)?;
    let mut circles = circles_of(alloc, &rings)?;
    join_all(alloc, &flat, &mut rings, &mut circles, &holes)?;
    let rings = rings_of_circles(alloc, circles)?;
    Ok(Joined { rings, turned })
}
