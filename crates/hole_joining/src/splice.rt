// Holes joined to rings. A ring is kept twice: as a circle of nodes, which is handed out in the end, and as a vector, over
// which bridges are sought.
ghost use Rattle.std.specs.Prelude.{◌≡◌, List, ◌+◌, ◌<◌, ◌≤◌, ◌^◌, [], ◌∷◌, ◌++◌, IfOk, OnOk, Some, length, get_or, set};
ghost use Rattle.std.specs.List.{All};
ghost use Rattle.face_plane.specs.Rings.{vertex_at};
ghost use Rattle.hole_joining.specs.declared.runs.Run.{Run};
ghost use Rattle.hole_joining.specs.Seen.{plane_at};
ghost use Rattle.mesh_terms.specs.Limits.{most_halfedges};
ghost use Rattle.hole_joining.specs.Bridges.{edges_of, bridged, joined_one, joined};
ghost use Rattle.hole_joining.specs.Obstacles.{AreBoxed, SameEdges, all_edges};
ghost use Rattle.hole_joining.specs.Room.{added};
ghost use Rattle.hole_joining.specs.Runs.{AreRuns, HaveRuns, without};

use crate::bridge::Bridge;
use crate::circle::Circle;
use crate::flat::FlatPoints;
use crate::joining::Joining;
use crate::obstacles::Obstacles;
use crate::places::Places;
use crate::runs::{Runs, runs_of};
use crate::vertices::vertex_at;
use mb_base::NoMemory;
use std::alloc::Global;

// The vertex at which a bridge ends.
fn end_of(rings: &[Places], bridge: Bridge) -> u32
    requires ring { bridge.ring < length rings.now }
    ensures { result ≡ vertex_at (get_or rings.now bridge.ring []) bridge.place }
{
    let ring = &rings[bridge.ring];
    vertex_at(&ring.places, bridge.place)
}

// Puts the hole into the ring to which the bridge leads.
fn join_places(
    alloc: Global,
    rings: &mut Vec<Places>,
    bridge: Bridge,
    hole: &[u32],
) -> Result<(), NoMemory>
    requires ring { bridge.ring < length rings.old.items }
    requires place { bridge.place < length (get_or rings.old.items bridge.ring []) }
    ensures { OnOk result (rings.new.items ≡ bridged hole.now rings.old.items (Some bridge)) }
{
    rings[bridge.ring].join(alloc, bridge.place, hole)
}

// Puts it into the circle of that ring.
fn join_circle(
    alloc: Global,
    circles: &mut Vec<Circle>,
    bridge: Bridge,
    hole: &[u32],
) -> Result<(), NoMemory>
    requires ring { bridge.ring < length circles.old.items }
    requires place { bridge.place < length (get_or circles.old.items bridge.ring []) }
    requires some { 0 < length hole.now }
    requires few { length (get_or circles.old.items bridge.ring []) + length hole.now + 2 < 2 ^ 32 }
    ensures { OnOk result (circles.new.items ≡ bridged hole.now circles.old.items (Some bridge)) }
{
    circles[bridge.ring].join(alloc, bridge.place, hole)
}

// The runs of the ring into which so many places were put behind the bridge's end.
fn follow_join(
    alloc: Global,
    flat: &FlatPoints,
    rings: &[Places],
    runs: &mut Vec<Runs>,
    bridge: Bridge,
    count: usize,
) -> Result<(), NoMemory>
    requires ring { bridge.ring < length rings.now }
    requires same { bridge.ring < length runs.old.items }
    requires within { bridge.place + 1 + count ≤ length (get_or rings.now bridge.ring []) }
    requires small { length (get_or rings.now bridge.ring []) < 2 ^ 32 }
    requires runs { AreRuns (plane_at flat.now) (get_or runs.old.items bridge.ring [])
        (without (bridge.place + 1) count (get_or rings.now bridge.ring [])) }
    ensures { OnOk result ((rs : List Run) × (runs.new.items ≡ set runs.old.items bridge.ring rs) ×
        AreRuns (plane_at flat.now) rs (get_or rings.now bridge.ring [])) }
{
    let ring = &rings[bridge.ring];
    runs[bridge.ring].follow(alloc, flat, &ring.places, bridge.place, count)
}

// Joins one hole to a ring.
fn join_one(
    alloc: Global,
    flat: &FlatPoints,
    rings: &mut Vec<Places>,
    runs: &mut Vec<Runs>,
    circles: &mut Vec<Circle>,
    obstacles: &mut Obstacles,
    hole: &[u32],
    later: &[Places],
) -> Result<(), NoMemory>
    requires same { circles.old.items ≡ rings.old.items }
    requires one { 0 < length rings.old.items }
    requires long { All (λ r. 0 < length r) rings.old.items }
    requires some { 0 < length hole.now }
    requires few { All (λ r. length r + length hole.now + 2 < 2 ^ 32) rings.old.items }
    requires runs { HaveRuns (plane_at flat.now) rings.old.items runs.old.items }
    requires boxed { AreBoxed (plane_at flat.now) obstacles.old }
    requires edges { SameEdges (edges_of (rings.old.items ++ hole.now ∷ later.now)) (all_edges obstacles.old) }
    ensures rings { OnOk result (rings.new.items ≡ joined_one (plane_at flat.now) rings.old.items hole.now later.now) }
    ensures circles { OnOk result (circles.new.items ≡ rings.new.items) }
    ensures runs { OnOk result (HaveRuns (plane_at flat.now) rings.new.items runs.new.items) }
    ensures boxed { OnOk result (AreBoxed (plane_at flat.now) obstacles.new) }
    ensures edges { OnOk result (SameEdges (edges_of (rings.new.items ++ later.now)) (all_edges obstacles.new)) }
{
    let joining = Joining {
        flat: *flat,
        rings: rings.as_slice(),
        runs: runs.as_slice(),
        hole,
        later,
        obstacles: &*obstacles,
    };
    if let Some(bridge) = joining.choose() {
        let end = end_of(rings.as_slice(), bridge);
        join_places(alloc, rings, bridge, hole)?;
        follow_join(alloc, flat, rings.as_slice(), runs, bridge, hole.len() + 2)?;
        join_circle(alloc, circles, bridge, hole)?;
        obstacles.add(alloc, flat, end, vertex_at(hole, 0))?;
    }
    Ok(())
}

/// Joins every hole, one after the other.
pub fn join_all(
    alloc: Global,
    flat: &FlatPoints,
    rings: &mut Vec<Places>,
    circles: &mut Vec<Circle>,
    holes: &[Places],
) -> Result<(), NoMemory>
    requires same { circles.old.items ≡ rings.old.items }
    requires long { All (λ r. 0 < length r) rings.old.items }
    requires some { All (λ h. 0 < length h) holes.now }
    requires few { All (λ r. length r + added holes.now < 2 ^ 32) rings.old.items }
    requires edges { length (edges_of rings.old.items ++ edges_of holes.now) ≤ most_halfedges }
    ensures { OnOk result (circles.new.items ≡ joined (plane_at flat.now) rings.old.items holes.now) }
{
    if rings.is_empty() || holes.is_empty() {
        return Ok(());
    }
    let mut runs = runs_of(alloc, flat, rings.as_slice())?;
    let mut obstacles = Obstacles::of(alloc, flat, rings.as_slice(), holes)?;
    for k in 0..holes.len() {
        let hole = &holes[k];
        join_one(
            alloc,
            flat,
            rings,
            &mut runs,
            circles,
            &mut obstacles,
            &hole.places,
            &holes[k + 1..],
        )?;
    }
    Ok(())
}
