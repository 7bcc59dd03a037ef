// Clear bridges.
ghost use Rattle.std.specs.Prelude.{◌≡◌, ◌∷◌, ◌<◌, ◌≤◌, length, get_or, []};
ghost use Rattle.std.specs.List.{list_any};
ghost use Rattle.hole_joining.specs.Seen.{plane_at, clear_of, asked_edges, KnowsObstacles};
ghost use Rattle.face_plane.specs.Rings.{vertex_at, vertex_before, vertex_after};
ghost use Rattle.hole_joining.specs.Cones.{in_cone, bars};

use crate::bridge::Bridge;
use crate::flat::FlatPoints;
use crate::joining::Joining;
use crate::vertices::{vertex_after, vertex_at, vertex_before};
use face_plane::FlatPoint;

// Whether the segment from s towards t lies in the cone at s, between p before and n after it.
fn in_cone(flat: &FlatPoints, corner: [u32; 3], t: u32) -> bool
    ensures { result ≡ in_cone (plane_at flat.now) (get_or corner 0 0) (get_or corner 1 0) (get_or corner 2 0) t }
{
    let [p, s, n] = corner;
    let (p, s, n, t) = (flat.at(p), flat.at(s), flat.at(n), flat.at(t));
    if FlatPoint::keeps_left(p, s, n) {
        FlatPoint::turns_left(s, t, p) && FlatPoint::turns_left(t, s, n)
    } else {
        !(FlatPoint::keeps_left(s, t, n) && FlatPoint::keeps_left(t, s, p))
    }
}

// A vertex of a loop with those before and after it.
fn corner(ring: &[u32], place: usize) -> [u32; 3]
    requires { place ≤ length ring.now }
    ensures { result ≡ vertex_before ring.now place ∷ vertex_at ring.now place ∷ vertex_after ring.now place ∷ [] }
{
    [
        vertex_before(ring, place),
        vertex_at(ring, place),
        vertex_after(ring, place),
    ]
}

impl Joining<'_> {
    // Whether an edge of the rings, the hole or a later hole bars the segment between two vertices.
    fn is_barred(&self, h: u32, r: u32) -> bool
        requires { KnowsObstacles self.now }
        ensures { result ≡ list_any (bars (plane_at self.now.flat) h r) (asked_edges self.now) }
    {
        self.obstacles.bar(&self.flat, &self.flat.segment(h, r))
    }

    /// Whether the bridge lies in the cones at both its ends, and no edge bars it.
    pub fn is_clear(&self, bridge: Bridge) -> bool
        requires obstacles { KnowsObstacles self.now }
        requires ring { bridge.ring < length self.now.rings.now }
        requires place { bridge.place < length (get_or self.now.rings.now bridge.ring []) }
        ensures { result ≡ clear_of self.now bridge }
    {
        let rings = self.rings;
        let ring = &rings[bridge.ring];
        let ring = ring.places.as_slice();
        let h = vertex_at(self.hole, 0);
        let r = vertex_at(ring, bridge.place);
        in_cone(&self.flat, corner(self.hole, 0), r)
            && in_cone(&self.flat, corner(ring, bridge.place), h)
            && !self.is_barred(h, r)
    }
}
