// The search for the bridge of a hole.
//
// A bridge is found by passes over the places: the shortest that comes after the last refused one in the order of
// length, ring and place, until one is clear; after 16 refusals one pass asks all the rest. Nearly always one of the
// first two is clear. A pass goes over runs of places, of 64 places when they are made, and leaves out each run whose
// box is no nearer than the best bridge so far is long. It begins with a bridge that is longer by one than the best
// one to the run whose middle place is nearest: that finds the same as a pass that begins with none, and leaves out
// far runs from the first one on, where a ring's first runs are not near. A join makes the run wider into which it
// falls, and a ring's runs are made anew once it is longer by a third. A tree over the places would have to be told
// which of two places comes first, and each join moves the numbers of all places behind it.
ghost use Rattle.std.specs.Prelude.{◌≡◌, ◌<◌, ◌≤◌, ◌&&◌, length, get_or, []};
ghost use Rattle.hole_joining.specs.Seen.{clear_of, bridges_from, bridges_in, bridges_of, IsReady, KnowsObstacles};
ghost use Rattle.hole_joining.specs.Bridges.{chosen};
ghost use Rattle.hole_joining.specs.Passes.{is_after, is_nearer, better, best_of, passes};

use crate::bridge::Bridge;
use crate::joining::Joining;
use crate::vertices::vertex_at;
use face_plane::FlatPoint;

// How many bridges are refused, a pass over all places for each, before the rest is asked in one pass.
const REFUSALS: usize = 16;

// Whether b comes after the last bridge that was refused.
fn is_after(refused: Option<Bridge>, b: Bridge) -> bool
    ensures { result ≡ is_after refused b }
{
    match refused {
        None => true,
        Some(c) => {
            c.squared_length < b.squared_length
                || (c.squared_length == b.squared_length
                    && (c.ring < b.ring || (c.ring == b.ring && c.place < b.place)))
        }
    }
}

// Whether b is shorter than the best so far.
fn is_nearer(best: Option<Bridge>, b: Bridge) -> bool
    ensures { result ≡ is_nearer best b }
{
    match best {
        None => true,
        Some(c) => b.squared_length < c.squared_length,
    }
}

impl Joining<'_> {
    // Whether b comes after the last refused bridge, and is clear where that is asked.
    fn passes(&self, b: Bridge, asks: bool, refused: Option<Bridge>) -> bool
        requires obstacles { KnowsObstacles self.now }
        requires ring { b.ring < length self.now.rings.now }
        requires place { b.place < length (get_or self.now.rings.now b.ring []) }
        ensures { result ≡ passes (clear_of self.now) asks refused b }
    {
        if is_after(refused, b) {
            !asks || self.is_clear(b)
        } else {
            false
        }
    }

    // Whether b is shorter than the best so far and passes.
    fn improves(&self, best: Option<Bridge>, b: Bridge, asks: bool, refused: Option<Bridge>) -> bool
        requires obstacles { KnowsObstacles self.now }
        requires ring { b.ring < length self.now.rings.now }
        requires place { b.place < length (get_or self.now.rings.now b.ring []) }
        ensures { result ≡ (is_nearer best b && passes (clear_of self.now) asks refused b) }
    {
        is_nearer(best, b) && self.passes(b, asks, refused)
    }

    // The best so far, or b where it is shorter and passes.
    fn better(
        &self,
        best: Option<Bridge>,
        b: Bridge,
        asks: bool,
        refused: Option<Bridge>,
    ) -> Option<Bridge>
        requires obstacles { KnowsObstacles self.now }
        requires ring { b.ring < length self.now.rings.now }
        requires place { b.place < length (get_or self.now.rings.now b.ring []) }
        ensures { result ≡ better (passes (clear_of self.now) asks refused) best b }
    {
        if self.improves(best, b, asks, refused) {
            Some(b)
        } else {
            best
        }
    }

    // The best after a pass over the places of one ring from one place on up to another.
    fn best_among(
        &self,
        best: Option<Bridge>,
        ring: usize,
        from: usize,
        to: usize,
        asks: bool,
        refused: Option<Bridge>,
    ) -> Option<Bridge>
        requires obstacles { KnowsObstacles self.now }
        requires ring { ring < length self.now.rings.now }
        requires order { from ≤ to }
        requires within { to ≤ length (get_or self.now.rings.now ring []) }
        ensures { best_of (passes (clear_of self.now) asks refused) result (bridges_from self.now ring to) ≡
            best_of (passes (clear_of self.now) asks refused) best (bridges_from self.now ring from) }
    {
        let start = self.flat.at(vertex_at(self.hole, 0));
        let rings = self.rings;
        let places = &rings[ring];
        let mut best = best;
        for place in from..to {
            let squared_length = FlatPoint::squared_distance(
                start,
                self.flat.at(places.places[place]),
            );
            best = self.better(
                best,
                Bridge {
                    ring,
                    place,
                    squared_length,
                },
                asks,
                refused,
            );
        }
        best
    }

    // The first place of a run of the ring that may be near, and the one after its last: the run whose middle place is the
    // nearest. Both are 0 where the ring has no runs.
    fn near(&self, ring: usize) -> (usize, usize)
        requires ready { IsReady self.now }
        requires ring { ring < length self.now.rings.now }
    {
        let start = self.flat.at(vertex_at(self.hole, 0));
        let rings = self.rings;
        let places = &rings[ring];
        let runs = self.runs;
        let mut least = u64::MAX;
        let mut near = (0, 0);
        let mut place = 0usize;
        for run in runs[ring].as_slice() {
            let end = place.saturating_add(run.count);
            if let Some(middle) = places.places.get(place.saturating_add(run.count / 2)) {
                let squared_length = FlatPoint::squared_distance(start, self.flat.at(*middle));
                if squared_length < least {
                    least = squared_length;
                    near = (place, end);
                }
            }
            place = end;
        }
        near
    }

    // One longer than the bridge to a place of the ring, where that one is shorter than the best so far and passes, so that a
    // pass over the ring finds the same from there; else the best so far.
    fn bound_at(
        &self,
        best: Option<Bridge>,
        ring: usize,
        place: usize,
        asks: bool,
        refused: Option<Bridge>,
    ) -> Option<Bridge>
        requires obstacles { KnowsObstacles self.now }
        requires ring { ring < length self.now.rings.now }
        requires place { place < length (get_or self.now.rings.now ring []) }
        ensures { best_of (passes (clear_of self.now) asks refused) result (bridges_in self.now ring) ≡
            best_of (passes (clear_of self.now) asks refused) best (bridges_in self.now ring) }
    {
        let start = self.flat.at(vertex_at(self.hole, 0));
        let rings = self.rings;
        let places = &rings[ring];
        let squared_length = FlatPoint::squared_distance(start, self.flat.at(places.places[place]));
        let bridge = Bridge {
            ring,
            place,
            squared_length,
        };
        if squared_length == u64::MAX {
            return best;
        }
        if self.improves(best, bridge, asks, refused) {
            Some(Bridge {
                ring,
                place,
                squared_length: squared_length + 1,
            })
        } else {
            best
        }
    }

    // With what a pass over the places of one ring begins, so that it leaves out far runs from the first one on: the bound by
    // the best bridge to a run that may be near.
    fn bound(
        &self,
        best: Option<Bridge>,
        ring: usize,
        asks: bool,
        refused: Option<Bridge>,
    ) -> Option<Bridge>
        requires ready { IsReady self.now }
        requires ring { ring < length self.now.rings.now }
        ensures { best_of (passes (clear_of self.now) asks refused) result (bridges_in self.now ring) ≡
            best_of (passes (clear_of self.now) asks refused) best (bridges_in self.now ring) }
    {
        let (from, to) = self.near(ring);
        let rings = self.rings;
        let places = &rings[ring];
        let len = places.places.len();
        let to = to.min(len);
        match self.best_among(None, ring, from.min(to), to, false, refused) {
            Some(bridge) if bridge.place < len => {
                self.bound_at(best, ring, bridge.place, asks, refused)
            }
            _ => best,
        }
    }

    // The best after a pass over the places of one ring. Runs of places that are farther away than the best so far are left
    // out.
    fn best_in(
        &self,
        best: Option<Bridge>,
        ring: usize,
        asks: bool,
        refused: Option<Bridge>,
    ) -> Option<Bridge>
        requires ready { IsReady self.now }
        requires ring { ring < length self.now.rings.now }
        ensures { result ≡ best_of (passes (clear_of self.now) asks refused) best (bridges_in self.now ring) }
    {
        let start = self.flat.at(vertex_at(self.hole, 0));
        let rings = self.rings;
        let places = &rings[ring];
        let len = places.places.len();
        let runs = self.runs;
        let mut best = self.bound(best, ring, asks, refused);
        let mut place = 0;
        for run in runs[ring].as_slice() {
            let end = place + run.count;
            if !run.is_far(start, best) {
                best = self.best_among(best, ring, place, end, asks, refused);
            }
            place = end;
        }
        self.best_among(best, ring, place, len, asks, refused)
    }

    // The best after a pass over all places.
    fn best(&self, asks: bool, refused: Option<Bridge>) -> Option<Bridge>
        requires { IsReady self.now }
        ensures { result ≡ best_of (passes (clear_of self.now) asks refused) None (bridges_of self.now) }
    {
        let mut best = None;
        for ring in 0..self.rings.len() {
            best = self.best_in(best, ring, asks, refused);
        }
        best
    }

    /// The shortest clear bridge, of equal ones the first by ring, then place; where none is clear, the shortest of all by
    /// the same rule. The bridges are asked in this order, each found by a pass over all places: nearly always one of the
    /// first two is clear. After some refusals all the rest is asked in one pass.
    pub fn choose(&self) -> Option<Bridge>
        requires { IsReady self.now }
        ensures { result ≡ chosen (clear_of self.now) (bridges_of self.now) }
    {
        let any = self.best(false, None);
        let mut refused = None;
        let mut next = any;
        for _ in 0..REFUSALS {
            let Some(bridge) = next else {
                return any;
            };
            if self.is_clear(bridge) {
                return next;
            }
            refused = next;
            next = self.best(false, refused);
        }
        self.best(true, refused).or(any)
    }
}
