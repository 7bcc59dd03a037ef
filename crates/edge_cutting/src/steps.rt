// The points of the grid on a segment.
ghost use Rattle.std.specs.Prelude.{◌≡◌, ◌<◌, ◌≤◌, ◌^◌, pos, ◌+ℤ◌, ◌-ℤ◌, ◌*ℤ◌, false, unsigned_abs};
ghost use Rattle.std.specs.Int.{◌∣◌};
ghost use Rattle.mesh_terms.specs.Points.{IsOnGrid, coordinate_of};
ghost use Rattle.edge_cutting.specs.Spans.{IsCommonStep, IsShort, LeadsTo, box_between, box_round, point_behind, span};
ghost use Rattle.tidy_terms.specs.PointTriples.{same_point};

use crate::divisors::common_divisor;
use mb_base::{Box3, Point};

/// The points of the grid on the segment from one point to another: from its start on, step by step, so many steps.
#[derive(Clone, Copy, Drop)]
pub struct Steps {
    start: [i64; 3],
    step: [i64; 3],
    pub count: u64,
}

impl Steps {
    /// Those between two different points.
    pub fn between(a: Point, b: Point) -> Steps
        requires { same_point a b ≡ false }
        ensures some { 0 < result.count }
        ensures leads { LeadsTo a b result }
        ensures short { IsShort result }
    {
        let count = common_step(a, b);
        let [ax, ay, az] = a.at();
        let [bx, by, bz] = b.at();
        Steps {
            start: [i64::from(ax), i64::from(ay), i64::from(az)],
            step: [
                part(ax, bx, count),
                part(ay, by, count),
                part(az, bz, count),
            ],
            count,
        }
    }

    /// The box of the points so many steps, and so many, behind the start.
    pub fn box_between(&self, from: u64, to: u64) -> Box3
        requires short { IsShort self.now }
        requires from { from ≤ self.now.count }
        requires to { to ≤ self.now.count }
        ensures { result ≡ box_between self.now from to }
    {
        box_round(self.at(from), self.at(to))
    }

    // The point so many steps behind the start.
    fn at(&self, k: u64) -> [i64; 3]
        requires short { IsShort self.now }
        requires within { k ≤ self.now.count }
        ensures { result ≡ point_behind self.now k }
    {
        let [x, y, z] = self.start;
        let [dx, dy, dz] = self.step;
        [moved(x, dx, k), moved(y, dy, k), moved(z, dz, k)]
    }
}

// A coordinate after so many steps.
fn moved(start: i64, step: i64, k: u64) -> i64
    requires start { unsigned_abs start ≤ 2 ^ 30 }
    requires step { unsigned_abs step ≤ 2 ^ 31 }
    requires few { k ≤ 2 ^ 31 }
    ensures { result ≡ start +ℤ pos k *ℤ step }
{
    start + k as i64 * step
}

// The box of two points.
fn box_round(p: [i64; 3], q: [i64; 3]) -> Box3
    ensures { result ≡ box_round p q }
{
    Box3 {
        low: [p[0].min(q[0]), p[1].min(q[1]), p[2].min(q[2])],
        high: [p[0].max(q[0]), p[1].max(q[1]), p[2].max(q[2])],
    }
}

// One of so many parts of the way from one coordinate to another.
fn part(from: i32, to: i32, count: u64) -> i64
    requires from { IsOnGrid from }
    requires to { IsOnGrid to }
    requires some { 0 < count }
    requires few { count ≤ 2 ^ 31 }
    requires whole { count ∣ unsigned_abs (to -ℤ from) }
    ensures value { to -ℤ from ≡ pos count *ℤ result }
    ensures small { unsigned_abs result ≤ 2 ^ 31 }
{
    (i64::from(to) - i64::from(from)) / count as i64
}

/// The greatest number of which the steps between two points on all three axes are multiples.
pub fn common_step(a: Point, b: Point) -> u64
    ensures common { IsCommonStep a b result }
    ensures some { same_point a b ≡ false → 0 < result }
    ensures small { result ≤ 2 ^ 31 }
{
    let [ax, ay, az] = a.at();
    let [bx, by, bz] = b.at();
    common_divisor(step(ax, bx), step(ay, by), step(az, bz))
}

/// How far two points are apart on all three axes together.
pub fn span(a: Point, b: Point) -> u64
    ensures { result ≡ span a b }
{
    let [ax, ay, az] = a.at();
    let [bx, by, bz] = b.at();
    step(ax, bx) + step(ay, by) + step(az, bz)
}

// How far two coordinates are apart.
fn step(a: i32, b: i32) -> u64
    requires a { IsOnGrid a }
    requires b { IsOnGrid b }
    ensures value { result ≡ unsigned_abs (b -ℤ a) }
    ensures small { result ≤ 2 ^ 31 }
{
    u64::from(a.abs_diff(b))
}
