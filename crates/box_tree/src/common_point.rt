// Whether two boxes have a point in common.
ghost use Rattle.std.specs.Prelude.{◌≡◌, ◌↔◌, ◌<◌, IsTrue};
ghost use Rattle.box_tree.specs.Touching.{overlap, overlap_on, touches, CommonPoint};

use mb_base::Box3;

// Whether two intervals have a number in common.
#[inline]
fn have_common(low: i64, high: i64, from: i64, to: i64) -> bool
    ensures { result ≡ overlap low high from to }
{
    low.max(from) <= high.min(to)
}

// Whether two boxes overlap on an axis.
#[inline]
fn overlap_at(a: &Box3, b: &Box3, axis: usize) -> bool
    requires { axis < 3 }
    ensures { result ≡ overlap_on axis a.now b.now }
{
    have_common(a.low[axis], a.high[axis], b.low[axis], b.high[axis])
}

// Whether two boxes overlap on each axis.
#[inline]
fn overlap_everywhere(a: &Box3, b: &Box3) -> bool
    ensures { result ≡ touches a.now b.now }
{
    overlap_at(a, b, 0) && overlap_at(a, b, 1) && overlap_at(a, b, 2)
}

/// Whether two boxes have a point in common, the rims included.
#[inline]
pub fn touch(a: &Box3, b: &Box3) -> bool
    ensures value { result ≡ touches a.now b.now }
    ensures common { IsTrue result ↔ CommonPoint a.now b.now }
{
    overlap_everywhere(a, b)
}
