// Boxes in coarse steps, which take half the room of boxes in fine steps.
//
// A tree holds coordinates in coarse steps, of 32 bits: without the zero bits with which all of them end. Those of a
// side are whole steps of the grid, and `UNIT` is a power of two: so its boxes are told in steps of the grid, read
// from the points of the mesh, and none is looked at to find steps. A box is rounded outwards, and an area inwards:
// what touches meets, and where a box is a whole number of steps, what meets touches. Only where some coordinate
// without those bits is no i32, or one of the last, are the boxes rounded; then the tree keeps a copy of them too.
ghost use Rattle.std.specs.Prelude.{◌≡◌, ◌<◌, ◌^◌, ◌≤ℤ◌, ℤ, neg_ℤ};
ghost use Rattle.std.specs.Int.{int_shr};
ghost use Rattle.box_tree.specs.Coarse.{step_below, step_above, range_around, range_inside, bounds_around, bounds_inside, ranges_meet, bounds_meet, IsRangeIn, IsBoundsIn};

use mb_base::Box3;

/// From low to high, both included, in coarse steps.
#[derive(Clone, Copy, Drop)]
pub struct Range {
    pub low: i32,
    pub high: i32,
}

/// A range on each axis.
#[derive(Clone, Copy, Drop)]
pub struct Bounds {
    pub x: Range,
    pub y: Range,
    pub z: Range,
}

// A coordinate in coarse steps of 2^shift fine steps, rounded down, and cut off at the ends of an i32.
#[inline]
fn step_below(at: i64, shift: u32) -> i32
    requires { shift < 64 }
    ensures { result ≡ step_below shift at }
{
    (at >> shift).clamp(-0x8000_0000, 0x7fff_ffff) as i32
}

// A coordinate in coarse steps of 2^shift fine steps, rounded up: its opposite rounded down, on the other side. The least i64 has no
// opposite, and is a whole number of any steps.
#[inline]
fn rounded_up(at: i64, shift: u32) -> i64
    requires { shift < 64 }
    ensures { result ≡ neg_ℤ (int_shr (neg_ℤ at) shift) }
{
    match at.checked_neg() {
        Some(opposite) => -(opposite >> shift),
        None => at >> shift,
    }
}

// The same, cut off at the ends of an i32.
#[inline]
fn step_above(at: i64, shift: u32) -> i32
    requires { shift < 64 }
    ensures { result ≡ step_above shift at }
{
    rounded_up(at, shift).clamp(-0x8000_0000, 0x7fff_ffff) as i32
}

impl Range {
    // The range of a box on an axis, rounded outwards.
    #[inline]
    fn around(one: &Box3, axis: usize, shift: u32) -> Range
        requires axis { axis < 3 }
        requires shift { shift < 64 }
        ensures { result ≡ range_around shift axis one.now }
    {
        Range {
            low: step_below(one.low[axis], shift),
            high: step_above(one.high[axis], shift),
        }
    }

    // The range of an area on an axis, rounded inwards.
    #[inline]
    fn inside(area: &Box3, axis: usize, shift: u32) -> Range
        requires axis { axis < 3 }
        requires shift { shift < 64 }
        ensures { result ≡ range_inside shift axis area.now }
    {
        Range {
            low: step_above(area.low[axis], shift),
            high: step_below(area.high[axis], shift),
        }
    }

    // Whether neither begins after the other ends.
    #[inline]
    fn meets(self, other: Range) -> bool
        ensures { result ≡ ranges_meet self other }
    {
        self.low <= other.high && other.low <= self.high
    }

    // How far it reaches.
    #[inline]
    fn reach(self) -> u64
        ensures { result < 2 ^ 32 }
    {
        u64::from(self.high.abs_diff(self.low))
    }

    // The range that takes in both.
    #[inline]
    fn joined(self, other: Range) -> Range
        ensures first { IsRangeIn self result }
        ensures second { IsRangeIn other result }
    {
        Range {
            low: self.low.min(other.low),
            high: self.high.max(other.high),
        }
    }
}

impl Bounds {
    /// A box in coarse steps of 2^shift, rounded outwards.
    #[inline]
    pub fn around(one: &Box3, shift: u32) -> Bounds
        requires { shift < 64 }
        ensures { result ≡ bounds_around shift one.now }
    {
        Bounds {
            x: Range::around(one, 0, shift),
            y: Range::around(one, 1, shift),
            z: Range::around(one, 2, shift),
        }
    }

    /// An area in coarse steps of 2^shift, rounded inwards. It may then end before it begins, and still meets the steps around it.
    #[inline]
    pub fn inside(area: &Box3, shift: u32) -> Bounds
        requires { shift < 64 }
        ensures { result ≡ bounds_inside shift area.now }
    {
        Bounds {
            x: Range::inside(area, 0, shift),
            y: Range::inside(area, 1, shift),
            z: Range::inside(area, 2, shift),
        }
    }

    /// Whether the two meet on each axis.
    #[inline]
    pub fn meets(self, other: Bounds) -> bool
        ensures { result ≡ bounds_meet self other }
    {
        self.x.meets(other.x) && self.y.meets(other.y) && self.z.meets(other.z)
    }

    /// Half of their surface, where each step has a width, or 2^64 - 1 where it is more.
    #[inline]
    pub fn surface(self) -> u64 {
        let (x, y, z) = (self.x.reach() + 1, self.y.reach() + 1, self.z.reach() + 1);
        x.saturating_mul(y)
            .saturating_add(y.saturating_mul(z))
            .saturating_add(z.saturating_mul(x))
    }

    /// Bounds that take in both.
    #[inline]
    pub fn joined(self, other: Bounds) -> Bounds
        ensures first { IsBoundsIn self result }
        ensures second { IsBoundsIn other result }
    {
        Bounds {
            x: self.x.joined(other.x),
            y: self.y.joined(other.y),
            z: self.z.joined(other.z),
        }
    }
}
