// How far some boxes reach, which zero bits all of their coordinates share, and the coarse steps over them.
ghost use Rattle.std.specs.Prelude.{◌≡◌, ◌<◌, ℤ, IsTrue};
ghost use Rattle.std.specs.List.{All};
ghost use Rattle.box_tree.specs.Coarse.{AreEnds, HasEnds, IsExact, IsWhole};
ghost use Rattle.box_tree.specs.Extents.{IsCovered};

use crate::boxes::Boxes;
use mb_base::Box3;

/// How the coordinates of boxes are quantized.
#[derive(Clone, Copy, Drop)]
pub struct Quantization {
    /// The power of two of a coarse step.
    pub shift: u32,
    /// Whether the boxes in coarse steps are the boxes, with nothing lost.
    pub exact: bool,
}

/// What some coordinates have in common, whatever their signs.
#[derive(Clone, Copy, Drop)]
struct Extent {
    // The binary digits of all of them, laid over each other.
    digits: u64,
    // The greatest distance from 0.
    most: u64,
}

const NO_EXTENT: Extent = Extent { digits: 0, most: 0 };

impl Extent {
    // With another coordinate.
    #[inline]
    fn with(self, at: i64) -> Extent
        ensures new { IsCovered result at }
        ensures others { (z : ℤ) → IsCovered self z → IsCovered result z }
    {
        let distance = at.unsigned_abs();
        Extent {
            digits: self.digits | distance,
            most: self.most.max(distance),
        }
    }

    // With three more, the ends of a box.
    #[inline]
    fn with_ends(self, ends: &[i64; 3]) -> Extent
        ensures new { AreEnds (IsCovered result) ends.now }
        ensures others { (z : ℤ) → IsCovered self z → IsCovered result z }
    {
        let one = self.with(ends[0]);
        let two = one.with(ends[1]);
        two.with(ends[2])
    }

    // With those of another box.
    #[inline]
    fn with_box(self, one: &Box3) -> Extent
        ensures new { HasEnds (IsCovered result) one.now }
        ensures others { (z : ℤ) → IsCovered self z → IsCovered result z }
    {
        self.with_ends(&one.low).with_ends(&one.high)
    }

    // The greatest steps of which each coordinate is a whole number, where an i32 holds that number; or else the least steps whose
    // number an i32 holds.
    fn quantization(self) -> Quantization
        ensures small { result.shift < 64 }
        ensures exact { (z : ℤ) → IsTrue result.exact → IsCovered self z → IsWhole result.shift z }
    {
        let shared = self.digits.trailing_zeros().min(63);
        let exact = self.most >> shared < 0x7fff_ffff;
        let shift = if exact { shared } else { shift_over(self.most) };
        Quantization { shift, exact }
    }
}

// The least power of two such that a number, in steps of it, is no greater than an i32.
fn shift_over(most: u64) -> u32
    ensures { result < 64 }
{
    (64 - most.leading_zeros()).saturating_sub(31)
}

// The quantization in the coarse steps that the coordinates of the boxes have in common.
fn common_quantization<B: Boxes>(boxes: &B) -> Quantization
    ensures small { result.shift < 64 }
    ensures exact { IsTrue result.exact → All (IsExact result.shift) (B.boxes boxes.now) }
{
    let mut extent = NO_EXTENT;
    for number in 0..boxes.count() {
        extent = extent.with_box(&boxes.box_at(number));
    }
    extent.quantization()
}

/// The quantization of boxes: in the coarse steps that are known of them, or else in those that they are found to have in common.
pub fn quantization_of<B: Boxes>(boxes: &B) -> Quantization
    ensures small { result.shift < 64 }
    ensures exact { IsTrue result.exact → All (IsExact result.shift) (B.boxes boxes.now) }
{
    match boxes.whole_steps() {
        Some(shift) => Quantization { shift, exact: true },
        None => common_quantization(boxes),
    }
}
