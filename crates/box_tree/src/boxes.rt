// Boxes that are told one by one.
//
// A tree is built over boxes that are told one by one, so a side lists no boxes of its faces: each is made anew when
// it is asked for. A tree asks for each box at most four times, at most five times where it keeps a copy of them, and
// at most three times where whole steps are known of them. That they are boxes, and not too many, are conditions of
// `Tree::over`.
ghost use Rattle.std.specs.Prelude.{◌≡◌, ◌<◌, IfSome, List, length};
ghost use Rattle.std.specs.List.{All};
ghost use Rattle.mb_base.specs.declared.point.Box3.{Box3};
ghost use Rattle.box_tree.specs.Coarse.{IsExact, bounds_around};
ghost use Rattle.box_tree.specs.Touching.{box_at};

use crate::bounds::Bounds;
use mb_base::Box3;

/// Boxes, numbered from 0, that are told one by one, so that they need not lie in memory.
pub trait Boxes {
    /// The boxes, in the order of their numbers.
    ghost boxes: { Self → List Box3 };

    /// How many boxes there are.
    fn count(&self) -> usize
        ensures { result ≡ length (boxes self.now) };

    /// The box of a number. A tree asks for each a few times while it is built.
    fn box_at(&self, number: usize) -> Box3
        requires { number < length (boxes self.now) }
        ensures { result ≡ box_at (boxes self.now) number };

    /// The power of two of coarse steps of which each coordinate of each box is a whole number, less than 2^31 - 1 of them on either
    /// side of 0, where one is known. Then no box is looked at to find such steps.
    fn whole_steps(&self) -> Option<u32>
        ensures small { IfSome result (λ shift. shift < 64) }
        ensures exact { IfSome result (λ shift. All (IsExact shift) (boxes self.now)) };

    /// The box of a number in coarse steps of 2^shift, rounded outwards.
    fn bounds_at(&self, number: usize, shift: u32) -> Bounds
        requires number { number < length (boxes self.now) }
        requires shift { shift < 64 }
        ensures { result ≡ bounds_around shift (box_at (boxes self.now) number) };
}

impl Boxes for &[Box3] {
    ghost boxes = { λ s. s.now };

    #[inline]
    fn count(&self) -> usize {
        self.len()
    }

    #[inline]
    fn box_at(&self, number: usize) -> Box3 {
        self[number]
    }

    #[inline]
    fn whole_steps(&self) -> Option<u32> {
        None
    }

    #[inline]
    fn bounds_at(&self, number: usize, shift: u32) -> Bounds {
        Bounds::around(&self[number], shift)
    }
}
