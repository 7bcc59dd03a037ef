// The triangles of a plane.
ghost use Rattle.std.specs.Prelude.{◌≡◌, ◌<◌, false, find, get_or, length};
ghost use Rattle.std.specs.List.{All};
ghost use Rattle.plane_chains.specs.Listed.{faces_side};

use crate::lists::Rims;
use crate::local_labels::LocalLabels;

/// The triangles that lie in a plane, by their numbers, with whether each of all triangles faces front, and the rims and labels of those in the plane.
#[derive(Drop)]
pub struct PlaneFaces<'a> {
    pub numbers: &'a [u32],
    pub fronts: &'a [bool],
    pub rims: Rims,
    pub labels: LocalLabels,
}

impl PlaneFaces<'_> {
    /// Whether a triangle of the plane faces front.
    pub fn is_front(&self, i: usize) -> bool
        requires place { i < length self.now.numbers.now }
        requires fronts { All (λ t. t < length self.now.fronts.now) self.now.numbers.now }
        ensures { result ≡ get_or self.now.fronts.now (get_or self.now.numbers.now i 0) false }
    {
        self.fronts[self.numbers[i] as usize]
    }

    /// The first triangle that faces one side, the front or the back.
    pub fn first(&self, front: bool) -> Option<u32>
        requires { All (λ t. t < length self.now.fronts.now) self.now.numbers.now }
        ensures { result ≡ find (faces_side self.now.fronts.now front) self.now.numbers.now }
    {
        for number in self.numbers {
            if self.fronts[*number as usize] == front {
                return Some(*number);
            }
        }
        None
    }
}
