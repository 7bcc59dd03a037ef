// Triangles that are kept at hand.
ghost use Rattle.std.specs.Prelude.{◌≡◌};
ghost use Rattle.inspection_laws.specs.Boxes.{box_round};
ghost use Rattle.self_cuts.specs.Faces.{places};

use crate::triangle::Triangle;
use mb_base::Box3;

/// A triangle with its number and its box.
#[derive(Clone, Copy, Drop)]
pub struct Seen {
    pub number: u32,
    pub own: Box3,
    pub triangle: Triangle,
    ghost own_is: { own ≡ box_round (places triangle) },
}
