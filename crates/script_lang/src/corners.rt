// Places in the plane.
ghost use Rattle.std.specs.Prelude.{◌≡◌};

use std::marker::Model;

/// Places in the plane, each with its x and y in steps of the grid.
#[derive(Drop)]
pub struct Corners2 {
    points: Vec<[i32; 2]>,
}

impl Model for Corners2 {
    ghost use Rattle.std.specs.Prelude.{ℤ, List};

    ghost Value = { List (List ℤ) };

    ghost view = { λ c. c.points.items };
}

impl Corners2 {
    /// These places.
    pub(crate) fn of(points: Vec<[i32; 2]>) -> Corners2
        ensures { result ≡ points.items }
    {
        Corners2 { points }
    }

    /// The places, in order.
    pub fn points(&self) -> &[[i32; 2]]
        ensures { result.now ≡ self.now }
    {
        &self.points
    }
}
