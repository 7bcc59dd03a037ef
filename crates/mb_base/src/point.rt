// Points of the grid, corners of simplices and boxes.
ghost use Rattle.std.specs.Prelude.{◌≡◌, ◌↔◌, ◌∷◌, [], ℤ, List, IsTrue, IsSome, IfSome, Some, length};
ghost use Rattle.mesh_terms.specs.Points.{IsOnGrid, IsPoint};

use std::marker::Model;

/// The size of the greatest coordinate of a point, in grid steps.
const GRID_END: u32 = 1 << 30;

/// A point of the grid: three whole coordinates from -2^30 to 2^30 grid steps.
#[derive(Clone, Copy, Debug, PartialEq, Eq, Drop)]
pub struct Point {
    x: i32,
    y: i32,
    z: i32,
}

impl Model for Point {
    ghost use Rattle.std.specs.Prelude.{ℤ, List, [], ◌∷◌};
    ghost use Rattle.mesh_terms.specs.Points.{IsOnGrid, coordinate_of};

    ghost Value = { List ℤ };

    ghost view = { λ p. p.x ∷ p.y ∷ p.z ∷ [] };

    ghost invariant = { λ p. IsOnGrid p.x × IsOnGrid p.y × IsOnGrid p.z };

    ghost inverse = { λ c. record { x = coordinate_of c 0; y = coordinate_of c 1; z = coordinate_of c 2 } };
}

// Whether a coordinate lies on the grid.
fn is_on_grid(coordinate: i32) -> bool
    ensures { IsTrue result ↔ IsOnGrid coordinate }
{
    coordinate.unsigned_abs() <= GRID_END
}

impl Point {
    /// The point with these coordinates in grid steps; None where one of them is outside the grid.
    pub fn of(x: i32, y: i32, z: i32) -> Option<Point>
        ensures on_grid { IsSome result ↔ (IsOnGrid x × IsOnGrid y × IsOnGrid z) }
        ensures value { IfSome result (λ p. p ≡ x ∷ y ∷ z ∷ []) }
    {
        if is_on_grid(x) && is_on_grid(y) && is_on_grid(z) {
            Some(Point { x, y, z })
        } else {
            None
        }
    }

    /// The coordinates x, y and z in grid steps.
    pub fn at(&self) -> [i32; 3]
        ensures value { result ≡ self.now }
        ensures on_grid { IsPoint self.now }
    {
        [self.x, self.y, self.z]
    }
}

/// A corner of a simplex in fine steps, with a mark for each axis on which it counts as moved up by
/// less than any number above 0.
#[derive(Clone, Copy, Debug, PartialEq, Eq, Drop)]
pub struct Corner {
    pub at: [i64; 3],
    pub up: [bool; 3],
}

/// A box in fine steps, its rim included.
#[derive(Clone, Copy, Debug, PartialEq, Eq, Drop)]
pub struct Box3 {
    pub low: [i64; 3],
    pub high: [i64; 3],
}
