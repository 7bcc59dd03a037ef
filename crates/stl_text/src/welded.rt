// Points numbered in the order in which they come first.
ghost use Rattle.std.specs.Prelude.{◌≡◌, ◌<◌, ◌≤◌, [], Ok, IfOk, IfErr, OnOk, OnErr, length};
ghost use Rattle.mesh_terms.specs.Limits.{most_points};
ghost use Rattle.mesh_terms.specs.Points.{IsPoint};
ghost use Rattle.format_terms.specs.Stl.{welded};
ghost use Rattle.grid_number.specs.TextFaults.{IsFaultOf};

use indexmap::IndexSet;
use mb_base::{Counted, Limits, Point, TextFault};
use std::alloc::{AllocError, Global};
use std::marker::Model;

/// Different points of the grid, each numbered by its place.
#[derive(Drop)]
pub struct Welded {
    places: IndexSet<[i32; 3]>,
}

impl Model for Welded {
    ghost use Rattle.std.specs.Prelude.{◌≤◌, ℤ, List, length};
    ghost use Rattle.std.specs.List.{All};
    ghost use Rattle.mesh_terms.specs.Limits.{most_points};
    ghost use Rattle.mesh_terms.specs.Points.{IsPoint};

    ghost Value = { List (List ℤ) };

    ghost view = { λ w. w.places.keys };

    ghost invariant = { λ w. All IsPoint w.places.keys × (length w.places.keys ≤ most_points) };
}

impl Welded {
    /// No points.
    pub fn new(alloc: Global) -> Welded
        ensures { result ≡ [] }
    {
        Welded {
            places: IndexSet::new(alloc),
        }
    }

    /// The number of a point, which is added where it is new and the limit allows it.
    pub fn number(&mut self, point: Point, limits: &Limits) -> Result<u32, TextFault>
        ensures number { IfOk result (λ v. welded limits.now self.old point ≡ Ok (v, self.new)) }
        ensures within { IfOk result (λ v. v < length self.new) }
        ensures more { length self.old ≤ length self.new }
        ensures few { length self.new ≤ most_points }
        ensures fault { IfErr result (IsFaultOf (welded limits.now self.old point)) }
        ensures same { OnErr result (self.new ≡ self.old) }
    {
        let at = point.at();
        if let Some(number) = self.places.get_index_of(&at) {
            return Ok(number as u32);
        }
        let number = self.places.len();
        let seen = number as u64 + 1;
        if seen > u64::from(limits.points()) {
            return Err(TextFault::Over {
                what: Counted::Points,
                seen,
            });
        }
        self.places.insert(at)?;
        Ok(number as u32)
    }

    /// The points in the order of their numbers.
    pub fn into_points(self, alloc: Global) -> Result<Vec<Point>, AllocError>
        ensures { IfOk result (λ points. points.items ≡ self) }
    {
        let mut points = Vec::with_capacity(alloc, self.places.len())?;
        for at in self.places.as_slice() {
            points.push(point_at(at))?;
        }
        Ok(points)
    }
}

// The point with these coordinates.
fn point_at(at: &[i32; 3]) -> Point
    requires { IsPoint at.now }
    ensures { result ≡ at.now }
{
    let [x, y, z] = *at;
    match Point::of(x, y, z) {
        Some(point) => point,
        None => unreachable!(),
    }
}
