// The first point at each place.
ghost use Rattle.std.specs.Prelude.{◌≡◌, ◌≤◌, IfOk, length};
ghost use Rattle.inspection_laws.specs.Sharing.{AreFirsts};
ghost use Rattle.inspection_terms.specs.Inspected.{doubled_count};
ghost use Rattle.mesh_terms.specs.Limits.{most_points};

use indexmap::IndexSet;
use mb_base::{NoMemory, Point};
use std::alloc::Global;

/// For each point the first point at its place, and how many points are not the first at theirs.
#[derive(Drop)]
pub struct FirstPoints {
    pub of: Vec<u32>,
    pub doubled: u32,
}

/// The first points at the places of points.
pub fn firsts(alloc: Global, points: &[Point]) -> Result<FirstPoints, NoMemory>
    requires { length points.now ≤ most_points }
    ensures of { IfOk result (λ f. AreFirsts points.now f.of.items) }
    ensures doubled { IfOk result (λ f. f.doubled ≡ doubled_count points.now) }
{
    let mut places = IndexSet::new(alloc);
    // The first point at each place.
    let mut heads = Vec::new(alloc);
    let mut of = Vec::with_capacity(alloc, points.len())?;
    for (number, point) in points.iter().enumerate() {
        let (place, is_new) = places.insert_full(point.at())?;
        if is_new {
            heads.push(number as u32)?;
        }
        of.push(heads[place])?;
    }
    let doubled = (of.len() - heads.len()) as u32;
    Ok(FirstPoints { of, doubled })
}
