// The vertices of a ring or a hole as a vector, for passes over all places.
ghost use Rattle.std.specs.Prelude.{◌≡◌, ◌<◌, length, OnOk};
ghost use Rattle.hole_joining.specs.Bridges.{join};

use crate::vertices::vertex_at;
use mb_base::NoMemory;
use std::alloc::Global;
use std::marker::Model;

/// The places of a ring in order, each the number of a vertex; the last place stands before the first.
#[derive(Drop)]
pub struct Places {
    pub places: Vec<u32>,
}

impl Model for Places {
    ghost use Rattle.std.specs.Prelude.{ℕ, List};

    ghost Value = { List ℕ };

    ghost view = { λ r. r.places.items };
}

impl Places {
    /// Puts a hole behind a place, joined by a bridge that is used both ways.
    pub fn join(&mut self, alloc: Global, place: usize, hole: &[u32]) -> Result<(), NoMemory>
        requires { place < length self.old }
        ensures { OnOk result (self.new ≡ join self.old place hole.now) }
    {
        let start = vertex_at(hole, 0);
        let end = vertex_at(&self.places, place);
        let mut added = Vec::with_capacity(alloc, hole.len() + 2)?;
        added.extend_from_slice(hole)?;
        added.extend_from_slice(&[start, end])?;
        self.places.splice(place + 1..place + 1, added)?;
        Ok(())
    }
}
