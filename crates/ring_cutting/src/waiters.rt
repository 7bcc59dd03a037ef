// Places that wait for one.
ghost use Rattle.std.specs.Prelude.{◌≡◌, ◌++◌, ◌∷◌, [], OnOk};

use mb_base::NoMemory;
use std::alloc::Global;
use std::marker::Model;

// The numbers of the places in whose triangle a place was found.
#[derive(Debug, Drop)]
pub struct Waiters {
    places: Vec<usize>,
}

impl Model for Waiters {
    ghost use Rattle.std.specs.Prelude.{ℕ, List};

    ghost Value = { List ℕ };

    ghost view = { λ w. w.places.items };
}

impl Waiters {
    // No places.
    pub(crate) fn none(alloc: Global) -> Waiters
        ensures { result ≡ [] }
    {
        Waiters {
            places: Vec::new(alloc),
        }
    }

    // One more.
    pub(crate) fn push(&mut self, i: usize) -> Result<(), NoMemory>
        ensures { OnOk result (self.new ≡ self.old ++ i ∷ []) }
    {
        self.places.push(i)?;
        Ok(())
    }

    // All of them.
    pub(crate) fn places(&self) -> &[usize]
        ensures { result.now ≡ self.now }
    {
        &self.places
    }
}
