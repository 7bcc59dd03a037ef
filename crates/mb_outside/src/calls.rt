// The calls of a shelf or a sink in memory, some of which are to fail.
ghost use Rattle.std.specs.Prelude.{◌≡◌};
ghost use Rattle.mb_outside.specs.Calls.{Calls, is_listed, next};

use std::marker::Model;

/// The numbers of the calls that are to fail, counted from 1, and how many calls there were.
#[derive(Drop)]
pub struct FailingCalls {
    fails: Vec<u64>,
    made: u64,
}

impl Model for FailingCalls {
    ghost Value = { Calls };

    ghost view = { λ c. record { fails = c.fails.items; made = c.made } };
}

impl FailingCalls {
    pub fn of(fails: Vec<u64>) -> FailingCalls
        ensures { result ≡ record { fails = fails.items; made = 0 } }
    {
        FailingCalls { fails, made: 0 }
    }

    /// Counts a call, and answers whether it is one that is to fail.
    pub fn fails_now(&mut self) -> bool
        ensures listed { result ≡ is_listed self.old }
        ensures counted { self.new ≡ next self.old }
    {
        self.made = self.made.saturating_add(1);
        self.fails.contains(&self.made)
    }
}
