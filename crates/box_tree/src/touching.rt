// The numbers of the boxes that touch an area, one after the other.
ghost use Rattle.std.specs.Iterator.{YieldsFirst, item_count};

use crate::walk::Walk;
use std::marker::Model;

/// The numbers of the boxes that touch an area. A clause sees the list of those that are still to come.
#[derive(Drop)]
pub struct Touching<'t> {
    walk: Walk<'t>,
}

impl<'t> Model for Touching<'t> {
    ghost use Rattle.std.specs.Prelude.{ℕ, List};
    ghost use Rattle.box_tree.specs.Walks.{IsWalk, hits_left};

    ghost Value = { List ℕ };

    ghost view = { λ t. hits_left t.walk };

    ghost invariant = { λ t. IsWalk t.walk };
}

impl<'t> Touching<'t> {
    ghost use Rattle.std.specs.Prelude.{◌≡◌};
    ghost use Rattle.box_tree.specs.Walks.{IsWalk, hits_left};

    /// Goes on with a walk.
    pub(crate) fn along(walk: Walk<'t>) -> Touching<'t>
        requires { IsWalk walk }
        ensures { result ≡ hits_left walk.entry }
    {
        Touching { walk }
    }
}

impl<'t> Iterator for Touching<'t> {
    type Item = u32;

    ghost next_gives = { YieldsFirst (λ rest. rest) };

    ghost remaining = { item_count (λ rest. rest) };

    fn next(&mut self) -> Option<u32> {
        self.walk.next()
    }
}
