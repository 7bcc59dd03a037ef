// A counter of steps that a caller makes and hands on.
ghost use Rattle.std.specs.Prelude.{◌≡◌, ◌+◌, ◌<◌};

use mb_base::Steps;
use std::marker::Brand;
use std::sync::ledger::{Blank, Ledger};

// A caller that counts through another one's counter.
fn tick_twice<L: Ledger>(steps: &mut Steps<L>)
    ensures { steps.new ≡ steps.old + 2 }
{
    steps.tick();
    steps.tick();
}

// A caller that makes its own.
fn count_two<L: Ledger>(blank: Blank)
    requires name { blank.name ≡ L.name }
    requires parts { blank.parts ≡ L.parts }
    requires some { 0 < blank.parts }
{
    let mut steps = Steps::<L>::over(blank);
    tick_twice(&mut steps);
}

#[test]
fn a_caller_counts_for_itself(rt: HostRuntime) {
    count_two::<Brand>(Blank::new(1));
}
