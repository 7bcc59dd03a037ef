// What the calls leave, read once round.
ghost use Rattle.std.specs.Prelude.{◌≡◌};

use loop_ring::Ring;

// Whether a list has this value at a place.
fn is_at(list: &[u32], place: usize, value: u32) -> bool {
    place < list.len() && list[place] == value
}

/// Whether a ring has these values from its cursor once round, by `get` and `step`, which bring the cursor back.
pub fn has(ring: &mut Ring, wanted: &[u32]) -> bool
    ensures { ring.new ≡ ring.old }
{
    let mut same = ring.len() == wanted.len();
    for place in 0..ring.len() {
        same &= is_at(wanted, place, ring.get());
        ring.step();
    }
    same
}

#[test]
fn each_call_leaves_the_list_that_it_says(rt: HostRuntime) {
    let alloc = rt.alloc();
    let mut ring = Ring::of(alloc, &[1, 2, 3]).expect(&rt, "a ring");
    ring.step();
    assert!(rt; has(&mut ring, &[2, 3, 1]));
    ring.cut();
    assert!(rt; has(&mut ring, &[3, 1]));
    ring.splice(Ring::of(alloc, &[7, 8]).expect(&rt, "a ring"));
    assert!(rt; has(&mut ring, &[3, 1, 7, 8]));
    ring.grow(9).expect(&rt, "one place more");
    assert!(rt; has(&mut ring, &[3, 1, 7, 8, 9]));
    ring.back();
    assert!(rt; has(&mut ring, &[9, 3, 1, 7, 8]));
    assert!(rt; ring.len() == 5 && ring.ahead() == 3 && ring.behind() == 8);
}

#[test]
fn a_lone_place_is_its_own_neighbour(rt: HostRuntime) {
    let mut ring = Ring::of(rt.alloc(), &[6]).expect(&rt, "a ring");
    assert!(rt; ring.len() == 1 && ring.get() == 6 && ring.ahead() == 6 && ring.behind() == 6);
    ring.step();
    ring.back();
    assert!(rt; has(&mut ring, &[6]));
}
