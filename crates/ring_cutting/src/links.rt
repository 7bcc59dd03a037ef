// The places of a ring that are left, by their numbers in the ring at the start: each beside the ones after and before it.
ghost use Rattle.std.specs.Prelude.{◌≡◌, ◌<◌, ◌≤◌, IfOk, length, set, false};
ghost use Rattle.ring_cutting.specs.Left.{IsBegun, after_of, before_of};

use mb_base::NoMemory;
use std::alloc::Global;

// The numbers of the places after and before each place that is left, and which are left.
#[derive(Debug, Drop)]
pub struct Links {
    pub after: Vec<usize>,
    pub before: Vec<usize>,
    pub living: Vec<bool>,
}

// The links of a whole ring.
pub(crate) fn linked(alloc: Global, len: usize) -> Result<Links, NoMemory>
    requires { 0 < len }
    ensures { IfOk result (λ l. IsBegun len l.after.items l.before.items l.living.items) }
{
    let mut after = Vec::with_capacity(alloc, len)?;
    let mut before = Vec::with_capacity(alloc, len)?;
    let mut living = Vec::with_capacity(alloc, len)?;
    for i in 0..len {
        after.push(if i + 1 == len { 0 } else { i + 1 })?;
        before.push(if i == 0 { len - 1 } else { i - 1 })?;
        living.push(true)?;
    }
    Ok(Links {
        after,
        before,
        living,
    })
}

// The place after one.
pub(crate) fn after(links: &Links, i: usize) -> usize
    requires { i < length links.now.after.items }
    ensures { result ≡ after_of links.now.after.items i }
{
    links.after[i]
}

// The place before one.
pub(crate) fn before(links: &Links, i: usize) -> usize
    requires { i < length links.now.before.items }
    ensures { result ≡ before_of links.now.before.items i }
{
    links.before[i]
}

// Takes a place out: its neighbours are neighbours now.
pub(crate) fn take_out(links: &mut Links, i: usize)
    requires after_long { i < length links.old.after.items }
    requires before_long { i < length links.old.before.items }
    requires living_long { i < length links.old.living.items }
    requires before_within { before_of links.old.before.items i < length links.old.after.items }
    requires after_within { after_of links.old.after.items i < length links.old.before.items }
    ensures after { links.new.after.items ≡ set links.old.after.items (before_of links.old.before.items i) (after_of links.old.after.items i) }
    ensures before { links.new.before.items ≡ set links.old.before.items (after_of links.old.after.items i) (before_of links.old.before.items i) }
    ensures living { links.new.living.items ≡ set links.old.living.items i false }
{
    let (p, n) = (links.before[i], links.after[i]);
    links.after[p] = n;
    links.before[n] = p;
    links.living[i] = false;
}
