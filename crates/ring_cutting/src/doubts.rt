// Which places may be ears.
//
// A long ring keeps what it was told. A place that turned out to be no ear is asked again only once a neighbour of it
// or the place that was found in its triangle is cut; all others that are left are in doubt. Nothing is claimed of a
// place in doubt, so an ear that ceases to be one, and one that is asked for nothing, do no harm. That a place in
// doubt is *asked* at most some two or three times was seen on all rings that were tried, and is not proved.
ghost use Rattle.std.specs.Prelude.{◌≡◌, ◌≢◌, ◌+◌, ◌<◌, ◌≤◌, [], ℕ, List, length, get_or, set, IfOk, OnOk, IfSome, IfNone, true, false};
ghost use Rattle.std.specs.Ordering.{nat_cmp};
ghost use Rattle.std.specs.BTreeSet.{contains, btree_set_len};
ghost use Rattle.face_plane.specs.Rings.{In};
ghost use Rattle.ring_cutting.specs.declared.place.Place.{Place};
ghost use Rattle.ring_cutting.specs.Left.{lives, after_of, AreLeft, AreLeftBut};
ghost use Rattle.ring_cutting.specs.Linked.{is_left, is_ear_in, AreLinks, NoEarIn, NoEarBefore, HasReasonIn, AreSettledIn};
ghost use Rattle.ring_cutting.specs.Spans.{HasHulls};

use crate::asked::is_open;
use crate::hulls::{Hulls, blocker_of};
use crate::links::{Links, after, before, take_out};
use crate::place::Place;
use crate::waiters::Waiters;
use mb_base::NoMemory;
use std::alloc::Global;
use std::collections::BTreeSet;

// The places that may be ears, and for each place those in whose triangle it was found. No other place is an ear.
#[derive(Debug, Drop)]
pub struct Doubts {
    pub doubtful: BTreeSet<usize>,
    pub waiting: Vec<Waiters>,
}

// All places are in doubt.
pub(crate) fn all_doubtful(alloc: Global, len: usize) -> Result<Doubts, NoMemory>
    ensures many { IfOk result (λ d. length d.waiting.items ≡ len) }
    ensures all { IfOk result (λ d. (i : ℕ) → i < len → contains nat_cmp d.doubtful i ≡ true) }
    ensures only { IfOk result (λ d. (i : ℕ) → contains nat_cmp d.doubtful i ≡ true → i < len) }
{
    let mut doubtful = BTreeSet::new(alloc);
    let mut waiting = Vec::with_capacity(alloc, len)?;
    for i in 0..len {
        put(&mut doubtful, i)?;
        waiting.push(Waiters::none(alloc))?;
    }
    Ok(Doubts { doubtful, waiting })
}

// Puts a place into doubt.
fn put(doubtful: &mut BTreeSet<usize>, i: usize) -> Result<(), NoMemory>
    ensures has { OnOk result (contains nat_cmp doubtful.new i ≡ true) }
    ensures others { OnOk result ((q : ℕ) → q ≢ i → contains nat_cmp doubtful.new q ≡ contains nat_cmp doubtful.old q) }
{
    match doubtful.insert(i) {
        Ok(_) => Ok(()),
        Err(_) => Err(NoMemory),
    }
}

// Takes a place out of doubt.
fn drop_doubt(doubtful: &mut BTreeSet<usize>, i: usize)
    ensures gone { contains nat_cmp doubtful.new i ≡ false }
    ensures others { (q : ℕ) → q ≢ i → contains nat_cmp doubtful.new q ≡ contains nat_cmp doubtful.old q }
    ensures fewer { contains nat_cmp doubtful.old i ≡ true → btree_set_len doubtful.new + 1 ≡ btree_set_len doubtful.old }
{
    doubtful.remove(&i);
}

// The least place in doubt.
fn least(doubtful: &BTreeSet<usize>) -> Option<usize>
    ensures one { IfSome result (λ i. contains nat_cmp doubtful.now i ≡ true) }
    ensures least { IfSome result (λ i. (q : ℕ) → contains nat_cmp doubtful.now q ≡ true → i ≤ q) }
    ensures none { IfNone result ((q : ℕ) → contains nat_cmp doubtful.now q ≡ false) }
{
    match doubtful.first() {
        Some(i) => Some(*i),
        None => None,
    }
}

// The least ear.
pub(crate) fn least_ear(
    doubts: &mut Doubts,
    places: &[Place],
    links: &Links,
    hulls: &Hulls,
) -> Result<Option<usize>, NoMemory>
    requires few { length places.now ≤ 100000000 }
    requires hulls { HasHulls places.now links.now.living.items hulls.now }
    requires linked { AreLinks (length places.now) links.now }
    requires settled { AreSettledIn places.now links.now doubts.old }
    ensures settled { OnOk result (AreSettledIn places.now links.now doubts.new) }
    ensures living { IfOk result (λ o. IfSome o (λ i. is_left links.now i ≡ true)) }
    ensures ear { IfOk result (λ o. IfSome o (λ i. is_ear_in places.now links.now i ≡ true)) }
    ensures least { IfOk result (λ o. IfSome o (λ i. NoEarBefore places.now links.now i)) }
    ensures none { IfOk result (λ o. IfNone o (NoEarIn places.now links.now)) }
{
    while let Some(i) = least(&doubts.doubtful) {
        if settle(&mut doubts.waiting, places, links, hulls, i)? {
            return Ok(Some(i));
        }
        drop_doubt(&mut doubts.doubtful, i);
    }
    Ok(None)
}

// Whether a place is an ear. Where another lies in its triangle, it waits until that is cut.
fn settle(
    waiting: &mut Vec<Waiters>,
    places: &[Place],
    links: &Links,
    hulls: &Hulls,
    i: usize,
) -> Result<bool, NoMemory>
    requires few { length places.now ≤ 100000000 }
    requires hulls { HasHulls places.now links.now.living.items hulls.now }
    requires linked { AreLinks (length places.now) links.now }
    requires living { is_left links.now i ≡ true }
    requires many { length waiting.old.items ≡ length places.now }
    ensures many { length waiting.new.items ≡ length places.now }
    ensures kept { OnOk result ((w j : ℕ) → In j (get_or waiting.old.items w []) → In j (get_or waiting.new.items w [])) }
    ensures ear { IfOk result (λ b. b ≡ is_ear_in places.now links.now i) }
    ensures reason { IfOk result (λ b. b ≡ false → HasReasonIn places.now links.now waiting.new.items i) }
{
    if !is_open(places, links, i) {
        return Ok(false);
    }
    match blocker_of(hulls, places, links, i) {
        Some(w) => {
            waiting[w].push(i)?;
            Ok(false)
        }
        None => Ok(true),
    }
}

// Takes a place out. What waited for it is in doubt, and so are its neighbours.
pub(crate) fn cut_out(doubts: &mut Doubts, links: &mut Links, i: usize) -> Result<(), NoMemory>
    requires linked { AreLinks (length doubts.old.waiting.items) links.old }
    requires living { is_left links.old i ≡ true }
    requires apart { after_of links.old.after.items i ≢ i }
    ensures linked { OnOk result (AreLinks (length doubts.old.waiting.items) links.new) }
    ensures living { OnOk result (links.new.living.items ≡ set links.old.living.items i false) }
    ensures settled { OnOk result ((ps : List Place) → AreSettledIn ps links.old doubts.old →
        AreSettledIn ps links.new doubts.new) }
{
    let (p, n) = (before(links, i), after(links, i));
    take_out(links, i);
    let waiting = doubts.waiting[i].places();
    doubt_round(&mut doubts.doubtful, &links.living, waiting, i, p, n)?;
    Ok(())
}

// Takes a place out of doubt, and puts what waited for it and its neighbours into it.
fn doubt_round(
    doubtful: &mut BTreeSet<usize>,
    living: &[bool],
    waiting: &[usize],
    i: usize,
    p: usize,
    n: usize,
) -> Result<(), NoMemory>
    ensures kept { OnOk result ((q : ℕ) → q ≢ i → contains nat_cmp doubtful.old q ≡ true → contains nat_cmp doubtful.new q ≡ true) }
    ensures woken { OnOk result ((q : ℕ) → In q waiting.now → lives living.now q ≡ true → contains nat_cmp doubtful.new q ≡ true) }
    ensures before { OnOk result (contains nat_cmp doubtful.new p ≡ true) }
    ensures after { OnOk result (contains nat_cmp doubtful.new n ≡ true) }
    ensures known { OnOk result (lives living.now p ≡ true → lives living.now n ≡ true → AreLeftBut i doubtful.old living.now →
        AreLeft doubtful.new living.now) }
{
    drop_doubt(doubtful, i);
    wake(doubtful, living, waiting)?;
    put(doubtful, p)?;
    put(doubtful, n)?;
    Ok(())
}

// Puts those of some places that are left into doubt.
fn wake(doubtful: &mut BTreeSet<usize>, living: &[bool], places: &[usize]) -> Result<(), NoMemory>
    ensures woken { OnOk result ((q : ℕ) → In q places.now → lives living.now q ≡ true → contains nat_cmp doubtful.new q ≡ true) }
    ensures kept { OnOk result ((q : ℕ) → contains nat_cmp doubtful.old q ≡ true → contains nat_cmp doubtful.new q ≡ true) }
    ensures known { OnOk result (AreLeft doubtful.old living.now → AreLeft doubtful.new living.now) }
{
    for k in 0..places.len() {
        wake_one(doubtful, living, places[k])?;
    }
    Ok(())
}

// Puts a place into doubt if it is left.
fn wake_one(doubtful: &mut BTreeSet<usize>, living: &[bool], i: usize) -> Result<(), NoMemory>
    ensures woken { OnOk result (lives living.now i ≡ true → contains nat_cmp doubtful.new i ≡ true) }
    ensures kept { OnOk result ((q : ℕ) → contains nat_cmp doubtful.old q ≡ true → contains nat_cmp doubtful.new q ≡ true) }
    ensures known { OnOk result (AreLeft doubtful.old living.now → AreLeft doubtful.new living.now) }
{
    if !is_living(living, i) {
        return Ok(());
    }
    put(doubtful, i)?;
    Ok(())
}

// Whether a place is left.
fn is_living(living: &[bool], i: usize) -> bool
    ensures { result ≡ lives living.now i }
{
    i < living.len() && living[i]
}
