// A walk through a tree.
ghost use Rattle.std.specs.Prelude.{◌≡◌, ◌+◌, ◌-◌, ◌*◌, ◌^◌, ◌<◌, ◌≤◌, ◌⊎◌, ◌++◌, ◌∷◌, [], ℕ, true, false, IsNone, MatchOption, length, get_or, slice_range};
ghost use Rattle.box_tree.specs.declared.nodes.Entry.{Entry};
ghost use Rattle.box_tree.specs.Touching.{touches};
ghost use Rattle.box_tree.specs.Nodes.{node_at};
ghost use Rattle.box_tree.specs.Walks.{IsQuestion, IsWalk, hits, hits_below, hits_waiting, hits_left, is_hit, nodes_below};

use crate::bounds::Bounds;
use crate::common_point::touch;
use crate::nodes::{Entry, Node};
use crate::{BLOCK, STACK};
use arrayvec::ArrayVec;
use mb_base::Box3;

/// What is asked of a tree: which of its boxes touch an area. The bounds are those of the area, rounded inwards. A box that is not among
/// the boxes is that of its entry's bounds.
#[derive(Clone, Copy, Drop)]
pub struct Question<'t> {
    pub boxes: &'t [Box3],
    pub entries: &'t [Entry],
    pub nodes: &'t [Node],
    pub area: Box3,
    pub bounds: Bounds,
}

/// A walk: the entries from one place to another, and the nodes on the stack, are still to be looked at.
#[derive(Drop)]
pub struct Walk<'t> {
    pub question: Question<'t>,
    pub stack: ArrayVec<u32, STACK>,
    pub at: usize,
    pub end: usize,
}

/// The stack before a walk: the first node, where there are entries. No box touches an area that is no box itself.
pub fn first_stack(entries: &[Entry], area: &Box3) -> ArrayVec<u32, STACK>
    ensures some { 0 < length entries.now → touches area.now area.now ≡ true → result.items ≡ 0 ∷ [] }
    ensures none { (length entries.now ≡ 0) ⊎ (touches area.now area.now ≡ false) → result.items ≡ [] }
{
    let mut stack = ArrayVec::new();
    if !entries.is_empty() && touch(area, area) {
        stack.push(0);
    }
    stack
}

impl<'t> Question<'t> {
    // Whether the box of an entry touches the area.
    #[inline]
    fn is_hit(&self, entry: &Entry) -> bool
        ensures { result ≡ is_hit self.now entry.now }
    {
        let number = entry.number as usize;
        entry.bounds.meets(self.bounds)
            && (self.boxes.len() <= number || touch(&self.boxes[number], &self.area))
    }

    // The first place of a hit, from a place on, or else the end.
    fn next_hit(&self, at: usize, end: usize) -> usize
        requires question { IsQuestion self.now }
        requires order { at ≤ end }
        requires within { end ≤ length self.now.entries.now }
        ensures from { at ≤ result }
        ensures to { result ≤ end }
        ensures hits { hits self.now (slice_range self.now.entries.now at end) ≡ hits self.now (slice_range self.now.entries.now result end) }
        ensures found { (e : Entry) → result < end → is_hit self.now (get_or self.now.entries.now result e) ≡ true }
    {
        for place in at..end {
            if self.is_hit(&self.entries[place]) {
                return place;
            }
        }
        end
    }
}

impl<'t> Walk<'t> {
    // The next number of the entries at hand.
    fn next_at_hand(&mut self) -> Option<u32>
        requires { IsWalk self.old }
        ensures question { self.new.question ≡ self.old.question }
        ensures stack { self.new.stack ≡ self.old.stack }
        ensures walk { IsWalk self.new }
        ensures number { MatchOption result ((self.new.at ≡ self.new.end) × (hits_left self.old ≡ hits_waiting self.old.question self.old.stack.items))
            (λ n. hits_left self.old ≡ n ∷ hits_left self.new) }
    {
        let place = self.question.next_hit(self.at, self.end);
        if place < self.end {
            self.at = place + 1;
            Some(self.question.entries[place].number)
        } else {
            self.at = self.end;
            None
        }
    }

    // Opens a node that was taken from the stack: its entries or its halves are to be looked at.
    fn open(&mut self, place: usize)
        requires walk { IsWalk self.old }
        requires there { place < length self.old.question.nodes.now }
        requires done { self.old.at ≡ self.old.end }
        requires small { ((node_at self.old.question.nodes.now place).count - 1) * 2 ^ length self.old.stack.items < 2 ^ 32 }
        ensures question { self.new.question ≡ self.old.question }
        ensures walk { IsWalk self.new }
        ensures hits { hits_left self.new ≡ hits_below self.old.question place ++ hits_left self.old }
        ensures less { nodes_below self.old.question.nodes.now self.new.stack.items + 2 ≤
            nodes_below self.old.question.nodes.now self.old.stack.items + 2 * (node_at self.old.question.nodes.now place).count }
    {
        let node = self.question.nodes[place];
        if !node.bounds.meets(self.question.bounds) {
            return;
        }
        if node.count == 1 {
            self.at = BLOCK * node.first as usize;
            self.end = self.question.entries.len().min(self.at + BLOCK);
            return;
        }
        let half = node.count - node.count / 2;
        self.stack.push(place as u32 + 2 * half);
        self.stack.push(place as u32 + 1);
    }

    /// The next number.
    pub fn next(&mut self) -> Option<u32>
        requires { IsWalk self.old }
        ensures question { self.new.question ≡ self.old.question }
        ensures walk { IsWalk self.new }
        ensures number { MatchOption result (hits_left self.old ≡ []) (λ n. hits_left self.old ≡ n ∷ hits_left self.new) }
        ensures end { IsNone result → hits_left self.new ≡ [] }
    {
        if let Some(number) = self.next_at_hand() {
            return Some(number);
        }
        while let Some(place) = self.stack.pop() {
            self.open(place as usize);
            if let Some(number) = self.next_at_hand() {
                return Some(number);
            }
        }
        None
    }
}
