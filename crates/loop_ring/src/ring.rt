// The ring: nodes in a circle, and a cursor at one of them.
ghost use Rattle.std.specs.Prelude.{◌≡◌, ◌+◌, ◌-◌, ◌<◌, ◌^◌, [], ◌∷◌, ◌++◌, length, drop, slice_index, IfOk, OnOk, OnErr};
ghost use Rattle.loop_ring.specs.Circles.{IsCircle};
ghost use Rattle.loop_ring.specs.Turning.{turned_to};

use crate::nodes::{Node, Nodes};
use mb_base::NoMemory;
use std::alloc::Global;
use std::marker::Model;

/// A circular list of numbers with a cursor at one of its places. It has at least one place. Contracts see it as the list of
/// its values from the cursor once round. Each place is a node in memory of its own, linked to the two beside it, so a ring
/// is cut and joined in constant time; its nodes are freed where it ends.
pub struct Ring {
    nodes: Nodes,
    // The node at the cursor.
    first: *mut Node,
    len: usize,
    alloc: Global,
}

impl Model for Ring {
    ghost use Rattle.std.specs.Prelude.{◌≡◌, ℕ, List, length};
    ghost use Rattle.loop_ring.specs.Circles.{IsCircle};
    ghost use Rattle.loop_ring.specs.Located.{values};

    ghost Value = { List ℕ };

    ghost view = { λ r. values r.nodes.list };

    ghost invariant = { λ r. IsCircle r.first r.nodes.list × (r.len ≡ length r.nodes.list) };
}

impl Ring {
    /// The ring of these values, with the cursor at the first. It takes memory for a node each. `NoMemory` may come for any
    /// values.
    pub fn of(alloc: Global, values: &[u32]) -> Result<Ring, NoMemory>
        requires { 0 < length values.now }
        ensures { IfOk result (λ ring. ring ≡ values.now) }
    {
        let mut ring = Ring::alone(alloc, values[0])?;
        for i in 1..values.len() {
            let one = Ring::alone(alloc, values[i])?;
            ring.join(one);
        }
        Ok(ring)
    }

    // The ring of one place.
    fn alone(alloc: Global, value: u32) -> Result<Ring, NoMemory>
        ensures { IfOk result (λ ring. ring ≡ value ∷ []) }
    {
        let mut nodes = Nodes::none();
        match nodes.add(alloc, value) {
            Ok(first) => Ok(Ring {
                nodes,
                first,
                len: 1,
                alloc,
            }),
            Err(NoMemory) => {
                nodes.end();
                Err(NoMemory)
            }
        }
    }

    /// How many places there are, at least one.
    pub fn len(&self) -> usize
        ensures count { result ≡ length self.now }
        ensures some { 0 < result }
    {
        self.len
    }

    /// The value at the cursor.
    pub fn get(&self) -> u32
        ensures { result ≡ slice_index self.now 0 }
    {
        self.nodes.value(self.first, 0)
    }

    /// The value at the next place: what `get` gives after `step`.
    pub fn ahead(&self) -> u32
        ensures { result ≡ slice_index (turned_to 1 self.now) 0 }
    {
        let place = if self.len == 1 { 0 } else { 1 };
        self.nodes.value(self.nodes.next(self.first, 0), place)
    }

    /// The value at the place before: what `get` gives after `back`.
    pub fn behind(&self) -> u32
        ensures { result ≡ slice_index (turned_to (length self.now - 1) self.now) 0 }
    {
        self.nodes
            .value(self.nodes.prev(self.first, 0), self.len - 1)
    }

    /// Moves the cursor to the next place.
    pub fn step(&mut self)
        ensures { self.new ≡ turned_to 1 self.old }
    {
        self.first = self.nodes.next(self.first, 0);
        self.nodes.recount(1);
    }

    /// Moves the cursor to the place before.
    pub fn back(&mut self)
        ensures { self.new ≡ turned_to (length self.old - 1) self.old }
    {
        self.first = self.nodes.prev(self.first, 0);
        self.nodes.recount(self.len - 1);
    }

    /// Takes the place at the cursor out and frees it. The cursor stands at the next place.
    pub fn cut(&mut self)
        requires { 1 < length self.old }
        ensures { self.new ≡ drop 1 self.old }
    {
        let next = self.nodes.next(self.first, 0);
        let before = self.nodes.prev(self.first, 0);
        self.nodes.link(before, self.len - 1, next, 1);
        self.nodes.remove(self.alloc, self.first);
        self.first = next;
        self.len -= 1;
    }

    /// Puts the places of the other ring, from its cursor once round, before this ring's cursor. No node is copied.
    pub fn splice(&mut self, other: Ring)
        requires { length self.old + length other < 2 ^ 32 }
        ensures { self.new ≡ self.old ++ other }
    {
        self.join(other);
    }

    /// Puts a value before the cursor. It takes memory for one node. `NoMemory` may come for any ring, and leaves it as it
    /// was.
    pub fn grow(&mut self, value: u32) -> Result<(), NoMemory>
        requires { length self.old + 1 < 2 ^ 32 }
        ensures ok { OnOk result (self.new ≡ self.old ++ value ∷ []) }
        ensures err { OnErr result (self.new ≡ self.old) }
    {
        let one = Ring::alone(self.alloc, value)?;
        self.join(one);
        Ok(())
    }

    // Links two circles to one.
    fn join(&mut self, other: Ring)
        requires { length self.old + length other < 2 ^ 64 }
        ensures { self.new ≡ self.old ++ other }
    {
        let Ring {
            nodes,
            first,
            len,
            alloc: _,
        } = other;
        let last = self.nodes.prev(self.first, 0);
        let end = nodes.prev(first, 0);
        self.nodes.absorb(nodes);
        self.nodes.link(last, self.len - 1, first, self.len);
        self.nodes.link(end, self.len + len - 1, self.first, 0);
        self.len += len;
    }
}

impl Drop for Ring {
    fn drop(self) {
        let Ring {
            nodes,
            first,
            len,
            alloc,
        } = self;
        free_all(nodes, first, len, alloc);
    }
}

// Frees the nodes of a circle, each found by the link of the one before it.
fn free_all(mut nodes: Nodes, first: *mut Node, len: usize, alloc: Global)
    requires circle { IsCircle first nodes.list }
    requires count { len ≡ length nodes.list }
{
    let mut at = first;
    for _ in 0..len {
        let next = nodes.next(at, 0);
        nodes.remove(alloc, at);
        at = next;
    }
    nodes.end();
}
