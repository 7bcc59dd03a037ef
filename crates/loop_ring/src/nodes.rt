// The nodes of a ring, each in a block of its own. What makes a node, frees one or lets `Nodes` go stands in this file alone:
// `end` asks that none is left, `absorb` hands all of them on, and a block goes from `vacate` straight to `free`.
ghost use Rattle.std.specs.Prelude.{◌≡◌, ◌≤◌, List, [], ◌∷◌, ◌++◌, length, drop, IfOk, OnErr};
ghost use Rattle.loop_ring.specs.Located.{Located, IsAddress, alone, owns_nodes, lends_nodes};
ghost use Rattle.loop_ring.specs.Turning.{turned_to};

use mb_base::NoMemory;
use std::alloc::Global;
use std::marker::Model;
use std_alloc::room::Vacant;

// A value between its neighbours.
#[derive(Clone, Copy, Drop)]
pub struct Node {
    pub next: *mut Node,
    pub prev: *mut Node,
    pub value: u32,
}

// Owns nodes, in an order that the proof alone keeps: it has no field when it runs. It is not `Drop`.
pub struct Nodes {
    _private: (),
    ghost list: { List Located },
}

impl Model for Nodes {
    ghost also_owns = { λ n. owns_nodes n.list };

    ghost also_shares = { λ n _ κ. lends_nodes n.list κ };
}

impl Nodes {
    // No nodes.
    pub fn none() -> Nodes
        ensures { result.list ≡ [] }
    {
        Nodes { _private: () }
    }

    // Lets go of no nodes.
    pub fn end(self)
        requires { self.list ≡ [] }
    {
        let Nodes { _private: () } = self;
    }

    // The other's nodes follow.
    pub fn absorb(&mut self, other: Nodes)
        ensures { self.new.list ≡ self.old.list ++ other.list }
    {
        let Nodes { _private: () } = other;
    }

    // The list begins with its node `count`, and goes once round.
    pub fn recount(&mut self, count: usize)
        requires { count ≤ length self.old.list }
        ensures { self.new.list ≡ turned_to count self.old.list }
    {}

    // A node of the value follows.
    pub fn add(&mut self, alloc: Global, value: u32) -> Result<*mut Node, NoMemory>
        ensures ok { IfOk result (λ at. self.new.list ≡ self.old.list ++ alone at value ∷ []) }
        ensures err { OnErr result (self.new.list ≡ self.old.list) }
    {
        match Vacant::take(alloc) {
            Ok(room) => Ok(self.fill(room, value)),
            Err(_) => Err(NoMemory),
        }
    }

    // The first node goes, and its block is freed.
    pub fn remove(&mut self, alloc: Global, first: *mut Node)
        requires { IsAddress self.old.list 0 first }
        ensures { self.new.list ≡ drop 1 self.old.list }
    {
        self.vacate(alloc, first).free();
    }

    // A node of the value lies in the block.
    fn fill(&mut self, room: Vacant<Node, Global>, value: u32) -> *mut Node
        ensures { self.new.list ≡ self.old.list ++ alone result value ∷ [] }
    {
        let Vacant { ptr: at, alloc: _ } = room;
        let node = Node {
            next: at,
            prev: at,
            value,
        };
        unsafe { at.write(node) };
        at
    }

    // The block of the first node.
    fn vacate(&mut self, alloc: Global, first: *mut Node) -> Vacant<Node, Global>
        requires { IsAddress self.old.list 0 first }
        ensures { self.new.list ≡ drop 1 self.old.list }
    {
        Vacant { ptr: first, alloc }
    }
}
