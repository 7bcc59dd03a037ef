// The links between nodes, read and set. A node is named by its address and, for the proof alone, by its place in the list.
ghost use Rattle.std.specs.Prelude.{◌≡◌, length, slice_index_or, slice_set};
ghost use denote.RawPtr.{null_ptr};
ghost use Rattle.loop_ring.specs.Located.{IsAddress, node_at, addresses, nexts, prevs, values};

use crate::nodes::{Node, Nodes};

impl Nodes {
    // The node at an address.
    fn node(&self, at: *mut Node, place: usize) -> &Node
        requires { IsAddress self.now.list place at }
        ensures { result.now ≡ node_at self.now.list place }
    {
        unsafe { &*at }
    }

    // Another node at the address.
    fn set_node(&mut self, at: *mut Node, place: usize, node: Node)
        requires { IsAddress self.old.list place at }
        ensures { self.new.list ≡ slice_set self.old.list place (at, node) }
    {
        unsafe { *at = node };
    }

    // The address after a node's.
    pub fn next(&self, at: *mut Node, place: usize) -> *mut Node
        requires { IsAddress self.now.list place at }
        ensures { result ≡ slice_index_or (nexts self.now.list) place null_ptr }
    {
        self.node(at, place).next
    }

    // The address before it.
    pub fn prev(&self, at: *mut Node, place: usize) -> *mut Node
        requires { IsAddress self.now.list place at }
        ensures { result ≡ slice_index_or (prevs self.now.list) place null_ptr }
    {
        self.node(at, place).prev
    }

    // Its value.
    pub fn value(&self, at: *mut Node, place: usize) -> u32
        requires { IsAddress self.now.list place at }
        ensures { result ≡ slice_index_or (values self.now.list) place 0 }
    {
        self.node(at, place).value
    }

    // Links a node and the one that is to follow it.
    pub fn link(&mut self, at: *mut Node, place: usize, next: *mut Node, next_place: usize)
        requires at { IsAddress self.old.list place at }
        requires next { IsAddress self.old.list next_place next }
        ensures count { length self.new.list ≡ length self.old.list }
        ensures addresses { addresses self.new.list ≡ addresses self.old.list }
        ensures nexts { nexts self.new.list ≡ slice_set (nexts self.old.list) place next }
        ensures prevs { prevs self.new.list ≡ slice_set (prevs self.old.list) next_place at }
        ensures values { values self.new.list ≡ values self.old.list }
    {
        self.set_next(at, place, next);
        self.set_prev(next, next_place, at);
    }

    // Sets what follows a node.
    fn set_next(&mut self, at: *mut Node, place: usize, next: *mut Node)
        requires { IsAddress self.old.list place at }
        ensures count { length self.new.list ≡ length self.old.list }
        ensures addresses { addresses self.new.list ≡ addresses self.old.list }
        ensures nexts { nexts self.new.list ≡ slice_set (nexts self.old.list) place next }
        ensures prevs { prevs self.new.list ≡ prevs self.old.list }
        ensures values { values self.new.list ≡ values self.old.list }
    {
        let node = *self.node(at, place);
        self.set_node(at, place, Node { next, ..node });
    }

    // Sets what comes before it.
    fn set_prev(&mut self, at: *mut Node, place: usize, prev: *mut Node)
        requires { IsAddress self.old.list place at }
        ensures count { length self.new.list ≡ length self.old.list }
        ensures addresses { addresses self.new.list ≡ addresses self.old.list }
        ensures nexts { nexts self.new.list ≡ nexts self.old.list }
        ensures prevs { prevs self.new.list ≡ slice_set (prevs self.old.list) place prev }
        ensures values { values self.new.list ≡ values self.old.list }
    {
        let node = *self.node(at, place);
        self.set_node(at, place, Node { prev, ..node });
    }
}
