// Lists that lie one after the other in one.
ghost use Rattle.std.specs.Prelude.{◌≡◌, ◌<◌, ◌++◌, ◌∷◌, [], OnOk, get_or, length};

use mb_base::NoMemory;
use std::alloc::Global;
use std::marker::Model;

/// Lists, one after the other, and one that is being made.
#[derive(Drop)]
pub struct Lists<T> {
    items: Vec<T>,
    // Where each list ends; it begins where the one before it ends.
    ends: Vec<usize>,
}

/// Rims of triangles, or walks: lists of places.
pub type Rims = Lists<u32>;

impl<T> Model for Lists<T> {
    ghost use Rattle.std.specs.Prelude.{◌≡◌, List, length, true};
    ghost use Rattle.plane_chains.specs.Lists.{are_ends, lists_of};

    // The lists, and the one that is being made.
    ghost Value = { List (List T) × List T };

    ghost view = { λ s. lists_of s.ends.items s.items.items };

    ghost invariant = { λ s. are_ends 0 s.ends.items (length s.items.items) ≡ true };
}

impl<T: Copy + Drop> Lists<T> {
    /// No lists.
    pub fn none(alloc: Global) -> Lists<T>
        ensures { result ≡ ([], []) }
    {
        Lists {
            items: Vec::new(alloc),
            ends: Vec::new(alloc),
        }
    }

    /// How many lists there are.
    pub fn len(&self) -> usize
        ensures { result ≡ length self.now.0 }
    {
        self.ends.len()
    }

    /// The list at an index.
    pub fn list(&self, i: usize) -> &[T]
        requires { i < length self.now.0 }
        ensures { result.now ≡ get_or self.now.0 i [] }
    {
        &self.items[begin(&self.ends, i)..self.ends[i]]
    }

    /// Adds a member to the list that is being made.
    pub fn push(&mut self, item: T) -> Result<(), NoMemory>
        ensures { OnOk result (self.new ≡ (self.old.0, self.old.1 ++ item ∷ [])) }
    {
        self.items.push(item)?;
        Ok(())
    }

    /// Ends the list that is being made.
    pub fn end(&mut self) -> Result<(), NoMemory>
        ensures { OnOk result (self.new ≡ (self.old.0 ++ self.old.1 ∷ [], [])) }
    {
        self.ends.push(self.items.len())?;
        Ok(())
    }

    /// Adds members to the list that is being made, and ends it.
    pub fn push_list(&mut self, items: &[T]) -> Result<(), NoMemory>
        ensures { OnOk result (self.new ≡ (self.old.0 ++ (self.old.1 ++ items.now) ∷ [], [])) }
    {
        self.items.extend_from_slice(items)?;
        self.end()
    }
}

impl Lists<u32> {
    /// The rim at an index.
    pub fn rim(&self, i: usize) -> &[u32]
        requires { i < length self.now.0 }
        ensures { result.now ≡ get_or self.now.0 i [] }
    {
        self.list(i)
    }
}

// Where a list begins: where the one before it ends.
fn begin(ends: &[usize], i: usize) -> usize
    requires { i < length ends.now }
    ensures { result ≡ get_or (0 ∷ ends.now) i 0 }
{
    if i == 0 { 0 } else { ends[i - 1] }
}
