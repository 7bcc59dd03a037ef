// The words of a command line.
ghost use Rattle.std.specs.Prelude.{◌≡◌, ◌↔◌, IsTrue, ◌<◌, ◌++◌, ◌∷◌, [], List, length, slice_index_or, IfOk, OnErr, OnOk, get_or, map, string_bytes};

use crate::NoMemory;
use std::alloc::Global;
use std::marker::Model;

/// A list of words.
#[derive(Drop)]
pub struct ArgList {
    words: Vec<String>,
}

impl Model for ArgList {
    ghost use Rattle.std.specs.Prelude.{ℕ, List, map, string_bytes};

    ghost Value = { List (List ℕ) };

    ghost view = { λ a. map string_bytes a.words.items };
}

impl ArgList {
    /// The empty list.
    pub fn start(alloc: Global) -> ArgList
        ensures { result ≡ [] }
    {
        ArgList {
            words: Vec::new(alloc),
        }
    }

    /// Adds a word at the end. After want of memory the list is unchanged.
    pub fn push(&mut self, word: &str) -> Result<(), NoMemory>
        ensures added { OnOk result (self.new ≡ self.old ++ word.now ∷ []) }
        ensures kept { OnErr result (self.new ≡ self.old) }
    {
        let alloc = *self.words.allocator();
        let word = String::from_str(alloc, word)?;
        self.words.push(word)?;
        Ok(())
    }

    /// The number of words.
    pub fn len(&self) -> usize
        ensures { result ≡ length self.now }
    {
        self.words.len()
    }

    /// Whether there is no word.
    pub fn is_empty(&self) -> bool
        ensures { IsTrue result ↔ (self.now ≡ []) }
    {
        self.words.is_empty()
    }

    /// The word at a place below `len`.
    pub fn get(&self, place: usize) -> &str
        requires { place < length self.now }
        ensures { result.now ≡ get_or self.now place [] }
    {
        self.words[place].as_str()
    }

    /// The words.
    pub fn as_slice(&self) -> &[String]
        ensures { map string_bytes result.now ≡ self.now }
    {
        &self.words
    }
}
