// The files of a shelf in memory, and the free places for new ones.
ghost use Rattle.std.specs.Prelude.{◌≡◌, ◌≤◌, ◌++◌, ◌+◌, ◌||◌, ℕ, None, [], length, vec_len, vec_capacity, position};
ghost use Rattle.std.specs.Prelude.{is_err, IfOk, OnOk, OnErr};
ghost use Rattle.std.specs.Option.{option_map};
ghost use Rattle.std.specs.List.{All, find};
ghost use Rattle.run_terms.specs.Files.{text_of};
ghost use Rattle.mb_outside.specs.Store.{Store, files_of, given, is_named, is_past, is_unplaced, written};

use crate::shelf::Failed;
use crate::stored_file::{Place, StoredFile};
use mb_base::NoMemory;
use std::alloc::Global;
use std::marker::Model;

/// Files with room for as many more as there are free places.
#[derive(Drop)]
pub struct StoredFiles {
    alloc: Global,
    files: Vec<StoredFile>,
    free: Vec<Place>,
    room: usize,
}

impl Model for StoredFiles {
    ghost Value = { Store };

    ghost view = { λ p. record { files = p.files.items; free = vec_len p.free; room = p.room } };

    ghost invariant = { λ p. (vec_len p.files + vec_len p.free ≤ vec_capacity p.files)
        × All (λ room. room ≡ p.room) p.free.items };
}

fn find(files: &[StoredFile], name: &[u8]) -> Option<usize>
    ensures { result ≡ position (is_named name.now) files.now }
{
    files.iter().position(|file| file.has_name(name))
}

impl StoredFiles {
    /// No files, and free places with `room` bytes each.
    pub fn of(alloc: Global, places: usize, room: usize) -> Result<StoredFiles, NoMemory>
        ensures { IfOk result (λ store. store ≡ record { files = []; free = places; room = room }) }
    {
        let files = Vec::with_capacity(alloc, places)?;
        let free = free_places(alloc, places, room)?;
        Ok(StoredFiles {
            alloc,
            files,
            free,
            room,
        })
    }

    /// The bytes of a file.
    #[tactic(auto, using(crate::proofs::Lookup::lookups))]
    pub fn text(&self, name: &[u8]) -> Option<&[u8]>
        ensures { option_map (λ text. text.now) result ≡ files_of self.now.files name.now }
    {
        match find(&self.files, name) {
            Some(i) => Some(self.files[i].bytes()),
            None => None,
        }
    }

    /// Makes a file empty, or a new one in a free place.
    #[tactic(auto, using(crate::proofs::Lookup::lookups))]
    pub fn begin(&mut self, name: &[u8]) -> Result<(), Failed>
        ensures exact { is_err result ≡ is_unplaced self.old name.now }
        ensures begun { OnOk result (self.new ≡ written name.now [] self.old) }
        ensures kept { OnErr result (self.new ≡ self.old) }
    {
        match find(&self.files, name) {
            Some(i) => {
                self.files[i].empty();
                Ok(())
            }
            None => self.start(name, &[]),
        }
    }

    /// Adds a piece to a file, or makes a new one of it in a free place.
    #[tactic(auto, using(crate::proofs::Lookup::lookups))]
    pub fn append(&mut self, name: &[u8], piece: &[u8]) -> Result<(), Failed>
        ensures exact { is_err result ≡ (is_unplaced self.old name.now || is_past self.old name.now (length piece.now)) }
        ensures added { OnOk result (self.new ≡ written name.now (text_of (files_of self.old.files name.now) ++ piece.now) self.old) }
        ensures kept { OnErr result (self.new ≡ self.old) }
    {
        match find(&self.files, name) {
            Some(i) => self.files[i].add(piece),
            None => self.start(name, piece),
        }
    }

    /// Makes a new file in a free place.
    #[tactic(auto, using(crate::proofs::Lookup::lookups))]
    fn start(&mut self, name: &[u8], bytes: &[u8]) -> Result<(), Failed>
        requires { find (is_named name.now) self.old.files ≡ None }
        ensures exact { is_err result ≡ (is_unplaced self.old name.now || is_past self.old name.now (length bytes.now)) }
        ensures started { OnOk result (self.new ≡ written name.now bytes.now self.old) }
        ensures kept { OnErr result (self.new ≡ self.old) }
    {
        if name.len() > 255 || bytes.len() > self.room {
            return Err(Failed);
        }
        let Some(place) = self.free.pop() else {
            return Err(Failed);
        };
        match self.files.push(place.filled(name, bytes)) {
            Ok(()) => Ok(()),
            Err(_) => unreachable!(),
        }
    }

    /// Gives a file these bytes, in memory of its own.
    #[tactic(auto, using(crate::proofs::Lookup::lookups))]
    pub fn put(&mut self, name: &[u8], bytes: &[u8]) -> Result<(), NoMemory>
        ensures put { OnOk result (self.new ≡ given name.now bytes.now self.old) }
        ensures kept { OnErr result (self.new ≡ self.old) }
    {
        let file = StoredFile::of(self.alloc, name, bytes, self.room)?;
        match find(&self.files, name) {
            Some(i) => self.files[i] = file,
            None => {
                self.files.reserve(self.free.len() + 1)?;
                if self.files.push(file).is_err() {
                    unreachable!();
                }
            }
        }
        Ok(())
    }
}

fn free_places(alloc: Global, places: usize, room: usize) -> Result<Vec<Place>, NoMemory>
    ensures count { IfOk result (λ free. vec_len free ≡ places) }
    ensures rooms { IfOk result (λ free. All (λ r. r ≡ room) free.items) }
{
    let mut free = Vec::with_capacity(alloc, places)?;
    for _ in 0..places {
        free.push(Place::of(alloc, room)?)?;
    }
    Ok(free)
}
