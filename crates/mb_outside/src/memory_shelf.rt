// A shelf over memory.
ghost use Rattle.std.specs.Prelude.{◌≡◌, ◌≤◌, ◌<◌, ◌++◌, ◌-◌, ◌||◌, ℕ, true, None, Some, [], length, take, min};
ghost use Rattle.std.specs.Prelude.{is_err, IfOk, OnOk, OnErr};
ghost use Rattle.std.specs.Option.{option_map};
ghost use Rattle.run_terms.specs.Files.{Counts, OthersStay, ReadsAt, length_of, text_of};
ghost use Rattle.mb_outside.specs.Calls.{is_listed, next, part_of};
ghost use Rattle.mb_outside.specs.Store.{files_of, given, is_past, is_unplaced, written};
ghost use Rattle.mb_outside.specs.ShelfState.{ShelfState, empty_shelf, holding, is_append_refused, is_begin_refused, read_of, with_read_fault, with_write_fault};

use crate::calls::FailingCalls;
use crate::copying::copy_from;
use crate::shelf::{Failed, Shelf};
use crate::stored_files::StoredFiles;
use mb_base::NoMemory;
use std::alloc::Global;
use std::marker::Model;

/// A shelf over memory that was reserved when it was made, for tests and for programs that touch no disk.
///
/// It tells its files. A call of the trait fails, and raises its count by one, exactly where
///
/// - it is listed in `fails`, counted from 1 over all four calls of the trait,
/// - a `begin` or an `append` of a new name finds no free place, or the name is longer than 255 bytes,
/// - an `append` would make a file longer than it may be.
///
/// What fails changes no file. No call of the trait takes memory.
#[derive(Drop)]
pub struct MemoryShelf {
    places: StoredFiles,
    most: usize,
    calls: FailingCalls,
    read_faults: u64,
    write_faults: u64,
}

impl Model for MemoryShelf {
    ghost Value = { ShelfState };

    ghost view = { λ s. record {
      store = s.places;
      most = s.most;
      calls = s.calls;
      read_faults = s.read_faults;
      write_faults = s.write_faults;
    } };

    ghost invariant = { λ s. 0 < s.most };
}

impl MemoryShelf {
    /// A shelf without files, or `NoMemory`. It has `places` free places, each for a name of at most
    /// 255 bytes and a file of `room` bytes. One `append` takes at most `most` bytes of its piece, and
    /// one `read_at` gives at most so many.
    pub fn of(
        alloc: Global,
        places: usize,
        room: usize,
        most: usize,
        fails: Vec<u64>,
    ) -> Result<MemoryShelf, NoMemory>
        requires { 0 < most }
        ensures { IfOk result (λ shelf. shelf ≡ empty_shelf places room most fails.items) }
    {
        Ok(MemoryShelf {
            places: StoredFiles::of(alloc, places, room)?,
            most,
            calls: FailingCalls::of(fails),
            read_faults: 0,
            write_faults: 0,
        })
    }

    /// Gives a file these bytes, in memory of its own. The free places stay. The file may then hold as
    /// many bytes as it was given, or as many as a free place where these are more. All other files
    /// stay, and `NoMemory` leaves this one too.
    #[tactic(auto, using(crate::proofs::Lookup::maps))]
    pub fn put(&mut self, name: &str, bytes: &[u8]) -> Result<(), NoMemory>
        ensures after { OnOk result (self.new ≡ record self.old { store = given name.now bytes.now self.old.store }) }
        ensures file { OnOk result (files_of self.new.store.files name.now ≡ Some bytes.now) }
        ensures others { OthersStay name.now (files_of self.old.store.files) (files_of self.new.store.files) }
        ensures refused { OnErr result (self.new ≡ self.old) }
    {
        self.places.put(name.as_bytes(), bytes)
    }

    /// The bytes of a file, where it is there.
    pub fn get(&self, name: &str) -> Option<&[u8]>
        ensures { option_map (λ text. text.now) result ≡ files_of self.now.store.files name.now }
    {
        self.places.text(name.as_bytes())
    }

    // Counts a call, and makes a file empty, or a new one that is, where the call is not listed.
    fn begin_unlisted(&mut self, name: &[u8]) -> Result<(), Failed>
        ensures exact { is_err result ≡ is_begin_refused self.old name.now }
        ensures begun { OnOk result (self.new ≡ holding (written name.now [] self.old.store) self.old) }
        ensures kept { OnErr result (self.new ≡ record self.old { calls = next self.old.calls }) }
    {
        let listed = self.calls.fails_now();
        if listed {
            return Err(Failed);
        }
        self.places.begin(name)
    }

    // Counts a call, and adds a piece to a file, or makes a new one of it, where the call is not listed.
    fn append_unlisted(&mut self, name: &[u8], piece: &[u8]) -> Result<(), Failed>
        ensures exact { is_err result ≡
            (is_listed self.old.calls || is_unplaced self.old.store name.now || is_past self.old.store name.now (length piece.now)) }
        ensures added { OnOk result (
            self.new ≡ holding (written name.now (text_of (files_of self.old.store.files name.now) ++ piece.now) self.old.store) self.old) }
        ensures kept { OnErr result (self.new ≡ record self.old { calls = next self.old.calls }) }
    {
        if self.calls.fails_now() {
            return Err(Failed);
        }
        self.places.append(name, piece)
    }
}

impl Shelf for MemoryShelf {
    ghost tells = { λ _. true };

    ghost files = { λ shelf. files_of shelf.store.files };

    ghost read_faults = { λ shelf. shelf.read_faults };

    ghost write_faults = { λ shelf. shelf.write_faults };

    ghost stated = { λ _. 0 };

    ghost short_reads = { λ _. 0 };

    ghost spare = { λ _. None };

    ghost spare_is_told = { λ shelf told is. Prim.cc };

    fn size(&mut self, name: &str) -> Result<Option<u64>, Failed>
        ensures exact { is_err result ≡ is_listed self.old.calls }
        ensures length { IfOk result (λ answer. answer ≡ length_of (files_of self.old.store.files name.now)) }
        ensures reads { Counts self.old.read_faults self.new.read_faults result }
        ensures after { OnOk result (self.new ≡ holding self.old.store self.old) }
        ensures refused { OnErr result (self.new ≡ with_read_fault self.old) }
    {
        if self.calls.fails_now() {
            self.read_faults = self.read_faults.saturating_add(1);
            return Err(Failed);
        }
        match self.places.text(name.as_bytes()) {
            Some(text) => Ok(Some(text.len() as u64)),
            None => Ok(None),
        }
    }

    fn read_at(&mut self, name: &str, at: u64, into: &mut [u8]) -> Result<usize, Failed>
        ensures exact { is_err result ≡ is_listed self.old.calls }
        ensures taken { IfOk result (λ count. count ≡ read_of self.old name.now at into.old) }
        ensures bytes { IfOk result (λ count.
            ReadsAt (text_of (files_of self.old.store.files name.now)) at into.old into.new count) }
        ensures reads { Counts self.old.read_faults self.new.read_faults result }
        ensures after { OnOk result (self.new ≡ holding self.old.store self.old) }
        ensures refused { OnErr result (self.new ≡ with_read_fault self.old) }
    {
        if self.calls.fails_now() {
            self.read_faults = self.read_faults.saturating_add(1);
            return Err(Failed);
        }
        match self.places.text(name.as_bytes()) {
            Some(text) => Ok(copy_from(text, at, self.most, into)),
            None => Ok(0),
        }
    }

    #[tactic(auto, using(crate::proofs::Lookup::maps))]
    fn begin(&mut self, name: &str) -> Result<(), Failed>
        ensures exact { is_err result ≡ is_begin_refused self.old name.now }
        ensures empty { OnOk result (files_of self.new.store.files name.now ≡ Some []) }
        ensures others { OthersStay name.now (files_of self.old.store.files) (files_of self.new.store.files) }
        ensures writes { Counts self.old.write_faults self.new.write_faults result }
        ensures after { OnOk result (self.new ≡ holding (written name.now [] self.old.store) self.old) }
        ensures refused { OnErr result (self.new ≡ with_write_fault self.old) }
    {
        if self.begin_unlisted(name.as_bytes()).is_err() {
            self.write_faults = self.write_faults.saturating_add(1);
            return Err(Failed);
        }
        Ok(())
    }

    #[tactic(auto, using(crate::proofs::Lookup::maps))]
    fn append(&mut self, name: &str, piece: &[u8]) -> Result<usize, Failed>
        ensures exact { is_err result ≡ is_append_refused self.old name.now piece.now }
        ensures taken { IfOk result (λ count. count ≡ part_of self.old.most piece.now) }
        ensures some { IfOk result (λ count. count ≡ 0 → length piece.now ≡ 0) }
        ensures added { IfOk result (λ count.
            files_of self.new.store.files name.now ≡ Some (text_of (files_of self.old.store.files name.now) ++ take count piece.now)) }
        ensures others { OthersStay name.now (files_of self.old.store.files) (files_of self.new.store.files) }
        ensures writes { Counts self.old.write_faults self.new.write_faults result }
        ensures after { IfOk result (λ count.
            let text = text_of (files_of self.old.store.files name.now) in
            self.new ≡ holding (written name.now (text ++ take count piece.now) self.old.store) self.old) }
        ensures refused { OnErr result (self.new ≡ with_write_fault self.old) }
    {
        let count = self.most.min(piece.len());
        let (front, _) = piece.split_at(count);
        if self.append_unlisted(name.as_bytes(), front).is_err() {
            self.write_faults = self.write_faults.saturating_add(1);
            return Err(Failed);
        }
        Ok(count)
    }
}
