// A file in memory, and a free place for one.
ghost use Rattle.std.specs.Prelude.{◌≡◌, ◌≤◌, ◌++◌, ◌+◌, ℕ, [], length, vec_len, vec_capacity, nat_lt, max};
ghost use Rattle.std.specs.Prelude.{is_err, IfOk, OnOk, OnErr};
ghost use Rattle.mb_outside.specs.Store.{File, is_named};

use crate::shelf::Failed;
use mb_base::NoMemory;
use std::alloc::Global;
use std::marker::Model;

/// A name, bytes, and how many bytes the file may hold. Memory for these is reserved.
#[derive(Drop)]
pub struct StoredFile {
    name: Vec<u8>,
    bytes: Vec<u8>,
    limit: usize,
}

impl Model for StoredFile {
    ghost Value = { File };

    ghost view = { λ f. record { name = f.name.items; bytes = f.bytes.items; limit = f.limit } };

    ghost invariant = { λ f. (vec_len f.bytes ≤ f.limit) × (f.limit ≤ vec_capacity f.bytes) };
}

impl StoredFile {
    /// A file with memory for at least `room` bytes, and for as many as it is given.
    pub fn of(alloc: Global, name: &[u8], bytes: &[u8], room: usize) -> Result<StoredFile, NoMemory>
        ensures { IfOk result (λ file.
            file ≡ record { name = name.now; bytes = bytes.now; limit = max room (length bytes.now) }) }
    {
        let limit = room.max(bytes.len());
        let mut kept = Vec::with_capacity(alloc, limit)?;
        kept.extend_from_slice(bytes)?;
        let name = Vec::from_slice(alloc, name)?;
        Ok(StoredFile {
            name,
            bytes: kept,
            limit,
        })
    }

    pub fn has_name(&self, name: &[u8]) -> bool
        ensures { result ≡ is_named name.now self.now }
    {
        self.name.as_slice() == name
    }

    pub fn bytes(&self) -> &[u8]
        ensures { result.now ≡ self.now.bytes }
    {
        &self.bytes
    }

    pub fn empty(&mut self)
        ensures { self.new ≡ record self.old { bytes = [] } }
    {
        self.bytes.clear();
    }

    /// Adds a piece, where the file may hold it.
    pub fn add(&mut self, piece: &[u8]) -> Result<(), Failed>
        ensures exact { is_err result ≡ nat_lt self.old.limit (length self.old.bytes + length piece.now) }
        ensures added { OnOk result (self.new ≡ record self.old { bytes = self.old.bytes ++ piece.now }) }
        ensures kept { OnErr result (self.new ≡ self.old) }
    {
        if piece.len() > self.limit - self.bytes.len() {
            return Err(Failed);
        }
        match self.bytes.extend_from_slice(piece) {
            Ok(()) => Ok(()),
            Err(_) => unreachable!(),
        }
    }
}

/// Memory for a name of at most 255 bytes and for a number of bytes, by which contracts know it.
#[derive(Drop)]
pub struct Place {
    name: Vec<u8>,
    bytes: Vec<u8>,
    room: usize,
}

impl Model for Place {
    ghost Value = { ℕ };

    ghost view = { λ p. p.room };

    ghost invariant = { λ p. (vec_len p.name ≡ 0) × (255 ≤ vec_capacity p.name)
        × (vec_len p.bytes ≡ 0) × (p.room ≤ vec_capacity p.bytes) };
}

impl Place {
    pub fn of(alloc: Global, room: usize) -> Result<Place, NoMemory>
        ensures { IfOk result (λ place. place ≡ room) }
    {
        let name = Vec::with_capacity(alloc, 255)?;
        let bytes = Vec::with_capacity(alloc, room)?;
        Ok(Place { name, bytes, room })
    }

    /// The place with a file in it. It takes no memory.
    pub fn filled(self, name: &[u8], bytes: &[u8]) -> StoredFile
        requires name { length name.now ≤ 255 }
        requires bytes { length bytes.now ≤ self }
        ensures { result ≡ record { name = name.now; bytes = bytes.now; limit = self } }
    {
        let Place {
            name: mut named,
            bytes: mut kept,
            room,
        } = self;
        if named.extend_from_slice(name).is_err() {
            unreachable!();
        }
        if kept.extend_from_slice(bytes).is_err() {
            unreachable!();
        }
        StoredFile {
            name: named,
            bytes: kept,
            limit: room,
        }
    }
}
