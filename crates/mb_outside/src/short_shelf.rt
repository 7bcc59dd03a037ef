// A shelf that states a size of its one file that need not be the file's.
ghost use Rattle.std.specs.Prelude.{◌≡◌, ◌-◌, Ok, false, None, IfOk, IsErr, length, min};
ghost use Rattle.run_terms.specs.Files.{Counts, CountsShort, ReadsAt};
ghost use Rattle.mb_outside.specs.Calls.{one_more};
ghost use Rattle.mb_outside.specs.ShortState.{ShortState, short_shelf, stated_of, text_at, after_size, after_read};

use crate::copying::copy_from;
use crate::shelf::{Failed, Shelf};
use mb_base::NoMemory;
use std::alloc::Global;
use std::marker::Model;

/// A shelf of one file over memory, which states a size that need not be the file's, for tests of files that end early.
///
/// It tells no files. Its size is the stated one, of any other name none. A read gives the bytes that there are, of any other
/// name none, and counts where it gave nothing below the size that was stated last. Neither fails. A `begin` and an `append`
/// always fail, and raise the count by one. No call of the trait takes memory.
#[derive(Drop)]
pub struct ShortShelf {
    name: Vec<u8>,
    bytes: Vec<u8>,
    size: u64,
    stated: u64,
    short_reads: u64,
    write_faults: u64,
}

impl Model for ShortShelf {
    ghost Value = { ShortState };

    ghost view = { λ s. record {
      name = s.name.items;
      bytes = s.bytes.items;
      size = s.size;
      stated = s.stated;
      short_reads = s.short_reads;
      write_faults = s.write_faults;
    } };
}

impl ShortShelf {
    /// A shelf with the file `name` of these bytes, whose size it states as `stated`; or `NoMemory`.
    pub fn of(alloc: Global, name: &str, bytes: &[u8], stated: u64) -> Result<ShortShelf, NoMemory>
        ensures { IfOk result (λ shelf. shelf ≡ short_shelf name.now bytes.now stated) }
    {
        Ok(ShortShelf {
            name: Vec::from_slice(alloc, name.as_bytes())?,
            bytes: Vec::from_slice(alloc, bytes)?,
            size: stated,
            stated: 0,
            short_reads: 0,
            write_faults: 0,
        })
    }

    // The bytes of a file, none of any other name.
    fn text(&self, name: &[u8]) -> &[u8]
        ensures { result.now ≡ text_at self.now name.now }
    {
        if name == self.name.as_slice() {
            &self.bytes
        } else {
            &[]
        }
    }
}

impl Shelf for ShortShelf {
    ghost tells = { λ _. false };

    ghost files = { λ _ _. None };

    ghost read_faults = { λ _. 0 };

    ghost write_faults = { λ shelf. shelf.write_faults };

    ghost stated = { λ shelf. shelf.stated };

    ghost short_reads = { λ shelf. shelf.short_reads };

    ghost spare = { λ _. None };

    ghost spare_is_told = { λ shelf told is. Prim.cc };

    fn size(&mut self, name: &str) -> Result<Option<u64>, Failed>
        ensures exact { result ≡ Ok (stated_of self.old name.now) }
        ensures after { self.new ≡ after_size name.now self.old }
    {
        if name.as_bytes() == self.name.as_slice() {
            self.stated = self.size;
            Ok(Some(self.size))
        } else {
            self.stated = 0;
            Ok(None)
        }
    }

    fn read_at(&mut self, name: &str, at: u64, into: &mut [u8]) -> Result<usize, Failed>
        ensures exact { result ≡ Ok (min (length into.old) (length (text_at self.old name.now) - at)) }
        ensures bytes { IfOk result (λ count. ReadsAt (text_at self.old name.now) at into.old into.new count) }
        ensures short { IfOk result (λ count. CountsShort self.old.stated at into.old count self.old.short_reads self.new.short_reads) }
        ensures after { self.new ≡ after_read name.now at into.old self.old }
    {
        let count = copy_from(self.text(name.as_bytes()), at, usize::MAX, into);
        if count == 0 && !into.is_empty() && at < self.stated {
            self.short_reads = self.short_reads.saturating_add(1);
        }
        Ok(count)
    }

    fn begin(&mut self, name: &str) -> Result<(), Failed>
        ensures refused { IsErr result }
        ensures writes { Counts self.old.write_faults self.new.write_faults result }
        ensures after { self.new ≡ record self.old { write_faults = one_more self.old.write_faults } }
    {
        self.write_faults = self.write_faults.saturating_add(1);
        Err(Failed)
    }

    fn append(&mut self, name: &str, piece: &[u8]) -> Result<usize, Failed>
        ensures refused { IsErr result }
        ensures writes { Counts self.old.write_faults self.new.write_faults result }
        ensures after { self.new ≡ record self.old { write_faults = one_more self.old.write_faults } }
    {
        self.write_faults = self.write_faults.saturating_add(1);
        Err(Failed)
    }
}
