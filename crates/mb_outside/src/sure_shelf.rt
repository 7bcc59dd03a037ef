// A shelf over memory that does not fail within its room.
ghost use Rattle.std.specs.Prelude.{◌≡◌, ◌≢◌, ◌≤◌, ◌+◌, ◌++◌, ◌-◌, ℕ, true, Some, [], length, take, min, vec_len, vec_capacity};
ghost use Rattle.std.specs.Prelude.{is_err, IsOk, IfOk, OnOk, OnErr};
ghost use Rattle.std.specs.Option.{option_map};
ghost use Rattle.run_terms.specs.Files.{Counts, OthersStay, ReadsAt, length_of, text_of};
ghost use Rattle.mb_outside.specs.Calls.{one_more};
ghost use Rattle.mb_outside.specs.SureState.{SureState, files_on, is_not_out, is_too_much, out_is_there, spare_on, sure_shelf};

use crate::copying::copy_from;
use crate::shelf::{Failed, Shelf};
use mb_base::NoMemory;
use std::alloc::Global;
use std::marker::Model;

/// A shelf of two files over memory that was reserved when it was made: one to read, and one to write.
///
/// It tells its files, and a spare: the file to write, and how many bytes this one can still take. Only a `begin` or an `append`
/// of another file fails, or an `append` of a piece that is longer than the spare's number; both raise the count by one and
/// change no file. No call of the trait takes memory.
#[derive(Drop)]
pub struct SureShelf {
    name: Vec<u8>,
    bytes: Vec<u8>,
    out: Vec<u8>,
    text: Vec<u8>,
    left: usize,
    write_faults: u64,
}

impl Model for SureShelf {
    ghost Value = { SureState };

    ghost view = { λ s. record {
      name = s.name.items;
      bytes = s.bytes.items;
      out = s.out.items;
      text = s.text.items;
      left = s.left;
      write_faults = s.write_faults;
    } };

    ghost invariant = { λ s. vec_len s.text + s.left ≤ vec_capacity s.text };
}

impl SureShelf {
    /// A shelf with the file `name` of these bytes, and an empty file `out` with room for `room` bytes; or `NoMemory`.
    pub fn of(
        alloc: Global,
        name: &str,
        bytes: &[u8],
        out: &str,
        room: usize,
    ) -> Result<SureShelf, NoMemory>
        requires { name.now ≢ out.now }
        ensures shelf { IfOk result (λ shelf. shelf ≡ sure_shelf name.now bytes.now out.now room) }
        ensures source { IfOk result (λ shelf. files_on shelf name.now ≡ Some bytes.now) }
        ensures empty { IfOk result (λ shelf. files_on shelf out.now ≡ Some []) }
    {
        Ok(SureShelf {
            name: Vec::from_slice(alloc, name.as_bytes())?,
            bytes: Vec::from_slice(alloc, bytes)?,
            out: Vec::from_slice(alloc, out.as_bytes())?,
            text: Vec::with_capacity(alloc, room)?,
            left: room,
            write_faults: 0,
        })
    }

    /// The bytes of a file, where it is there.
    pub fn get(&self, name: &str) -> Option<&[u8]>
        ensures { option_map (λ text. text.now) result ≡ files_on self.now name.now }
    {
        if name.as_bytes() == self.out.as_slice() {
            Some(&self.text)
        } else if name.as_bytes() == self.name.as_slice() {
            Some(&self.bytes)
        } else {
            None
        }
    }
}

impl Shelf for SureShelf {
    ghost tells = { λ _. true };

    ghost files = { files_on };

    ghost read_faults = { λ _. 0 };

    ghost write_faults = { λ shelf. shelf.write_faults };

    ghost stated = { λ _. 0 };

    ghost short_reads = { λ _. 0 };

    ghost spare = { spare_on };

    ghost spare_is_told = { λ shelf told is. out_is_there shelf told is };

    fn size(&mut self, name: &str) -> Result<Option<u64>, Failed>
        ensures sure { IsOk result }
        ensures length { IfOk result (λ answer. answer ≡ length_of (files_on self.old name.now)) }
        ensures same { self.new ≡ self.old }
    {
        match self.get(name) {
            Some(text) => Ok(Some(text.len() as u64)),
            None => Ok(None),
        }
    }

    fn read_at(&mut self, name: &str, at: u64, into: &mut [u8]) -> Result<usize, Failed>
        ensures sure { IsOk result }
        ensures taken { IfOk result (λ count. count ≡ min (length into.old) (length (text_of (files_on self.old name.now)) - at)) }
        ensures bytes { IfOk result (λ count. ReadsAt (text_of (files_on self.old name.now)) at into.old into.new count) }
        ensures same { self.new ≡ self.old }
    {
        match self.get(name) {
            Some(text) => Ok(copy_from(text, at, usize::MAX, into)),
            None => Ok(0),
        }
    }

    fn begin(&mut self, name: &str) -> Result<(), Failed>
        ensures exact { is_err result ≡ is_not_out self.old name.now }
        ensures others { OthersStay name.now (files_on self.old) (files_on self.new) }
        ensures writes { Counts self.old.write_faults self.new.write_faults result }
        ensures after { OnOk result (self.new ≡ record self.old { text = [] }) }
        ensures refused { OnErr result (self.new ≡ record self.old { write_faults = one_more self.old.write_faults }) }
    {
        if name.as_bytes() != self.out.as_slice() {
            self.write_faults = self.write_faults.saturating_add(1);
            return Err(Failed);
        }
        self.text.clear();
        Ok(())
    }

    fn append(&mut self, name: &str, piece: &[u8]) -> Result<usize, Failed>
        ensures exact { is_err result ≡ is_too_much self.old name.now piece.now }
        ensures taken { IfOk result (λ count. count ≡ length piece.now) }
        ensures others { OthersStay name.now (files_on self.old) (files_on self.new) }
        ensures writes { Counts self.old.write_faults self.new.write_faults result }
        ensures after { OnOk result (self.new ≡ record self.old { text = self.old.text ++ piece.now; left = self.old.left - length piece.now }) }
        ensures refused { OnErr result (self.new ≡ record self.old { write_faults = one_more self.old.write_faults }) }
    {
        if name.as_bytes() != self.out.as_slice() || piece.len() > self.left {
            self.write_faults = self.write_faults.saturating_add(1);
            return Err(Failed);
        }
        match self.text.extend_from_slice(piece) {
            Ok(()) => {
                self.left -= piece.len();
                Ok(piece.len())
            }
            Err(_) => unreachable!(),
        }
    }
}
