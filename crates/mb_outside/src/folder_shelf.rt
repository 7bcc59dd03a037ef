// The files of the current folder as a shelf.
ghost use Rattle.std.specs.Prelude.{◌≡◌, ◌≤◌, false, None, IfOk, drop, length};

use crate::copying::copy_from;
use crate::shelf::{Failed, Shelf};
use std::fs::{self, OpenOptions};
use std::io::{self, ErrorKind, Read, Seek, SeekFrom, Write};
use std::rt::Files;

// The most bytes that one read asks the system for.
const PIECE: usize = 65_536;

/// The files of the current folder, reached by the runtime `rt`.
///
/// No proof can say what a disk holds, so it tells no files. Each part of its count is 0 at first, and
/// goes up by one at each failure that the system reports, and where a write of some bytes took none.
/// It remembers the size that it stated last, and counts the reads that gave nothing below it. A file is opened anew at each call.
#[derive(Drop)]
pub struct FolderShelf<'r, R: Files> {
    rt: &'r R,
    read_faults: u64,
    write_faults: u64,
    stated: u64,
    short_reads: u64,
}

impl<'r, R: Files> FolderShelf<'r, R> {
    /// The current folder, with no fault so far.
    pub fn of(rt: &'r R) -> FolderShelf<'r, R>
        ensures reads { ⟦<FolderShelf<'r, R> as Shelf>⟧.read_faults result ≡ 0 }
        ensures writes { ⟦<FolderShelf<'r, R> as Shelf>⟧.write_faults result ≡ 0 }
        ensures short { ⟦<FolderShelf<'r, R> as Shelf>⟧.short_reads result ≡ 0 }
    {
        FolderShelf {
            rt,
            read_faults: 0,
            write_faults: 0,
            stated: 0,
            short_reads: 0,
        }
    }
}

impl<'r, R: Files> Shelf for FolderShelf<'r, R> {
    ghost tells = { λ _. false };

    ghost files = { λ _ _. None };

    ghost read_faults = { λ shelf. shelf.read_faults };

    ghost write_faults = { λ shelf. shelf.write_faults };

    ghost stated = { λ shelf. shelf.stated };

    ghost short_reads = { λ shelf. shelf.short_reads };

    ghost spare = { λ _. None };

    ghost spare_is_told = { λ shelf told is. Prim.cc };

    fn size(&mut self, name: &str) -> Result<Option<u64>, Failed> {
        match size_of_file(self.rt, name) {
            Ok(size) => {
                self.stated = size.unwrap_or(0);
                Ok(size)
            }
            Err(_) => {
                self.read_faults = self.read_faults.saturating_add(1);
                Err(Failed)
            }
        }
    }

    fn read_at(&mut self, name: &str, at: u64, into: &mut [u8]) -> Result<usize, Failed> {
        match read_from(self.rt, name, at, into) {
            Ok(count) => {
                if count == 0 && !into.is_empty() && at < self.stated {
                    self.short_reads = self.short_reads.saturating_add(1);
                }
                Ok(count)
            }
            Err(_) => {
                self.read_faults = self.read_faults.saturating_add(1);
                Err(Failed)
            }
        }
    }

    fn begin(&mut self, name: &str) -> Result<(), Failed> {
        match fs::create(self.rt, name) {
            Ok(_) => Ok(()),
            Err(_) => {
                self.write_faults = self.write_faults.saturating_add(1);
                Err(Failed)
            }
        }
    }

    fn append(&mut self, name: &str, piece: &[u8]) -> Result<usize, Failed> {
        match append_to(self.rt, name, piece) {
            Ok(count) if count > 0 || piece.is_empty() => Ok(count),
            _ => {
                self.write_faults = self.write_faults.saturating_add(1);
                Err(Failed)
            }
        }
    }
}

/// The length of a file or a folder, or None where it doesn't exist. A pipe, a terminal or another device has no length: what
/// the system says of it is none of how much can be read.
fn size_of_file<R: Files>(rt: &R, name: &str) -> io::Result<Option<u64>> {
    match fs::metadata(rt, name) {
        Ok(metadata) => {
            if metadata.is_file() || metadata.is_dir() {
                Ok(Some(metadata.len()))
            } else {
                Err(io::Error::from(ErrorKind::Unsupported))
            }
        }
        Err(error) => {
            if error.kind() == ErrorKind::NotFound {
                Ok(None)
            } else {
                Err(error)
            }
        }
    }
}

/// Reads into a buffer of its own first, since std's read doesn't say that the places past its bytes stay.
fn read_from<R: Files>(rt: &R, name: &str, at: u64, into: &mut [u8]) -> io::Result<usize>
    ensures within { IfOk result (λ count. count ≤ length into.old) }
    ensures rest { IfOk result (λ count. drop count into.new ≡ drop count into.old) }
{
    let mut piece = [0; PIECE];
    read_over(rt, name, at, &mut piece, into)
}

/// Reads into the piece, and copies its front to that of `into`.
fn read_over<R: Files>(
    rt: &R,
    name: &str,
    at: u64,
    piece: &mut [u8],
    into: &mut [u8],
) -> io::Result<usize>
    ensures within { IfOk result (λ count. count ≤ length into.old) }
    ensures rest { IfOk result (λ count. drop count into.new ≡ drop count into.old) }
{
    let want = into.len().min(piece.len());
    let count = read_piece(rt, name, at, &mut piece[..want])?;
    Ok(copy_from(&piece[..count], 0, PIECE, into))
}

/// Reads from a place of a file on.
fn read_piece<R: Files>(rt: &R, name: &str, at: u64, piece: &mut [u8]) -> io::Result<usize>
    ensures { IfOk result (λ count. count ≤ length piece.old) }
{
    let mut file = fs::open(rt, name)?;
    file.seek(SeekFrom::Start(at))?;
    file.read(piece)
}

/// Writes at the end of a file, which is made where it doesn't exist.
fn append_to<R: Files>(rt: &R, name: &str, piece: &[u8]) -> io::Result<usize>
    ensures { IfOk result (λ count. count ≤ length piece.now) }
{
    let mut options = OpenOptions::new();
    options.append(true).create(true);
    let mut file = options.open(rt, name)?;
    file.write(piece)
}
