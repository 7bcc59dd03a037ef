// The start of the program in the current folder.
ghost use Rattle.std.specs.Prelude.{◌≡◌, ◌<◌, ◌^◌, ◌-◌, IfOk, IfErr};
ghost use Rattle.program_runs.specs.Playing.{program_limits};
ghost use Rattle.program_runs.specs.Promises.{IsHeard, IsSoundPlay, IsUnread};

use crate::Status;
use crate::starting::start;
use mb_base::{ArgList, Steps};
use mb_outside::{FolderShelf, Sink};
use mesh_files::Stop;
use std::alloc::{AllocError, Global};
use std::rt::Files;
use std::sync::ledger::{Blank, Ledger};

/// The program over the current folder, which counts its sums for nobody. What the folder holds can't be told. So of a run it says what needs no told
/// files: the status with its line on `err`; that the faults of `out` rise with status 7 alone, and then the line is that of the report, and where they
/// do not, that of a file; and of the play of the words, whatever the files, how what it writes is read again, what its names hold and what is read of
/// their STL texts, what its operations give and, under exact kernels, keep, and what remeshing keeps.
pub fn start_here<R: Files, O: Sink, E: Sink, L: Ledger>(
    rt: &R,
    alloc: Global,
    words: Result<ArgList, Stop>,
    out: &mut O,
    err: &mut E,
    blank: Blank,
) -> Status
    requires outs { O.faults out.old < 2 ^ 64 - 1 }
    requires errs { E.faults err.old < 2 ^ 64 - 1 }
    requires name { blank.name ≡ L.name }
    requires parts { blank.parts ≡ L.parts }
    requires some { 0 < blank.parts }
    ensures heard { IfOk words (λ words. IsHeard O.Sink E.Sink words (out.old, err.old) (out.new, err.new) result) }
    ensures sound { IfOk words (λ words. IsSoundPlay program_limits words) }
    ensures unread { IfErr words (λ stop. IsUnread E.Sink stop err.old err.new result) }
    ensures alone { IfErr words (λ _. out.new ≡ out.old) }
{
    keep_freed(alloc);
    let mut shelf = FolderShelf::of(rt);
    let mut sums = Steps::<L>::over(blank);
    start(alloc, words, &mut shelf, out, err, &mut sums)
}

// How many bytes are asked for and given back: a little less than 2^25, up to which the C library of Linux learns from what
// it is given back.
const ROOM: usize = 33_546_000;

// Asks for a block and gives it back untouched. The C library of Linux hands a large block to the system as soon as it is
// freed, and a new one then costs a fault for each page; those up to the size of the largest block that was freed it keeps.
fn keep_freed(alloc: Global) {
    let block: Result<Vec<u8>, AllocError> = Vec::with_capacity(alloc, ROOM);
    match block {
        Ok(_) => (),
        Err(_) => (),
    }
}
