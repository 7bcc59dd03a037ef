// Reading a file of a shelf, whole and in pieces. What is read is what the file holds, and a fault comes only where the shelf had one.
ghost use Rattle.std.specs.Prelude.{◌≡◌, ◌≤◌, ◌<◌, ◌+◌, ◌-◌, min, Ok, Err, false, length, IsTrue, IfOk, OnErr, OnOk, IfErr, vec_len};
ghost use Rattle.mesh_terms.specs.Limits.{IsLawful, Limits as Bounds};
ghost use Rattle.run_terms.specs.Files.{text_of, Counts, Grew};
ghost use Rattle.play_terms.specs.Commands.{ask_file};
ghost use Rattle.mb_outside.specs.Seen.{MeetsOnShelf, on_shelf};
ghost use Rattle.mesh_files.specs.ReadPieces.{IsLeftByRead, ReadsOn, IsSized};
ghost use Rattle.mesh_files.specs.Reasons.{ended_by, is_reading_stop, why_of};

use crate::size::size_within;
use crate::stop::Stop;
use mb_base::Limits;
use mb_outside::{Failed, Shelf};
use std::alloc::Global;

/// How many bytes one read asks for at most.
const PIECE: usize = 65_536;

// The size of a file within the limit.
fn size_of<S: Shelf>(name: &str, limits: &Limits, shelf: &mut S) -> Result<usize, Stop>
    ensures size { IfOk result (λ size. IsTrue (S.tells shelf.old) → IsSized limits.now (S.files shelf.old name.now) size) }
    ensures stated { IfOk result (λ size. S.tells shelf.old ≡ false → S.stated shelf.new ≡ size) }
    ensures same { OnOk result (on_shelf S.Shelf shelf.new ≡ on_shelf S.Shelf shelf.old) }
    ensures stop { IfErr result (λ stop. IsTrue (is_reading_stop stop)) }
    ensures meets { IfErr result (λ stop. MeetsOnShelf S.Shelf (ask_file limits.now name.now) shelf.old shelf.new (Err (why_of name.now stop))) }
    ensures lawful { IsLawful limits.now }
    ensures files { S.files shelf.new ≡ S.files shelf.old }
    ensures spare { S.spare shelf.new ≡ S.spare shelf.old }
{
    let most = limits.file_bytes();
    let Ok(size) = shelf.size(name) else {
        return Err(Stop::ReadFault);
    };
    size_within(size, most)
}

// How many bytes the next read asks for: as many as are left, and at most a piece.
fn asked(have: usize, size: usize) -> usize
    requires { have < size }
    ensures exact { result ≡ min 65536 (size - have) }
    ensures some { 0 < result }
    ensures within { have + result ≤ size }
{
    PIECE.min(size - have)
}

// Reads one piece more of a file, into these places, and answers how many bytes came.
fn read_piece<S: Shelf>(
    shelf: &mut S,
    name: &str,
    bytes: &mut Vec<u8>,
    have: usize,
    end: usize,
) -> Result<usize, Failed>
    requires some { have < end }
    requires within { end ≤ vec_len bytes.old }
    ensures within { IfOk result (λ count. have + count ≤ end) }
    ensures bytes { IfOk result (λ count. IsTrue (S.tells shelf.old) →
        ReadsOn (text_of (S.files shelf.old name.now)) have count bytes.old.items bytes.new.items) }
    ensures end { IfOk result (λ count. count ≡ 0 → IsTrue (S.tells shelf.old) → length (text_of (S.files shelf.old name.now)) ≤ have) }
    ensures length { vec_len bytes.new ≡ vec_len bytes.old }
    ensures short { IfOk result (λ count. (count ≡ 0) × (have < S.stated shelf.old) → Grew (S.short_reads shelf.old) (S.short_reads shelf.new)) }
    ensures whole { IfOk result (λ count. 0 < count → S.short_reads shelf.new ≡ S.short_reads shelf.old) }
    ensures unread { OnErr result (S.short_reads shelf.new ≡ S.short_reads shelf.old) }
    ensures reads { Counts (S.read_faults shelf.old) (S.read_faults shelf.new) result }
    ensures left { IsLeftByRead S.Shelf shelf.old shelf.new }
{
    let count = shelf.read_at(name, have as u64, &mut bytes[have..end])?;
    Ok(count)
}

// Reads the next piece of a file into its place among its bytes, and answers how many came, which are some. A read that fails
// or gives nothing is a `ReadFault`.
fn read_some<S: Shelf>(
    shelf: &mut S,
    name: &str,
    bytes: &mut Vec<u8>,
    have: usize,
) -> Result<usize, Stop>
    requires some { have < vec_len bytes.old }
    requires size { IsTrue (S.tells shelf.old) → length (text_of (S.files shelf.old name.now)) ≡ vec_len bytes.old }
    requires stated { S.tells shelf.old ≡ false → S.stated shelf.old ≡ vec_len bytes.old }
    ensures some { IfOk result (λ count. 0 < count) }
    ensures within { IfOk result (λ count. have + count ≤ vec_len bytes.old) }
    ensures bytes { IfOk result (λ count. IsTrue (S.tells shelf.old) →
        ReadsOn (text_of (S.files shelf.old name.now)) have count bytes.old.items bytes.new.items) }
    ensures length { vec_len bytes.new ≡ vec_len bytes.old }
    ensures same { OnOk result (on_shelf S.Shelf shelf.new ≡ on_shelf S.Shelf shelf.old) }
    ensures stop { IfErr result (λ stop. IsTrue (is_reading_stop stop)) }
    ensures meets { IfErr result (λ stop. (limits : Bounds) →
        MeetsOnShelf S.Shelf (ask_file limits name.now) shelf.old shelf.new (Err (why_of name.now stop))) }
    ensures left { IsLeftByRead S.Shelf shelf.old shelf.new }
{
    let end = have + asked(have, bytes.len());
    let Ok(count) = read_piece(shelf, name, bytes, have, end) else {
        return Err(Stop::ReadFault);
    };
    if count == 0 {
        return Err(Stop::ReadFault);
    }
    Ok(count)
}

// Reads the first bytes of a file, as many as its size.
fn read_to<S: Shelf>(
    alloc: Global,
    name: &str,
    limits: &Limits,
    size: usize,
    shelf: &mut S,
) -> Result<Vec<u8>, Stop>
    requires size { IsTrue (S.tells shelf.old) → length (text_of (S.files shelf.old name.now)) ≡ size }
    requires stated { S.tells shelf.old ≡ false → S.stated shelf.old ≡ size }
    ensures bytes { IfOk result (λ bytes. IsTrue (S.tells shelf.old) → text_of (S.files shelf.old name.now) ≡ bytes.items) }
    ensures same { OnOk result (on_shelf S.Shelf shelf.new ≡ on_shelf S.Shelf shelf.old) }
    ensures stop { IfErr result (λ stop. IsTrue (is_reading_stop stop)) }
    ensures meets { IfErr result (λ stop. MeetsOnShelf S.Shelf (ask_file limits.now name.now) shelf.old shelf.new (Err (why_of name.now stop))) }
    ensures files { S.files shelf.new ≡ S.files shelf.old }
    ensures spare { S.spare shelf.new ≡ S.spare shelf.old }
{
    let mut bytes = vec![in alloc; 0u8; size]?;
    let mut have = 0;
    while have < size {
        let count = read_some(shelf, name, &mut bytes, have)?;
        have += count;
    }
    Ok(bytes)
}

/// Reads a whole file of a shelf. It asks for the size, and then for pieces of at most 65,536 bytes until it has as many. It
/// stops with the first thing that is wrong, in this order: the shelf fails, no file has the name, the file is longer than the
/// limit. `ReadFault` comes only where the shelf's count of read faults rose; or, over a shelf that tells no files, where a read
/// gave nothing below the size that was stated; the count of such reads rises then, but stays where it stands at 2^64 - 1, its last
/// value. No file changes, nor does the shelf's spare. It takes memory for the bytes.
pub fn read_file<S: Shelf>(
    alloc: Global,
    name: &str,
    limits: &Limits,
    shelf: &mut S,
) -> Result<Vec<u8>, Stop>
    ensures meets { MeetsOnShelf S.Shelf (ask_file limits.now name.now) shelf.old shelf.new (ended_by (λ bytes. bytes.items) name.now result) }
    ensures stop { IfErr result (λ stop. IsTrue (is_reading_stop stop)) }
    ensures lawful { IsLawful limits.now }
    ensures files { S.files shelf.new ≡ S.files shelf.old }
    ensures spare { S.spare shelf.new ≡ S.spare shelf.old }
{
    let size = size_of(name, limits, shelf)?;
    read_to(alloc, name, limits, size, shelf)
}
