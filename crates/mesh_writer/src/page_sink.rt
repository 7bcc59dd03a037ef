// One file of a shelf as a sink.
ghost use Rattle.std.specs.Prelude.{◌≡◌, IsTrue, IsSome, Some, None, if◌then◌else◌};
ghost use Rattle.mesh_writer.specs.Pages.{without, room_of, spare_beside};

use mb_outside::{Failed, Shelf, Sink};

/// A file of a shelf, to which each write appends.
///
/// Where the shelf tells its files, the file is there; the sink's bytes are the file's, and its rest is the file's name with the
/// shelf's other files. Its count of faults is the shelf's of writing, its other number the shelf's of reading, its second number the
/// shelf's of reads that gave nothing. Where the shelf's spare is this file's, the sink's room is the spare's number; a spare of another
/// file is the sink's other spare.
#[derive(Drop)]
pub struct PageSink<'a, S: Shelf> {
    shelf: &'a mut S,
    name: &'a str,
    ghost there: { IsTrue (S.tells shelf.now) → IsSome (S.files shelf.now name.now) },
}

impl<'a, S: Shelf> PageSink<'a, S> {
    /// The file of this name, which is there where the shelf tells its files.
    pub fn of(shelf: &'a mut S, name: &'a str) -> PageSink<'a, S>
        requires { IsTrue (S.tells shelf.old) → IsSome (S.files shelf.old name.now) }
        ensures shelf { result.shelf.now ≡ shelf.old }
        ensures name { result.name.now ≡ name.now }
        ensures same { result.shelf.ghost_name ≡ shelf.entry.ghost_name }
    {
        PageSink { shelf, name }
    }
}

impl<'a, S: Shelf> Sink for PageSink<'a, S> {
    ghost told = { λ p. if S.tells p.shelf.now then S.files p.shelf.now p.name.now else None };

    ghost faults = { λ p. S.write_faults p.shelf.now };

    ghost other = { λ p. S.read_faults p.shelf.now };

    ghost second = { λ p. S.short_reads p.shelf.now };

    ghost rest = { λ p. if S.tells p.shelf.now then Some (p.name.now, without p.name.now (S.files p.shelf.now)) else None };

    ghost room = { λ p. room_of p.name.now (S.spare p.shelf.now) };

    ghost other_spare = { λ p. spare_beside p.name.now (S.spare p.shelf.now) };

    ghost loan = { λ p. Some p.shelf.ghost_name };

    fn write(&mut self, piece: &[u8]) -> Result<usize, Failed> {
        self.shelf.append(self.name, piece)
    }
}
