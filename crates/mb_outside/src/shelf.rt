// Files by name, which can be sized, read in pieces, emptied and appended to.
ghost use Rattle.std.specs.Prelude.{◌≡◌, ◌≤◌, ◌<◌, ◌++◌, ◌-◌, ◌⊎◌, ℕ, Bool, false, Option, Some, [], length, take, drop};
ghost use Rattle.std.specs.Prelude.{IsTrue, IsSome, IsOk, IfOk, OnErr};
ghost use Rattle.run_terms.specs.Files.{Bytes, Files, text_of, length_of, size_in, Counts, CountsShort, OthersStay};
ghost use Rattle.run_terms.specs.Files.{ReadsAt, IsKeptOrEmpty, IsSpareOf};

/// The refusal of a shelf or a sink. It comes only in a call in which a count of faults rose.
#[derive(Clone, Copy, Debug, PartialEq, Eq, Drop)]
pub struct Failed;

/// Files by name, each a list of bytes.
///
/// A shelf over memory tells its files. One over a disk tells none, and then nothing is known of
/// what they hold.
///
/// Faults are counted in two parts, those of reading and those of writing. A count never falls, an
/// answer Ok leaves it, and `Failed` comes only where it rose, or where it stood at 2^64 - 1, the
/// last value that it can have.
///
/// A shelf that tells no files may give nothing of a file at a place below the size that it stated. It
/// remembers the size that it stated last, of whatever file, and counts such reads apart.
///
/// A shelf may also tell a spare: a file that it holds, and a number of bytes that it has room for
/// there. Such a shelf tells its files, and doesn't fail where it reads, where it begins that file,
/// or where a piece for that file fits the room.
pub trait Shelf {
    /// Whether the shelf tells its files.
    ghost tells: { Self → Bool };

    /// The files by name, where they are told. A name without a file gives None.
    ghost files: { Self → Files };

    /// How often `size` and `read_at` failed.
    ghost read_faults: { Self → ℕ };

    /// How often `begin` and `append` failed.
    ghost write_faults: { Self → ℕ };

    /// The size that was stated last, of whatever file, where no files are told; 0 where the last answer was
    /// None. A call of `size` that fails and all other calls leave it.
    ghost stated: { Self → ℕ };

    /// How often a read into a buffer that is not empty gave nothing at a place below that size.
    ghost short_reads: { Self → ℕ };

    /// The name of a file and how many bytes it can still take, where that is told.
    ghost spare: { Self → Option (Bytes × ℕ) };

    /// The length of a file in bytes, or None, where the files are told exactly where no file has
    /// the name. It changes no file.
    ///
    /// `Failed` comes only where the read faults rose, and not where a spare is told.
    fn size(&mut self, name: &str) -> Result<Option<u64>, Failed>
        ensures length { IfOk result (λ answer. IsTrue (tells self.old) →
            answer ≡ length_of (files self.old name.now)) }
        ensures stated { IfOk result (λ answer. tells self.old ≡ false → stated self.new ≡ size_in answer) }
        ensures unstated { OnErr result (stated self.new ≡ stated self.old) }
        ensures told { tells self.new ≡ tells self.old }
        ensures files { files self.new ≡ files self.old }
        ensures reads { Counts (read_faults self.old) (read_faults self.new) result }
        ensures short { short_reads self.new ≡ short_reads self.old }
        ensures writes { write_faults self.new ≡ write_faults self.old }
        ensures spare { spare self.new ≡ spare self.old }
        ensures sure { IsSome (spare self.old) → IsOk result };

    /// Copies bytes of a file, from the place `at` on, to the front of `into`, and answers how many.
    /// The places of `into` past them stay. It changes no file.
    ///
    /// Where the files are told, the copied bytes are the file's, a name without a file reads as an
    /// empty file, and the answer is 0 only where `into` is empty or the file ends at `at` or before.
    ///
    /// `Failed` comes only where the read faults rose, and not where a spare is told. What `into`
    /// holds is then unknown.
    fn read_at(&mut self, name: &str, at: u64, into: &mut [u8]) -> Result<usize, Failed>
        ensures within { IfOk result (λ count. count ≤ length into.old) }
        ensures rest { IfOk result (λ count. drop count into.new ≡ drop count into.old) }
        ensures bytes { IfOk result (λ count. IsTrue (tells self.old) →
            ReadsAt (text_of (files self.old name.now)) at into.old into.new count) }
        ensures told { tells self.new ≡ tells self.old }
        ensures files { files self.new ≡ files self.old }
        ensures reads { Counts (read_faults self.old) (read_faults self.new) result }
        ensures stated { stated self.new ≡ stated self.old }
        ensures short { IfOk result (λ count.
            CountsShort (stated self.old) at into.old count (short_reads self.old) (short_reads self.new)) }
        ensures unread { OnErr result (short_reads self.new ≡ short_reads self.old) }
        ensures writes { write_faults self.new ≡ write_faults self.old }
        ensures spare { spare self.new ≡ spare self.old }
        ensures sure { IsSome (spare self.old) → IsOk result };

    /// Makes a file empty, or a new one that is. All other files stay.
    ///
    /// `Failed` comes only where the write faults rose, and not for the spare's name. The file is
    /// then as before or empty.
    fn begin(&mut self, name: &str) -> Result<(), Failed>
        ensures empty { IfOk result (λ _. IsTrue (tells self.old) → files self.new name.now ≡ Some []) }
        ensures kept { OnErr result (IsTrue (tells self.old) →
            IsKeptOrEmpty (files self.old name.now) (files self.new name.now)) }
        ensures others { IsTrue (tells self.old) → OthersStay name.now (files self.old) (files self.new) }
        ensures told { tells self.new ≡ tells self.old }
        ensures reads { read_faults self.new ≡ read_faults self.old }
        ensures stated { stated self.new ≡ stated self.old }
        ensures short { short_reads self.new ≡ short_reads self.old }
        ensures writes { Counts (write_faults self.old) (write_faults self.new) result }
        ensures spare { spare self.new ≡ spare self.old }
        ensures sure { (room : ℕ) → spare self.old ≡ Some (name.now, room) → IsOk result };

    /// Adds the first bytes of a piece at the end of a file, and answers how many: at least one where
    /// the piece is not empty. A name without a file counts as an empty file, and an answer Ok makes
    /// the file. All else stays.
    ///
    /// `Failed` comes only where the write faults rose, and not where the piece fits the spare of this
    /// name. All files are then as before.
    ///
    /// An answer Ok lowers the spare of this name by the bytes added. Nothing else changes a spare.
    fn append(&mut self, name: &str, piece: &[u8]) -> Result<usize, Failed>
        ensures within { IfOk result (λ count. count ≤ length piece.now) }
        ensures some { IfOk result (λ count. count ≡ 0 → length piece.now ≡ 0) }
        ensures added { IfOk result (λ count. IsTrue (tells self.old) →
            files self.new name.now ≡ Some (text_of (files self.old name.now) ++ take count piece.now)) }
        ensures kept { OnErr result (IsTrue (tells self.old) → files self.new name.now ≡ files self.old name.now) }
        ensures others { IsTrue (tells self.old) → OthersStay name.now (files self.old) (files self.new) }
        ensures told { tells self.new ≡ tells self.old }
        ensures reads { read_faults self.new ≡ read_faults self.old }
        ensures stated { stated self.new ≡ stated self.old }
        ensures short { short_reads self.new ≡ short_reads self.old }
        ensures writes { Counts (write_faults self.old) (write_faults self.new) result }
        ensures sure { (room : ℕ) → spare self.old ≡ Some (name.now, room) →
            length piece.now ≤ room → IsOk result }
        ensures less { IfOk result (λ count. (room : ℕ) → spare self.old ≡ Some (name.now, room) →
            spare self.new ≡ Some (name.now, room - count)) }
        ensures spare { OnErr result (spare self.new ≡ spare self.old) }
        ensures other_spare { IsSpareOf (spare self.old) name.now ⊎ (spare self.new ≡ spare self.old) };

    /// A shelf that tells a spare tells its files, and holds the spare's.
    ghost spare_is_told: { (shelf : Self) (told : Bytes × ℕ) → spare shelf ≡ Some told →
        IsTrue (tells shelf) × IsSome (files shelf told.0) };
}
