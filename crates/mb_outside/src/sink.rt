// Something that takes bytes.
ghost use Rattle.std.specs.Prelude.{◌≡◌, ◌≤◌, ◌++◌, ◌-◌, ℕ, Option, Some, length, take, IsOk, IfOk, OnErr};
ghost use Rattle.std.specs.Option.{option_map};
ghost use base.Fml.{GName};
ghost use Rattle.run_terms.specs.Files.{Bytes, Files, Counts};

use crate::shelf::Failed;

/// Something that takes bytes, one piece after the other.
///
/// A sink over memory tells the bytes that it took. One over a terminal tells none. Its count of
/// faults never falls, an answer Ok leaves it, and `Failed` comes only where it rose, or where it
/// stood at 2^64 - 1, the last value that it can have.
///
/// A sink that is one file of a shelf also has what belongs to the shelf and no write changes: two
/// numbers beside the count, the other files, the spare of another file, and the loan by which it holds
/// the shelf. It may tell a room: a piece that fits it is not refused.
pub trait Sink {
    /// The bytes taken so far, where they are told.
    ghost told: { Self → Option Bytes };

    /// How often a write failed.
    ghost faults: { Self → ℕ };

    /// How often reading of the shelf failed, where the sink is a file of one, and else 0. No write changes it.
    ghost other: { Self → ℕ };

    /// How often a read of the shelf gave nothing below the size that it stated, where the sink is a file of one, and else 0. No
    /// write changes it.
    ghost second: { Self → ℕ };

    /// A name with files, which no write changes, where they are told.
    ghost rest: { Self → Option (Bytes × Files) };

    /// How many bytes the sink can still take, where that is told.
    ghost room: { Self → Option ℕ };

    /// The shelf's spare, where the sink is a file of one and the spare is another file's. No write changes it.
    ghost other_spare: { Self → Option (Bytes × ℕ) };

    /// The loan that the sink writes through, where it has one. No write changes it, so whoever lent
    /// a shelf to the sink knows the shelf again once the sink is gone.
    ghost loan: { Self → Option GName };

    /// Takes the first bytes of a piece, and answers how many: at least one where the piece is not
    /// empty.
    ///
    /// `Failed` comes only where the count rose, and then the bytes and the room stay. Where a room is
    /// told and the piece fits it, the answer is Ok. An answer Ok lowers the room by the bytes taken.
    fn write(&mut self, piece: &[u8]) -> Result<usize, Failed>
        ensures within { IfOk result (λ count. count ≤ length piece.now) }
        ensures some { IfOk result (λ count. count ≡ 0 → length piece.now ≡ 0) }
        ensures added { IfOk result (λ count.
            told self.new ≡ option_map (λ old. old ++ take count piece.now) (told self.old)) }
        ensures kept { OnErr result (told self.new ≡ told self.old) }
        ensures count { Counts (faults self.old) (faults self.new) result }
        ensures other { other self.new ≡ other self.old }
        ensures second { second self.new ≡ second self.old }
        ensures rest { rest self.new ≡ rest self.old }
        ensures loan { loan self.new ≡ loan self.old }
        ensures sure { (free : ℕ) → room self.old ≡ Some free → length piece.now ≤ free → IsOk result }
        ensures less { IfOk result (λ count. room self.new ≡ option_map (λ free. free - count) (room self.old)) }
        ensures room { OnErr result (room self.new ≡ room self.old) }
        ensures other_spare { other_spare self.new ≡ other_spare self.old };
}
