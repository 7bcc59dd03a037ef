// Writing the whole of a text to a sink.
ghost use Rattle.std.specs.Prelude.{◌≡◌, ◌≤◌, ◌++◌, ◌-◌, ℕ, Some, [], length, IsOk, OnOk, OnErr};
ghost use Rattle.std.specs.Option.{option_map};
ghost use Rattle.run_terms.specs.Files.{Counts};
ghost use Rattle.mb_outside.specs.Sinks.{Kept, TakesPart};

use crate::shelf::Failed;
use crate::sink::Sink;

/// Writes a text to a sink, piece after piece, until all of it is taken.
///
/// After `Failed`, which comes only where the sink's count rose, a first part of the text was taken. A text that fits the
/// room that the sink tells is taken whole. The room is less by what was taken, whole or in part. An empty text leaves the
/// sink as it was.
pub fn write_all<K: Sink>(sink: &mut K, text: &[u8]) -> Result<(), Failed>
    ensures added { OnOk result (K.told sink.new ≡ option_map (λ held. held ++ text.now) (K.told sink.old)) }
    ensures less { OnOk result (K.room sink.new ≡ option_map (λ free. free - length text.now) (K.room sink.old)) }
    ensures part { OnErr result (TakesPart text.now (K.told sink.old) (K.told sink.new) (K.room sink.old) (K.room sink.new)) }
    ensures count { Counts (K.faults sink.old) (K.faults sink.new) result }
    ensures idle { text.now ≡ [] → sink.new ≡ sink.old }
    ensures kept { Kept K.Sink sink.old sink.new }
    ensures sure { (free : ℕ) → K.room sink.old ≡ Some free → length text.now ≤ free → IsOk result }
{
    let mut done = 0;
    while done < text.len() {
        let (_, rest) = text.split_at(done);
        done += sink.write(rest)?;
    }
    Ok(())
}
