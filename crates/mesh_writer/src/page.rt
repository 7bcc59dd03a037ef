// The page that lines are put on before they go to a sink.
//
// A writer's page is asked for free room after each line, and goes to the sink where fewer than 128 bytes are free.
ghost use Rattle.std.specs.Prelude.{◌≡◌, ◌≤◌, ◌<◌, ◌+◌, ◌++◌, [], length, IsOk, OnOk, OnErr};
ghost use Rattle.arrayvec.specs.ArrayVec.{array_vec_len};
ghost use Rattle.run_terms.specs.Files.{Counts};
ghost use Rattle.mb_outside.specs.Sinks.{Kept};
ghost use Rattle.mesh_writer.specs.Passing.{Passed, Stopped};

use arrayvec::ArrayVec;
use mb_outside::{Failed, Sink, write_all};

/// How many bytes a page holds.
pub const PAGE: usize = 4096;

/// How many bytes are free on a page where a line is put on it. No line is longer.
pub const LINE: usize = 128;

/// A page.
pub type Page = ArrayVec<u8, PAGE>;

// Adds a text to the page.
pub fn put_text(page: &mut Page, text: &[u8])
    requires { array_vec_len page.old + length text.now ≤ 4096 }
    ensures text { page.new.items ≡ page.old.items ++ text.now }
    ensures len { array_vec_len page.new ≡ array_vec_len page.old + length text.now }
{
    match page.try_extend_from_slice(text) {
        Ok(()) => (),
        Err(_) => unreachable!(),
    }
}

// Sends the page to the sink where fewer than 128 bytes are free, which a line may need. Where more are free it stays, and the
// sink is not asked.
pub fn send_full<K: Sink>(page: &mut Page, sink: &mut K) -> Result<(), Failed>
    ensures passed { OnOk result (Passed [] page.old.items page.new.items (K.told sink.old) (K.told sink.new) (K.room sink.old) (K.room sink.new)) }
    ensures stopped { OnErr result (Stopped [] page.old.items (K.told sink.old) (K.told sink.new) (K.room sink.old) (K.room sink.new)) }
    ensures goes { 3968 < array_vec_len page.old → OnOk result (page.new.items ≡ []) }
    ensures stays { array_vec_len page.old ≤ 3968 → IsOk result × (page.new.items ≡ page.old.items) × (sink.new ≡ sink.old) }
    ensures free { OnOk result (array_vec_len page.new ≤ 3968) }
    ensures count { Counts (K.faults sink.old) (K.faults sink.new) result }
    ensures kept { Kept K.Sink sink.old sink.new }
{
    if PAGE - page.len() < LINE {
        write_all(sink, page.as_slice())?;
        page.clear();
    }
    Ok(())
}
