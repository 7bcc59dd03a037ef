// The entries of a list.
ghost use Rattle.std.specs.Prelude.{◌≡◌, ◌+◌, ◌<◌, ◌≤◌, ◌^◌, ◌++◌, IfOk, OnOk, length, map};
ghost use Rattle.source_faces.specs.Entries.{entry_of, list_end, run_entries};

use crate::lists::runs::CopyRange;
use crate::lists::stands::Stand;
use mb_base::{Entry, NoMemory};

/// Adds the copies of the vertex at which a half-edge starts, or of the one at which it ends: at the start they are starts
/// where the vertex is prescribed a positive number of times, at the end where it is a negative number.
pub fn push_run(entries: &mut Vec<Entry>, run: CopyRange, at_start: bool) -> Result<(), NoMemory>
    requires fits { run.first + run.count < 2 ^ 32 }
    ensures { OnOk result (entries.new.items ≡ entries.old.items ++ run_entries run at_start) }
{
    for i in 0..run.count {
        entries.push(Entry {
            vertex: run.first + i,
            start: at_start != run.negative,
        })?;
    }
    Ok(())
}

/// Adds the copies of hits with these records.
pub fn push_stands(entries: &mut Vec<Entry>, stands: &[Stand]) -> Result<(), NoMemory>
    ensures { OnOk result (entries.new.items ≡ entries.old.items ++ map entry_of stands.now) }
{
    for stand in stands {
        entries.push(Entry {
            vertex: stand.copy,
            start: stand.start,
        })?;
    }
    Ok(())
}

/// Where the records of a list end among those of a face from a place on, at which they begin if there are any.
pub fn list_end(stands: &[Stand], begin: usize, list: u32) -> usize
    requires { begin ≤ length stands.now }
    ensures value { result ≡ list_end stands.now begin list }
    ensures from { begin ≤ result }
    ensures within { result ≤ length stands.now }
{
    let mut end = begin;
    while end < stands.len() && stands[end].list == list {
        end += 1;
    }
    end
}
