// The start of the program, over any shelf and any outputs.
ghost use Rattle.std.specs.Prelude.{◌≡◌, ◌<◌, ◌^◌, ◌-◌, IfOk, IfErr};
ghost use Rattle.program_runs.specs.Playing.{program_limits};
ghost use Rattle.program_runs.specs.Promises.{IsSoundRun, IsUnread};

use crate::top_call::run;
use crate::{Status, status_at};
use mb_base::{ArgList, Limits, Steps};
use mb_outside::{Shelf, Sink};
use mesh_files::Stop;
use report_lines::tell_stop;
use std::alloc::Global;
use std::sync::ledger::Ledger;

/// Runs the program on its words, under its limits, as `run` does. Where the words could not be had, it tells why on `err`, and does
/// nothing else: they are no text, which is `Usage`, or there was no memory for them.
pub fn start<S: Shelf, O: Sink, E: Sink, L: Ledger>(
    alloc: Global,
    words: Result<ArgList, Stop>,
    shelf: &mut S,
    out: &mut O,
    err: &mut E,
    sums: &mut Steps<L>,
) -> Status
    requires reads { S.read_faults shelf.old < 2 ^ 64 - 1 }
    requires writes { S.write_faults shelf.old < 2 ^ 64 - 1 }
    requires outs { O.faults out.old < 2 ^ 64 - 1 }
    requires errs { E.faults err.old < 2 ^ 64 - 1 }
    ensures run { IfOk words (λ words. IsSoundRun S.Shelf O.Sink E.Sink program_limits words
        (shelf.old, out.old, err.old) (shelf.new, out.new, err.new) sums.old sums.new result) }
    ensures unread { IfErr words (λ stop. IsUnread E.Sink stop err.old err.new result) }
    ensures alone { IfErr words (λ _. (shelf.new ≡ shelf.old) × (out.new ≡ out.old) × (sums.new ≡ sums.old)) }
{
    match words {
        Ok(words) => run(alloc, &words, &Limits::program(), shelf, out, err, sums),
        Err(stop) => {
            tell_stop("", &stop, err);
            status_at(&stop)
        }
    }
}
