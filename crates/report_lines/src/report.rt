// Lines on the output and on standard error.
//
// A line is said of a list of texts, one after the other (`say`), and its clause tells the room too, which the calls
// that say the lines of the program pass on (`Takes`). References that stand in one array have one lifetime for the
// prover, so the names of an operation's line, and the word between them, are given one.
ghost use Rattle.std.specs.Prelude.{◌<◌, ◌^◌, ◌-◌, ◌++◌};
ghost use Rattle.std.specs.List.{flat_map};
ghost use Rattle.mb_outside.specs.Seen.{MeetsOnOutput, on_output};
ghost use Rattle.play_terms.specs.Commands.{say_line};
ghost use Rattle.play_terms.specs.Ends.{why_line};
ghost use Rattle.play_terms.specs.Lines.{copied_line, winding_line};
ghost use Rattle.mesh_files.specs.Reasons.{soup_of, why_of};
ghost use Rattle.mesh_files.specs.Halts.{why_in};
ghost use Rattle.report_lines.specs.Reports.{IsReported, said};
ghost use Rattle.report_lines.specs.Taken.{Takes};

use crate::tail::{copied_tail, stop_line, winding_tail};
use mb_outside::{Failed, Sink, write_all};
use mesh_check::Mesh;
use mesh_files::{Halt, Stop};

/// Writes texts one after the other. After `Failed`, which comes only where the sink's count rose, a first part of them was
/// taken. The room is less by what was taken.
pub fn say<K: Sink>(texts: &[&[u8]], sink: &mut K) -> Result<(), Failed>
    ensures { Takes K.Sink (flat_map (λ t. t.now) texts.now) sink.old sink.new result }
{
    for i in 0..texts.len() {
        write_all(sink, texts[i])?;
    }
    Ok(())
}

/// Reports a copy: `copied OUT: points P, triangles T, unused U`. After `Failed`, which comes only where the sink's count rose, it
/// has a first part of the line.
pub fn say_copied<K: Sink>(to: &str, mesh: &Mesh, unused: u32, sink: &mut K) -> Result<(), Failed>
    ensures meets { MeetsOnOutput K.Sink (say_line (copied_line to.now (soup_of mesh.now unused))) sink.old sink.new (said result) }
    ensures takes { Takes K.Sink (copied_line to.now (soup_of mesh.now unused)) sink.old sink.new result }
{
    let points = mesh.points().len() as u64;
    let triangles = mesh.triples().len() as u64;
    let tail = copied_tail(points, triangles, u64::from(unused));
    say(&[b"copied ", to.as_bytes(), tail.as_slice()], sink)
}

/// Reports a winding number: `winding W`. After `Failed`, which comes only where the sink's count rose, it has a first part of the line.
pub fn say_winding<K: Sink>(number: i64, sink: &mut K) -> Result<(), Failed>
    ensures meets { MeetsOnOutput K.Sink (say_line (winding_line number)) sink.old sink.new (said result) }
    ensures takes { Takes K.Sink (winding_line number) sink.old sink.new result }
{
    let tail = winding_tail(number);
    say(&[b"winding ", tail.as_slice()], sink)
}

// Writes a line of two texts as far as the sink takes it.
fn tell<K: Sink>(name: &[u8], tail: &[u8], sink: &mut K)
    requires { K.faults sink.old < 2 ^ 64 - 1 }
    ensures { IsReported (name.now ++ tail.now) (on_output K.Sink sink.old) (on_output K.Sink sink.new) }
{
    match say(&[name, tail], sink) {
        Ok(()) => (),
        Err(Failed) => (),
    }
}

/// Writes the line that tells a stop at a file, as far as the sink takes it.
pub fn tell_stop<K: Sink>(name: &str, stop: &Stop, sink: &mut K)
    requires { K.faults sink.old < 2 ^ 64 - 1 }
    ensures { IsReported (why_line (why_of name.now stop.now)) (on_output K.Sink sink.old) (on_output K.Sink sink.new) }
{
    let (front, tail) = stop_line(name, stop);
    tell(front, tail.as_slice(), sink);
}

/// Writes the line that tells where a command stopped, as far as the sink takes it.
pub fn tell_halt<K: Sink>(halt: &Halt<'_>, sink: &mut K)
    requires { K.faults sink.old < 2 ^ 64 - 1 }
    ensures { IsReported (why_line (why_in halt.now)) (on_output K.Sink sink.old) (on_output K.Sink sink.new) }
{
    match halt {
        Halt::At { name, stop } => tell_stop(name, stop, sink),
        Halt::Reporting => tell(b"", b"report: write fault\n", sink),
        Halt::NoMemory => tell_stop("", &Stop::NoMemory, sink),
    }
}
