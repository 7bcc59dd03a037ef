// A writer of std as a sink.
ghost use Rattle.std.specs.Prelude.{◌≡◌, None};

use crate::shelf::Failed;
use crate::sink::Sink;
use std::io::Write;

/// A writer of std, such as the standard output.
///
/// No proof can say what a terminal shows, so it tells no bytes. Its count is 0 at first, and goes up
/// by one at each failure that the writer reports, and where a write of some bytes took none.
#[derive(Drop)]
pub struct StdSink<W: Write + Drop> {
    writer: W,
    faults: u64,
}

impl<W: Write + Drop> StdSink<W> {
    /// A sink over this writer, with no fault so far.
    pub fn over(writer: W) -> StdSink<W>
        ensures { ⟦<StdSink<W> as Sink>⟧.faults result ≡ 0 }
    {
        StdSink { writer, faults: 0 }
    }
}

impl<W: Write + Drop> Sink for StdSink<W> {
    ghost told = { λ _. None };

    ghost faults = { λ sink. sink.faults };

    ghost other = { λ _. 0 };

    ghost second = { λ _. 0 };

    ghost rest = { λ _. None };

    ghost room = { λ _. None };

    ghost other_spare = { λ _. None };

    ghost loan = { λ _. None };

    fn write(&mut self, piece: &[u8]) -> Result<usize, Failed> {
        if piece.is_empty() {
            return Ok(0);
        }
        match self.writer.write(piece) {
            Ok(count) if count > 0 => Ok(count),
            _ => {
                self.faults = self.faults.saturating_add(1);
                Err(Failed)
            }
        }
    }
}
