// The ends of the lines that the program says.
ghost use Rattle.std.specs.Prelude.{◌≡◌, ◌≤◌, ◌+◌, ◌++◌, length, decimal, codes};
ghost use Rattle.std.specs.Fmt.{signed_decimal};
ghost use Rattle.arrayvec.specs.ArrayVec.{array_vec_len};
ghost use Rattle.mb_base.specs.Faults.{counted_of};
ghost use Rattle.play_terms.specs.Ends.{why_line};
ghost use Rattle.play_terms.specs.Lines.{counts_text, limit_name};
ghost use Rattle.play_terms.specs.ScriptLines.{step_kind_name};
ghost use Rattle.mesh_files.specs.Reasons.{why_of};

use crate::fault_names::{kind_text, limit_text, script_kind_text, step_kind_text};
use arrayvec::ArrayVec;
use itoa::{Buffer, Integer};
use mb_base::Counted;
use mesh_files::Stop;

/// The end of a line.
pub type Tail = ArrayVec<u8, 128>;

/// Adds a text.
pub fn put(tail: &mut Tail, text: &[u8])
    requires { array_vec_len tail.old + length text.now ≤ 128 }
    ensures text { tail.new.items ≡ tail.old.items ++ text.now }
    ensures len { array_vec_len tail.new ≡ array_vec_len tail.old + length text.now }
{
    match tail.try_extend_from_slice(text) {
        Ok(()) => (),
        Err(_) => unreachable!(),
    }
}

// Adds a number.
fn put_number<I: Integer>(tail: &mut Tail, number: I)
    requires { array_vec_len tail.old + I.MAX_STR_LEN ≤ 128 }
    ensures text { tail.new.items ≡ tail.old.items ++ I.text number }
    ensures len { array_vec_len tail.new ≤ array_vec_len tail.old + I.MAX_STR_LEN }
{
    let mut buffer = Buffer::new();
    put(tail, buffer.format(number).as_bytes());
}

/// Adds a text and a number.
pub fn put_pair<I: Integer>(tail: &mut Tail, text: &[u8], number: I)
    requires { array_vec_len tail.old + length text.now + I.MAX_STR_LEN ≤ 128 }
    ensures text { tail.new.items ≡ tail.old.items ++ (text.now ++ I.text number) }
    ensures len { array_vec_len tail.new ≤ array_vec_len tail.old + length text.now + I.MAX_STR_LEN }
{
    put(tail, text);
    put_number(tail, number);
}

// The end of the line that tells a fault on a line of a file, with the number and the name of its kind.
fn line_tail(line: u64, kind: u64, name: &[u8]) -> Tail
    requires { length name.now ≤ 17 }
    ensures { result.items ≡ codes ":" ++ decimal line ++ codes ": " ++ decimal kind ++ codes " " ++ name.now ++ codes "\n" }
{
    let mut tail = Tail::new();
    put_pair(&mut tail, b":", line);
    put_pair(&mut tail, b": ", kind);
    put(&mut tail, b" ");
    put(&mut tail, name);
    put(&mut tail, b"\n");
    tail
}

// The end of the line that tells a faulty mesh which a line of a script makes.
fn step_tail(line: u64, kind: u8) -> Tail
    ensures { result.items ≡ codes ":" ++ decimal line ++ codes ": " ++ decimal kind ++ codes " " ++ step_kind_name kind ++ codes "\n" }
{
    line_tail(line, u64::from(kind), step_kind_text(kind))
}

// The end of the line of an open mesh.
fn edge_tail(from: u32, to: u32) -> Tail
    ensures { result.items ≡ codes ": 11 OpenEdge " ++ decimal (from + 1) ++ codes " " ++ decimal (to + 1) ++ codes "\n" }
{
    let mut tail = Tail::new();
    put_pair(&mut tail, b": 11 OpenEdge ", u64::from(from) + 1);
    put_pair(&mut tail, b" ", u64::from(to) + 1);
    put(&mut tail, b"\n");
    tail
}

// The line of something that was counted past its limit.
fn limit_tail(what: Counted, seen: u64) -> Tail
    ensures { result.items ≡ codes "limit " ++ limit_name (counted_of what) ++ codes " " ++ decimal seen ++ codes "\n" }
{
    let mut tail = Tail::new();
    put(&mut tail, b"limit ");
    put(&mut tail, limit_text(what));
    put_pair(&mut tail, b" ", seen);
    put(&mut tail, b"\n");
    tail
}

// A line that is said as it is.
fn plain_tail(text: &[u8]) -> Tail
    requires { length text.now ≤ 128 }
    ensures { result.items ≡ text.now }
{
    let mut tail = Tail::new();
    put(&mut tail, text);
    tail
}

/// The line that tells a stop at a file, in two parts: the file's name where it begins with one, and its end.
pub fn stop_line<'a>(name: &'a str, stop: &Stop) -> (&'a [u8], Tail)
    ensures { result.0.now ++ result.1.items ≡ why_line (why_of name.now stop.now) }
{
    let name = name.as_bytes();
    match stop {
        Stop::Usage => (
            b"",
            plain_tail(
                b"usage: manifold_tool copy IN OUT, inside FILE X Y Z or run SCRIPT, each with --digits K\n",
            ),
        ),
        Stop::BadScript { line, kind } => {
            let tail = line_tail(*line, u64::from(*kind), script_kind_text(*kind));
            (name, tail)
        }
        Stop::BadStep { line, kind } => (name, step_tail(*line, *kind)),
        Stop::Missing => (name, plain_tail(b": missing\n")),
        Stop::BadText { line, kind } => {
            let (number, text) = kind_text(*kind);
            (name, line_tail(*line, number, text))
        }
        Stop::BadEdge { from, to } => (name, edge_tail(*from, *to)),
        Stop::Over { what, seen } => (b"", limit_tail(*what, *seen)),
        Stop::ReadFault => (name, plain_tail(b": read fault\n")),
        Stop::WriteFault => (name, plain_tail(b": write fault\n")),
        Stop::NoMemory => (b"", plain_tail(b"out of memory\n")),
    }
}

/// The end of the line that reports a copy.
pub fn copied_tail(points: u64, triangles: u64, unused: u64) -> Tail
    ensures { result.items ≡ counts_text points triangles unused ++ codes "\n" }
{
    let mut tail = Tail::new();
    put_pair(&mut tail, b": points ", points);
    put_pair(&mut tail, b", triangles ", triangles);
    put_pair(&mut tail, b", unused ", unused);
    put(&mut tail, b"\n");
    tail
}

/// The end of the line that reports a winding number.
pub fn winding_tail(number: i64) -> Tail
    ensures { result.items ≡ signed_decimal number ++ codes "\n" }
{
    let mut tail = Tail::new();
    put_number(&mut tail, number);
    put(&mut tail, b"\n");
    tail
}
