// Words and digits in whole runs, and a start without words.
ghost use Rattle.std.specs.Prelude.{◌≡◌, ◌<◌, ◌^◌, ◌-◌};

use super::files::{CUBE, FINE_TETRAHEDRON};
use super::{ROOM, USAGE, copied, judge, plain, sink};
use mb_base::{NoMemory, Steps};
use mb_outside::{MemoryShelf, MemorySink};
use mesh_files::Stop;
use program_runs::start;
use std::alloc::Global;
use std::marker::Brand;
use std::sync::ledger::{Blank, Ledger};
use std::test::Fail;

#[test]
fn other_words_are_usage(rt: HostRuntime) -> Result<(), Fail> {
    let others: [&[&str]; 5] = [
        &[],
        &["copy", "c.obj", "u.ply"],
        &["inside", "c.obj", "-5", "4", "3"],
        &["run", ""],
        &["run", "c.obj", "u.obj"],
    ];
    for words in others {
        let case = plain(words, "c.obj", CUBE, 1, USAGE);
        judge(&rt, &case)?;
    }
    Ok(())
}

#[test]
fn a_copy_keeps_so_many_digits(rt: HostRuntime) -> Result<(), Fail> {
    let one = ["copy", "--digits", "1", "--", "-t.obj", "u.obj"];
    let rounded = copied(
        &one,
        "-t.obj",
        FINE_TETRAHEDRON,
        b"copied u.obj: points 4, triangles 4, unused 0\n",
        b"v 0 0 0\nv 1.3 0 0\nv 0 1.2 0\nv 0 0 -1.3\nf 1 2 3\nf 1 4 2\nf 2 4 3\nf 3 4 1\n",
    );
    judge(&rt, &rounded)?;
    let six = ["copy", "t.OBJ", "u.obj", "--digits=6"];
    let whole = copied(
        &six,
        "t.OBJ",
        FINE_TETRAHEDRON,
        b"copied u.obj: points 4, triangles 4, unused 0\n",
        FINE_TETRAHEDRON,
    );
    judge(&rt, &whole)?;
    Ok(())
}

// The status of a start without words.
fn wordless<L: Ledger>(
    alloc: Global,
    stop: Stop,
    shelf: &mut MemoryShelf,
    out: &mut MemorySink,
    err: &mut MemorySink,
    blank: Blank,
) -> u8
    requires name { blank.name ≡ L.name }
    requires parts { blank.parts ≡ L.parts }
    requires some { 0 < blank.parts }
    requires reads { shelf.old.read_faults < 2 ^ 64 - 1 }
    requires writes { shelf.old.write_faults < 2 ^ 64 - 1 }
    requires outs { out.old.faults < 2 ^ 64 - 1 }
    requires errs { err.old.faults < 2 ^ 64 - 1 }
{
    let mut steps = Steps::<L>::over(blank);
    start(alloc, Err(stop), shelf, out, err, &mut steps).number()
}

// A start without words, and what it tells.
fn tells<R: AllocGlobal>(rt: &R, stop: Stop, status: u8, line: &[u8]) -> Result<bool, NoMemory> {
    let alloc = rt.alloc();
    let mut shelf = MemoryShelf::of(alloc, 1, ROOM, ROOM, Vec::new(alloc))?;
    let mut out = sink(alloc, 0)?;
    let mut err = sink(alloc, 0)?;
    let number = wordless::<Brand>(alloc, stop, &mut shelf, &mut out, &mut err, Blank::new(1));
    Ok(number == status && err.bytes() == line && out.bytes().is_empty())
}

#[test]
fn a_start_without_words_says_why(rt: HostRuntime) -> Result<(), Fail> {
    assert!(rt; tells(&rt, Stop::Usage, 1, USAGE)?);
    assert!(rt; tells(&rt, Stop::NoMemory, 8, b"out of memory\n")?);
    Ok(())
}
