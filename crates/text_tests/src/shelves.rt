// Shelves and sinks call by call, and what they hold in the end.
ghost use Rattle.std.specs.Prelude.{◌<◌};

use mb_base::NoMemory;
use mb_outside::{
    Failed, FolderShelf, MemoryShelf, MemorySink, Shelf, Sink, StdSink, SureShelf, write_all,
};
use std::alloc::Global;
use std::fs;
use std::io::{self, Write};
use std::process::Abort;

// A call of a shelf.
#[derive(Clone, Copy, Drop)]
enum Call {
    Size(&'static str),
    Read(&'static str, u64),
    Begin(&'static str),
    Append(&'static str, &'static [u8]),
}

// What a call answers: a size, a count of bytes, or 0 where a file was begun.
type Answer = Result<Option<u64>, Failed>;

// So many bytes were read or taken.
fn counted(count: Result<usize, Failed>) -> Answer {
    match count {
        Ok(count) => Ok(Some(count as u64)),
        Err(Failed) => Err(Failed),
    }
}

fn answer<S: Shelf>(shelf: &mut S, call: &Call, into: &mut [u8]) -> Answer {
    match call {
        Call::Size(name) => shelf.size(name),
        Call::Read(name, at) => counted(shelf.read_at(name, *at, into)),
        Call::Begin(name) => match shelf.begin(name) {
            Ok(()) => Ok(Some(0)),
            Err(Failed) => Err(Failed),
        },
        Call::Append(name, piece) => counted(shelf.append(name, piece)),
    }
}

// Whether the calls, one after the other, answer so, and leave these bytes in the buffer.
fn answers<S: Shelf>(shelf: &mut S, rows: &[(Call, Answer)], into: &mut [u8], left: &[u8]) -> bool {
    let mut all = true;
    for (call, wanted) in rows {
        if answer(shelf, call, into) != *wanted {
            all = false;
        }
    }
    all && *into == *left
}

// Whether the writes, one after the other, take so many bytes.
fn takes<K: Sink>(sink: &mut K, rows: &[(&[u8], Answer)]) -> bool {
    let mut all = true;
    for (piece, wanted) in rows {
        if counted(sink.write(piece)) != *wanted {
            all = false;
        }
    }
    all
}

// A shelf with one file, and free places for so many bytes each, which takes and gives so many bytes at a time.
pub fn shelf_with(
    rt: &impl Abort,
    alloc: Global,
    places: usize,
    room: usize,
    most: usize,
    fails: Vec<u64>,
    name: &str,
    bytes: &[u8],
) -> MemoryShelf
    requires { 0 < most }
{
    let mut shelf = MemoryShelf::of(alloc, places, room, most, fails).expect(rt, "a shelf");
    shelf.put(name, bytes).expect(rt, "a file");
    shelf
}

static FRONT: [(Call, Answer); 3] = [
    (Call::Size("cube.obj"), Ok(Some(8))),
    (Call::Size("cube"), Ok(None)),
    (Call::Read("cube.obj", 0), Ok(Some(4))),
];

static END: [(Call, Answer); 3] = [
    (Call::Read("cube.obj", 5), Ok(Some(3))),
    (Call::Read("cube.obj", 8), Ok(Some(0))),
    (Call::Read("cube", 0), Ok(Some(0))),
];

#[test]
fn a_file_in_memory_is_read_in_pieces(rt: HostRuntime) {
    let fails = Vec::new(rt.alloc());
    let mut shelf = shelf_with(&rt, rt.alloc(), 2, 100, 4, fails, "cube.obj", b"v 0 0 0\n");
    let mut into = *b"......";
    assert!(rt; answers(&mut shelf, &FRONT, &mut into, b"v 0 .."));
    assert!(rt; answers(&mut shelf, &END, &mut into, b" 0\n .."));
}

static IN_PIECES: [(Call, Answer); 10] = [
    (Call::Begin("new"), Ok(Some(0))),
    (Call::Append("new", b"abcdef"), Ok(Some(4))),
    (Call::Append("new", b"ef"), Err(Failed)),
    (Call::Append("new", b"ef"), Ok(Some(2))),
    (Call::Append("new", b"g"), Err(Failed)),
    (Call::Begin("third"), Err(Failed)),
    (Call::Begin("old"), Ok(Some(0))),
    (Call::Append("old", b"1234"), Ok(Some(4))),
    (Call::Append("old", b"5678"), Ok(Some(4))),
    (Call::Append("old", b"9"), Err(Failed)),
];

// Whether a file is there with these bytes.
fn is_text(found: Option<&[u8]>, wanted: &[u8]) -> bool {
    match found {
        Some(bytes) => *bytes == *wanted,
        None => false,
    }
}

// Whether a shelf holds these bytes under a name.
pub fn holds(shelf: &MemoryShelf, name: &str, wanted: &[u8]) -> bool {
    is_text(shelf.get(name), wanted)
}

// Whether a file can be put in the place of another.
fn is_put(shelf: &mut MemoryShelf) -> bool {
    shelf.put("old", b"now").is_ok() && holds(shelf, "old", b"now")
}

#[test]
fn a_file_in_memory_is_written_in_pieces(rt: HostRuntime) {
    let fails = vec![in rt.alloc(); 3].expect(&rt, "one number");
    let mut shelf = shelf_with(&rt, rt.alloc(), 1, 6, 4, fails, "old", b"12345678");
    assert!(rt; answers(&mut shelf, &IN_PIECES, &mut [], b""));
    assert!(rt; holds(&shelf, "new", b"abcdef") && shelf.get("third").is_none());
    assert!(rt; is_put(&mut shelf));
}

static SURE: [(Call, Answer); 10] = [
    (Call::Size("old"), Ok(Some(8))),
    (Call::Size("new"), Ok(Some(0))),
    (Call::Size("third"), Ok(None)),
    (Call::Read("old", 6), Ok(Some(2))),
    (Call::Begin("old"), Err(Failed)),
    (Call::Begin("new"), Ok(Some(0))),
    (Call::Append("new", b"abcd"), Ok(Some(4))),
    (Call::Append("new", b"efg"), Err(Failed)),
    (Call::Append("old", b"e"), Err(Failed)),
    (Call::Append("new", b"ef"), Ok(Some(2))),
];

static SURE_AGAIN: [(Call, Answer); 4] = [
    (Call::Begin("new"), Ok(Some(0))),
    (Call::Append("new", b"g"), Err(Failed)),
    (Call::Size("new"), Ok(Some(0))),
    (Call::Size("old"), Ok(Some(8))),
];

// Whether a sure shelf takes what its spare has room for, and again after it is begun once more.
fn takes_what_fits(shelf: &mut SureShelf) -> bool {
    let mut into = *b"....";
    answers(shelf, &SURE, &mut into, b"78..")
        && is_text(shelf.get("new"), b"abcdef")
        && answers(shelf, &SURE_AGAIN, &mut into, b"78..")
}

#[test]
fn a_sure_shelf_takes_what_its_spare_has_room_for(rt: HostRuntime) {
    let shelf = SureShelf::of(rt.alloc(), "old", b"12345678", "new", 6);
    assert!(rt; takes_what_fits(&mut shelf.expect(&rt, "a shelf")));
}

static TAKEN: [(&[u8], Answer); 4] = [
    (b"abcd", Ok(Some(3))),
    (b"d", Err(Failed)),
    (b"def", Err(Failed)),
    (b"de", Ok(Some(2))),
];

// A sink for so many bytes, which takes so many at a time, and whose second write fails.
pub fn failing_sink(rt: &impl Abort, alloc: Global, room: usize, most: usize) -> MemorySink
    requires { 0 < most }
{
    let fails = vec![in alloc; 2].expect(rt, "one number");
    MemorySink::of(alloc, room, most, fails).expect(rt, "a sink")
}

#[test]
fn a_sink_in_memory_takes_what_fits(rt: HostRuntime) {
    let mut sink = failing_sink(&rt, rt.alloc(), 5, 3);
    assert!(rt; takes(&mut sink, &TAKEN) && sink.bytes() == b"abcde".as_slice());
}

static KEPT: [(Call, Answer); 6] = [
    (Call::Size("missing.txt"), Ok(None)),
    (Call::Begin("kept.txt"), Ok(Some(0))),
    (Call::Append("kept.txt", b"hello"), Ok(Some(5))),
    (Call::Append("kept.txt", b", folder"), Ok(Some(8))),
    (Call::Size("kept.txt"), Ok(Some(13))),
    (Call::Read("kept.txt", 0), Ok(Some(13))),
];

static KEPT_AGAIN: [(Call, Answer); 8] = [
    (Call::Read("kept.txt", 7), Ok(Some(6))),
    (Call::Read("kept.txt", 13), Ok(Some(0))),
    (Call::Begin("kept.txt"), Ok(Some(0))),
    (Call::Size("kept.txt"), Ok(Some(0))),
    (Call::Append("made.txt", b"x"), Ok(Some(1))),
    (Call::Size("made.txt"), Ok(Some(1))),
    (Call::Append("made.txt", b"yz"), Ok(Some(2))),
    (Call::Read("made.txt", 0), Ok(Some(3))),
];

// A name longer than any file's.
const LONG: &str =
    "a_name_that_is_longer_than_that_of_any_file_a_name_that_is_longer_than_that_of_any_file_a_name_that_is_longer_than_that_of_any_file_a_name_that_is_longer_than_that_of_any_file_a_name_that_is_longer_than_that_of_any_file_a_name_that_is_longer_than_that_of_any_file";

static NO_PLACE: [(Call, Answer); 8] = [
    // A device, and the folder itself.
    (Call::Size("/dev/null"), Err(Failed)),
    (Call::Read(".", 0), Err(Failed)),
    (Call::Begin("plain.txt"), Ok(Some(0))),
    (Call::Size("plain.txt/below.txt"), Err(Failed)),
    (Call::Size(LONG), Err(Failed)),
    (Call::Read("missing.txt", 0), Err(Failed)),
    (Call::Begin("missing/folder.txt"), Err(Failed)),
    (Call::Append("missing/folder.txt", b"x"), Err(Failed)),
];

#[test]
fn the_folder_keeps_what_was_written_where_it_has_a_place(rt: HostRuntime) {
    let mut shelf = FolderShelf::of(&rt);
    let mut into = *b"...............";
    assert!(rt; answers(&mut shelf, &KEPT, &mut into, b"hello, folder.."));
    assert!(rt; answers(&mut shelf, &KEPT_AGAIN, &mut into, b"xyzder folder.."));
    assert!(rt; answers(&mut shelf, &NO_PLACE, &mut into, b"xyzder folder.."));
    for name in &["kept.txt", "made.txt", "plain.txt"] {
        fs::remove_file(&rt, name).expect(&rt, "the file is there");
    }
}

static SAID: [(&[u8], Answer); 3] = [
    (b"said", Ok(Some(4))),
    (b"", Ok(Some(0))),
    (b", done\n", Ok(Some(7))),
];

static READ_BACK: [(Call, Answer); 1] = [(Call::Read("out.txt", 0), Ok(Some(11)))];

// Whether the file holds what was said.
fn is_kept(rt: &HostRuntime) -> bool {
    let mut into = *b"............";
    let mut shelf = FolderShelf::of(rt);
    answers(&mut shelf, &READ_BACK, &mut into, b"said, done\n.")
}

#[test]
fn a_writer_of_std_gets_what_was_written(rt: HostRuntime) {
    let file = fs::create(&rt, "out.txt").expect(&rt, "a file is made");
    assert!(rt; takes(&mut StdSink::over(file), &SAID));
    assert!(rt; is_kept(&rt));
    let file = fs::open(&rt, "out.txt").expect(&rt, "the file is there");
    assert!(rt; StdSink::over(file).write(b"more").is_err());
    fs::remove_file(&rt, "out.txt").expect(&rt, "the file is there");
}

// 200,000 bytes, of which each part differs from those near it.
fn long_text(alloc: Global) -> Result<Vec<u8>, NoMemory> {
    let mut text = Vec::new(alloc);
    for i in 0..200_000u32 {
        text.push((i % 251) as u8)?;
    }
    Ok(text)
}

// Whether each piece of a text is added at the end of a file.
fn appends<S: Shelf>(shelf: &mut S, name: &str, text: &[u8]) -> bool {
    let mut all = true;
    for piece in text.chunks(7_000) {
        if shelf.append(name, piece) != Ok(piece.len()) {
            all = false;
        }
    }
    all
}

// Whether each piece of a text is read at its place.
fn reads_back<S: Shelf>(shelf: &mut S, name: &str, text: &[u8]) -> bool {
    let mut into = [0u8; 9_000];
    let mut at = 0u64;
    let mut all = true;
    for piece in text.chunks(9_000) {
        if shelf.read_at(name, at, &mut into) != Ok(piece.len()) || !into.starts_with(piece) {
            all = false;
        }
        at = at.saturating_add(piece.len() as u64);
    }
    all
}

// Whether a file is begun and has no bytes.
fn is_begun<S: Shelf>(shelf: &mut S, name: &str) -> bool {
    shelf.begin(name).is_ok() && matches!(shelf.size(name), Ok(Some(0)))
}

// Whether a file holds a text of 200,000 bytes after it is written in pieces.
fn keeps<S: Shelf>(shelf: &mut S, name: &str, text: &[u8]) -> bool {
    appends(shelf, name, text)
        && matches!(shelf.size(name), Ok(Some(200_000)))
        && reads_back(shelf, name, text)
}

#[test]
fn a_long_file_of_the_folder_is_read_back(rt: HostRuntime) {
    let text = long_text(rt.alloc()).expect(&rt, "a text");
    let mut shelf = FolderShelf::of(&rt);
    assert!(rt; is_begun(&mut shelf, "long.txt"));
    assert!(rt; keeps(&mut shelf, "long.txt", &text));
    assert!(rt; is_begun(&mut shelf, "long.txt"));
    // A folder has a size.
    assert!(rt; matches!(shelf.size("."), Ok(Some(_))));
    fs::remove_file(&rt, "long.txt").expect(&rt, "the file is there");
}

// A writer that takes 7 bytes, then one, then all, and so on.
#[derive(Drop)]
struct FitfulWriter<'a> {
    taken: &'a mut Vec<u8>,
    calls: u32,
}

impl<'a> Write for FitfulWriter<'a> {
    fn write(&mut self, piece: &[u8]) -> io::Result<usize> {
        let most = match self.calls % 3 {
            0 => 7,
            1 => 1,
            _ => piece.len(),
        };
        self.calls = self.calls.saturating_add(1);
        let count = most.min(piece.len());
        self.taken.extend_from_slice(&piece[..count])?;
        Ok(count)
    }

    fn flush(&mut self) -> io::Result<()> {
        Ok(())
    }
}

// Whether a writer of std that takes parts gets all of a text.
fn goes_out(rt: &impl Abort, alloc: Global, text: &[u8]) -> bool {
    let mut taken = Vec::with_capacity(alloc, text.len()).expect(rt, "room for the text");
    let is_written = {
        let mut sink = StdSink::over(FitfulWriter {
            taken: &mut taken,
            calls: 0,
        });
        write_all(&mut sink, text).is_ok()
    };
    is_written && taken.as_slice() == text
}

#[test]
fn a_writer_of_std_may_take_parts(rt: HostRuntime) {
    let text = long_text(rt.alloc()).expect(&rt, "a text");
    assert!(rt; goes_out(&rt, rt.alloc(), &text));
}
