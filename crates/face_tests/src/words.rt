// What the rows of tables stand for.
ghost use Rattle.std.specs.Prelude.{◌<◌};

use mb_base::Point;
use ring_cutting::Filled;
use std::alloc::Global;
use std::process::Abort;

// What a number below 0 is among the numbers of a row: this and its size, more than any vertex.
const MINUS: u64 = 0x1_0000_0000;

// What a colon between two parts is: more than any number.
const COLON: u64 = 0x2_0000_0000;

/// What a stroke between two loops is.
pub const STROKE: u64 = 0x3_0000_0000;

// The size of the greatest coordinate.
const END: u32 = 1 << 30;

// A number that is read: its digits so far, of which there may be none, after a minus sign or not.
#[derive(Clone, Copy, Drop)]
struct Word {
    size: u64,
    has_digits: bool,
    is_minus: bool,
}

// The number after one more digit.
fn grown(word: &Word, byte: u8) -> Word {
    let digit = byte.wrapping_sub(b'0') as u64;
    Word {
        size: word.size.saturating_mul(10).saturating_add(digit),
        has_digits: true,
        is_minus: word.is_minus,
    }
}

// Adds a number where its digits end. It fails at a minus sign without digits, and at more than 32 bits.
fn end(rt: &impl Abort, numbers: &mut Vec<u64>, word: &Word) {
    assert!(rt;
        word.has_digits || !word.is_minus,
        "a minus sign without digits"
    );
    assert!(rt; word.size <= 0xFFFF_FFFF, "a number of more than 32 bits");
    if word.has_digits {
        numbers
            .push(if word.is_minus {
                MINUS.wrapping_add(word.size)
            } else {
                word.size
            })
            .expect(rt, "room for a number");
    }
}

// Adds what a sign that is no digit stands for: a small letter is a number by itself, a is 0. A blank, a comma, a semicolon
// and a minus sign only part numbers. It fails at any other sign.
fn add_sign(rt: &impl Abort, numbers: &mut Vec<u64>, byte: u8) {
    if byte == b':' {
        numbers.push(COLON).expect(rt, "room for a colon");
    } else if byte == b'/' {
        numbers.push(STROKE).expect(rt, "room for a stroke");
    } else if byte >= b'a' && byte <= b'z' {
        numbers
            .push(byte.wrapping_sub(b'a') as u64)
            .expect(rt, "room for a number");
    } else {
        assert!(rt;
            byte == b' ' || byte == b',' || byte == b';' || byte == b'-',
            "a sign of a row"
        );
    }
}

// The numbers of a row, with the marks between its parts and loops. It fails at a minus sign after a digit.
fn numbers_of(rt: &impl Abort, alloc: Global, row: &str) -> Vec<u64> {
    let mut numbers = Vec::new(alloc);
    let mut word = Word {
        size: 0,
        has_digits: false,
        is_minus: false,
    };
    for byte in row.as_bytes() {
        if *byte >= b'0' && *byte <= b'9' {
            word = grown(&word, *byte);
        } else {
            assert!(rt;
                *byte != b'-' || !word.has_digits,
                "a minus sign after a digit"
            );
            end(rt, &mut numbers, &word);
            add_sign(rt, &mut numbers, *byte);
            word = Word {
                size: 0,
                has_digits: false,
                is_minus: *byte == b'-',
            };
        }
    }
    end(rt, &mut numbers, &word);
    numbers
}

// The lists between the marks of one.
fn lists_between(rt: &impl Abort, alloc: Global, numbers: &[u64], mark: u64) -> Vec<Vec<u64>> {
    let mut lists = Vec::new(alloc);
    let mut list = Vec::new(alloc);
    for number in numbers {
        if *number == mark {
            lists.push(list).expect(rt, "room for a list");
            list = Vec::new(alloc);
        } else {
            list.push(*number).expect(rt, "room for a number");
        }
    }
    lists.push(list).expect(rt, "room for a list");
    lists
}

/// The numbers of the parts of a row, which have colons between them.
pub fn parts_of(rt: &impl Abort, alloc: Global, row: &str) -> Vec<Vec<u64>> {
    lists_between(rt, alloc, &numbers_of(rt, alloc, row), COLON)
}

/// The lists of a part, which have strokes between them.
pub fn lists_of(rt: &impl Abort, alloc: Global, numbers: &[u64]) -> Vec<Vec<u64>> {
    lists_between(rt, alloc, numbers, STROKE)
}

// A number that is no mark and not below 0.
fn plain(rt: &impl Abort, number: u64) -> u32 {
    u32::try_from(number).expect(rt, "no mark, and not below 0")
}

/// The number of a part that has one.
pub fn number_of(rt: &impl Abort, numbers: &[u64]) -> u32 {
    assert!(rt; numbers.len() == 1, "one number");
    plain(rt, numbers[0])
}

/// The numbers as vertices.
pub fn vertices_of(rt: &impl Abort, alloc: Global, numbers: &[u64]) -> Vec<u32> {
    let mut vertices = Vec::new(alloc);
    for number in numbers {
        vertices
            .push(plain(rt, *number))
            .expect(rt, "room for a vertex");
    }
    vertices
}

// A number as a coordinate, which is one of the grid.
fn coordinate(rt: &impl Abort, number: u64) -> i32 {
    let is_minus = number >= MINUS;
    let size = plain(
        rt,
        if is_minus {
            number.wrapping_sub(MINUS)
        } else {
            number
        },
    );
    assert!(rt; size <= END, "a coordinate of the grid");
    let size = size.cast_signed();
    if is_minus { size.wrapping_neg() } else { size }
}

/// The point with these coordinates.
pub fn point(rt: &impl Abort, [x, y, z]: [i32; 3]) -> Point {
    Point::of(x, y, z).expect(rt, "a point of the grid")
}

// The point of these numbers; two are u and v in the plane that drops the last axis. Any other count is no point: it is
// read as colons, which `coordinate` refuses.
fn point_of(rt: &impl Abort, numbers: &[u64]) -> Point {
    let [x, y, z] = match numbers {
        [u, v] => [*u, *v, 0],
        [x, y, z] => [*x, *y, *z],
        _ => [COLON; 3],
    };
    let (x, y, z) = (coordinate(rt, x), coordinate(rt, y), coordinate(rt, z));
    point(rt, [x, y, z])
}

/// The points with these coordinates, so many for each. It fails where a point lacks a coordinate.
pub fn points_of(rt: &impl Abort, alloc: Global, numbers: &[u64], axes: usize) -> Vec<Point>
    requires { 0 < axes }
{
    let mut points = Vec::new(alloc);
    for part in numbers.chunks(axes) {
        assert!(rt; part.len() == axes, "a point lacks a coordinate");
        points
            .push(point_of(rt, part))
            .expect(rt, "room for a point");
    }
    points
}

/// Whether a filling has triangles with these corners, one after the other, and as many forced.
pub fn is_filling(
    rt: &impl Abort,
    alloc: Global,
    filled: &Filled,
    wanted: &[u32],
    forced: u64,
) -> bool {
    let mut corners = Vec::new(alloc);
    for triple in &filled.triples {
        corners
            .extend_from_slice(triple)
            .expect(rt, "room for three");
    }
    corners.as_slice() == wanted && filled.forced == forced
}
